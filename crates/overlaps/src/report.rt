// The report: the pairs of rules that can both hold, the rules that hold always or never, and how many pairs are what. On request the pairs
// that are apart too, and every rule with its id.
use super::names::Rule;
use super::store::Store;
use ids::NodeId;
use std::io;
use table::refusal::Refusal;

// The width of the first column: OVERLAP and REFUSED are the longest words there.
const KIND: usize = 9;

// The length of "other rule": no column of names is narrower.
const HEADING: usize = 10;

// What the report is to show.
#[derive(Clone, Copy, PartialEq, Eq)]
pub enum Asked {
    Findings,
    All,
}

// What two rules are to each other.
#[derive(Clone, Copy, PartialEq, Eq)]
enum Relation {
    // No reading makes both hold.
    Apart,
    // Some reading makes both hold, and some others one without the other.
    Overlap,
    // Both hold at the same readings.
    Same,
    // The first never holds without the second.
    Inside,
    // The second never holds without the first.
    Around,
    // The kernel refused to tell. It cannot, since the table and the ids are its own.
    Refused,
}

impl Relation {
    // What x and y are to each other, by the answer of `and` of them. Equal ids are equal conditions, so the id of "both" tells: FALSE, that
    // no reading makes both hold; x, that x never holds without y. "No room" decides too: it is told exactly when no table that goes on from
    // this one has room for the answer, and this one holds FALSE, x and y, so that "both" is none of them.
    fn of(both: Result<NodeId, Refusal>, x: NodeId, y: NodeId) -> Relation {
        match both {
            Err(Refusal::NoRoom) => Relation::Overlap,
            Err(_) => Relation::Refused,
            Ok(z) if z.is_false() => Relation::Apart,
            Ok(_) if x == y => Relation::Same,
            Ok(z) if z == x => Relation::Inside,
            Ok(z) if z == y => Relation::Around,
            Ok(_) => Relation::Overlap,
        }
    }
}

// How many pairs are what.
#[derive(Clone, Copy, Default)]
pub struct Tally {
    apart: u64,
    overlap: u64,
    same: u64,
    inside: u64,
    pub refused: u64,
}

impl Tally {
    fn count(&mut self, relation: Relation) {
        let pairs = match relation {
            Relation::Apart => &mut self.apart,
            Relation::Overlap => &mut self.overlap,
            Relation::Same => &mut self.same,
            Relation::Inside | Relation::Around => &mut self.inside,
            Relation::Refused => &mut self.refused,
        };
        *pairs = pairs.saturating_add(1);
    }

    // How many pairs overlap.
    pub fn overlapping(&self) -> u64 {
        self.overlap
            .saturating_add(self.same)
            .saturating_add(self.inside)
    }
}

// How the report is written.
// `rt` is no field: a struct that holds a `&R` is not `Drop` for each `R: Print`.
#[derive(Clone, Copy)]
pub struct Report {
    // The width of a column of names: the longest name of a rule.
    width: usize,
    asked: Asked,
}

impl Report {
    pub fn new(rules: &[Rule], asked: Asked) -> Report {
        let longest = rules.iter().map(|rule| rule.name.len()).max();
        let width = longest.unwrap_or(0).max(HEADING);
        Report { width, asked }
    }

    // A row of the table of pairs.
    fn row(
        self,
        rt: &impl Print,
        kind: &str,
        first: &str,
        second: &str,
        when: &str,
    ) -> io::Result<()> {
        let width = self.width;
        println!(rt; "{kind:<KIND$}{first:<width$}  {second:<width$}  {when}")
    }

    // A pair. One that is apart is shown only where all are asked for. Of a pair inside, the inner rule comes first.
    fn pair(self, rt: &impl Print, a: &str, b: &str, relation: Relation) -> io::Result<()> {
        match relation {
            Relation::Apart if self.asked == Asked::Findings => Ok(()),
            Relation::Apart => self.row(rt, "apart", a, b, "never: proved"),
            Relation::Overlap => self.row(rt, "OVERLAP", a, b, "at some readings"),
            Relation::Same => self.row(rt, "SAME", a, b, "when either holds"),
            Relation::Inside => self.row(rt, "INSIDE", a, b, "when the first holds"),
            Relation::Around => self.row(rt, "INSIDE", b, a, "when the first holds"),
            Relation::Refused => self.row(rt, "REFUSED", a, b, "not known"),
        }
    }

    // All pairs. Each is decided by one `and`, and never by `is_disjoint`, whose memo is small. The nodes of the answer stay in the table.
    fn pairs(self, rt: &impl Print, rules: &[Rule], store: &mut Store) -> io::Result<Tally> {
        let mut tally = Tally::default();
        for (i, first) in rules.iter().enumerate() {
            for second in &rules[i + 1..] {
                let both = store.and(first.id, second.id);
                let relation = Relation::of(both, first.id, second.id);
                self.pair(rt, first.name, second.name, relation)?;
                tally.count(relation);
            }
        }
        Ok(tally)
    }

    // A rule that always or never holds is a finding too: nobody writes one on purpose. Where all is asked for, every rule is shown with its id.
    fn rule(self, rt: &impl Print, rule: &Rule) -> io::Result<()> {
        let Rule { name, id } = *rule;
        if id.is_true() {
            self.row(rt, "ALWAYS", name, "", "every reading meets it")?;
        } else if id.is_false() {
            self.row(rt, "NEVER", name, "", "no reading meets it")?;
        }
        if self.asked == Asked::All {
            let width = self.width;
            println!(rt; "{:<KIND$}{name:<width$}  id {}", "rule", id.0)?;
        }
        Ok(())
    }

    // How many pairs are what.
    fn tally(self, rt: &impl Print, tally: &Tally) -> io::Result<()> {
        let Tally {
            apart,
            same,
            inside,
            refused,
            ..
        } = *tally;
        let overlapping = tally.overlapping();
        println!(rt;
            "\nPairs that overlap: {overlapping} (the same condition: {same}, one inside the other: {inside}). Pairs proved apart: {apart}."
        )?;
        if refused > 0 {
            println!(rt; "Pairs that the kernel refused: {refused}.")?;
        }
        Ok(())
    }

    // The report, findings first, or where all is asked for every pair and every rule. Returns how many pairs are what.
    pub fn show(self, rt: &impl Print, rules: &[Rule], store: &mut Store) -> io::Result<Tally> {
        self.row(rt, "pair", "rule", "other rule", "both corrections apply")?;
        let tally = self.pairs(rt, rules, store)?;
        for rule in rules {
            self.rule(rt, rule)?;
        }
        self.tally(rt, &tally)?;
        Ok(tally)
    }
}
