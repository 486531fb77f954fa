// What the text has declared: the names of measures, of switches and of rules, as words of the text.
ghost use Rattle.std.specs.Prelude.{◌≤◌, length};

use super::faults::{Fault, Limit, MOST_NAME};
use super::text::Word;
use ids::NodeId;
use table::limits::{FIRST_BOOLEAN, VARIABLES};

pub const MOST_MEASURES: usize = FIRST_BOOLEAN;

pub const MOST_SWITCHES: usize = VARIABLES - FIRST_BOOLEAN;

pub const MOST_RULES: usize = 256;

// A list with room for N. The places behind its first `count` are not used yet.
// An array with a count, since a list that grows would be on the heap.
#[derive(Drop)]
pub struct List<T, const N: usize> {
    items: [T; N],
    count: usize,
    ghost room: { count ≤ N },
}

impl<T: Copy, const N: usize> List<T, N> {
    // Nothing, where `unused` stands in every place.
    pub fn new(unused: T) -> Self {
        List {
            items: [unused; N],
            count: 0,
        }
    }

    pub fn as_slice(&self) -> &[T]
        ensures { length result.now ≤ N }
    {
        &self.items[..self.count]
    }

    // Puts an item behind the others. Where there is no room for it, the limit is hit.
    pub fn push(&mut self, item: T, limit: Limit) -> Result<(), Fault> {
        if self.count == N {
            return Err(Fault::Hit(limit));
        }
        self.items[self.count] = item;
        self.count += 1;
        Ok(())
    }
}

// A rule: its name, and the kernel's id of its condition.
#[derive(Clone, Copy)]
pub struct Rule<'a> {
    pub name: &'a str,
    pub id: NodeId,
}

// What the line that declares a variable says it is.
#[derive(Clone, Copy)]
pub enum VariableKind {
    Measure,
    Switch,
}

// A variable by its number: measures are 0, 1, .. and switches 32, 33, .. in the order of the lines.
#[derive(Clone, Copy)]
pub enum Variable {
    Measure(u32),
    Switch(u32),
}

// What the lines read so far say.
#[derive(Drop)]
pub struct Sheet<'a> {
    pub measures: List<&'a str, MOST_MEASURES>,
    pub switches: List<&'a str, MOST_SWITCHES>,
    pub rules: List<Rule<'a>, MOST_RULES>,
}

impl<'a> Sheet<'a> {
    // Nothing read.
    pub fn new() -> Self {
        let unused = Rule {
            name: "",
            id: NodeId::FALSE,
        };
        Sheet {
            measures: List::new(""),
            switches: List::new(""),
            rules: List::new(unused),
        }
    }

    // The variable of a name, if it has been declared.
    pub fn variable(&self, name: &str) -> Option<Variable> {
        let is_name = |declared: &&str| *declared == name;
        if let Some(i) = self.measures.as_slice().iter().position(is_name) {
            return Some(Variable::Measure(i as u32));
        }
        let i = self.switches.as_slice().iter().position(is_name)?;
        Some(Variable::Switch((FIRST_BOOLEAN + i) as u32))
    }

    // The word as the name of a new variable, or why it cannot be.
    pub fn new_variable(&self, word: Option<Word<'a>>) -> Result<&'a str, Fault> {
        new_name(word, |name| self.variable(name).is_some())
    }

    // The word as the name of a new rule, or why it cannot be.
    pub fn new_rule(&self, word: Option<Word<'a>>) -> Result<&'a str, Fault> {
        let rules = self.rules.as_slice();
        new_name(word, |name| rules.iter().any(|rule| rule.name == name))
    }
}

// The word as a name that is not taken, or why it cannot be one.
fn new_name<F: Fn(&str) -> bool>(word: Option<Word<'_>>, is_taken: F) -> Result<&str, Fault>
    requires { F.IsAlwaysCallable is_taken }
{
    let name = word.and_then(|w| w.as_name()).ok_or(Fault::NoName)?;
    if name.len() > MOST_NAME {
        return Err(Fault::LongName);
    }
    if matches!(name, "and" | "or" | "not") {
        return Err(Fault::ReservedName);
    }
    if is_taken(name) {
        return Err(Fault::TakenName);
    }
    Ok(name)
}
