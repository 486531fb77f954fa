// Why a line cannot be read, in plain words.
use super::characters::Far;
use super::text::Word;
use std::{fmt, str};
use table::lent::Used;
use table::refusal::Refusal;

pub const MOST_NAME: usize = 32;

// A limit of the program. The lines behind it are not read, since most of them would hit it again.
#[derive(Clone, Copy)]
pub enum Limit {
    Measures,
    Switches,
    Rules,
    // There is room for this condition alone, and not beside the rules before it, which take so many nodes and edges.
    Table(Used),
    // There is no room for this condition even alone.
    Condition,
    // The kernel refused. Its "no room" is one of the two above; which, is found out then. It cannot refuse for another reason: the table, the
    // ids and the variables are the program's own.
    Refused(Refusal),
}

#[derive(Clone, Copy)]
pub enum Fault {
    UnknownLine,
    NoName,
    LongName,
    ReservedName,
    TakenName,
    StrayWord,
    NoColon,
    NoTerm,
    UnknownName,
    NoSwitch,
    NoComparison,
    NoKey,
    NoJoin,
    Hit(Limit),
}

// Why a line cannot be read, and at which word; at none where it is the end of the line.
#[derive(Clone, Copy)]
pub struct Refused<'a> {
    pub at: Option<Word<'a>>,
    pub why: Fault,
}

impl Fault {
    pub fn at(self, at: Option<Word<'_>>) -> Refused<'_> {
        Refused { at, why: self }
    }

    pub fn is_limit(self) -> bool {
        matches!(self, Fault::Hit(_))
    }
}

impl Refused<'_> {
    // Whether the kernel found no room.
    pub fn is_no_room(&self) -> bool {
        matches!(self.why, Fault::Hit(Limit::Refused(Refusal::NoRoom)))
    }
}

impl From<Refusal> for Refused<'_> {
    fn from(refusal: Refusal) -> Self {
        Fault::Hit(Limit::Refused(refusal)).at(None)
    }
}

// The limit by name and number.
impl fmt::Display for Limit {
    fn fmt<W: fmt::Write>(&self, f: &mut fmt::Formatter<W>) -> fmt::Result {
        match self {
            Limit::Measures => write!(f, "32 measures"),
            Limit::Switches => write!(f, "32 switches"),
            Limit::Rules => write!(f, "256 rules"),
            Limit::Table(Used { nodes, edges }) => write!(
                f,
                "4096 nodes, 16384 edges; the rules before take {nodes} and {edges}"
            ),
            Limit::Condition => write!(
                f,
                "64 edges a node, 4096 nodes, 16384 edges; this rule alone has more"
            ),
            Limit::Refused(refusal) => {
                write!(f, "the kernel refused with number {}", refusal.number())
            }
        }
    }
}

impl fmt::Display for Fault {
    fn fmt<W: fmt::Write>(&self, f: &mut fmt::Formatter<W>) -> fmt::Result {
        let reason = match self {
            Fault::UnknownLine => "a line starts with measure, switch, rule or #",
            Fault::NoName => "no name stands here: letters, digits, _ and -",
            Fault::LongName => "this name has more than 32 characters",
            Fault::ReservedName => "and, or and not are no names",
            Fault::TakenName => "this name is taken already",
            Fault::StrayWord => "nothing can stand behind the name",
            Fault::NoColon => "a colon is missing behind the rule's name",
            Fault::NoTerm => "a measure or switch is missing",
            Fault::UnknownName => "no measure or switch of this name",
            Fault::NoSwitch => "not is for switches, and this is a measure",
            Fault::NoComparison => "one of = != < <= > >= is missing behind the measure",
            Fault::NoKey => "no whole number from -2147483648 to 2147483647",
            Fault::NoJoin => "only and, or, or the end of the line can stand here",
            Fault::Hit(limit) => return write!(f, "limit: {limit}"),
        };
        write!(f, "{reason}")
    }
}

// A line that cannot be read, of a text.
#[derive(Clone, Copy)]
pub struct Unreadable<'a> {
    pub text: &'a [u8],
    pub line: u64,
    pub refused: Refused<'a>,
}

// Where and why, and the name that stands there, if one does. A byte outside ASCII in the word is the reason, whatever else was found: it is no
// part of any name, number or sign.
impl fmt::Display for Unreadable<'_> {
    fn fmt<W: fmt::Write>(&self, f: &mut fmt::Formatter<W>) -> fmt::Result {
        let Unreadable {
            text,
            line,
            refused: Refused { at, why },
        } = *self;
        write!(f, "line {line}: ")?;
        let Some(word) = at else {
            return write!(f, "{why}");
        };
        if let Some(from) = word.far() {
            let starts_text = from.len() == text.len();
            let far = Far { from, starts_text };
            return write!(f, "{far}");
        }
        write!(f, "{why}")?;
        if word.starts_as_name() && word.bytes.len() <= MOST_NAME {
            if let Ok(name) = str::from_utf8(word.bytes) {
                write!(f, ": {name}")?;
            }
        }
        Ok(())
    }
}
