// What is asked of a table, and how it is written.
use ids::NodeId;
use ranges::bounds::{Bound, Comparison};
use std::fmt;
use table::refusal::Refusal;

// The terminals, by the document's numbers and not by the kernel's names: what is expected stands in this program.
pub const TRUE: NodeId = NodeId(0);

pub const FALSE: NodeId = NodeId(1);

#[derive(Clone, Copy, PartialEq, Eq)]
pub struct Variable(pub u32);

// The variables that have a name.
pub const X: Variable = Variable(0);

pub const A: Variable = Variable(32);

pub const B: Variable = Variable(33);

pub const C: Variable = Variable(34);

pub const D: Variable = Variable(35);

// A call, with its arguments, or a look at the words.
#[derive(Clone, Copy)]
pub enum Question {
    Compare(Variable, Comparison, i32),
    Between(Variable, Bound, Bound),
    Boolean(Variable),
    And(NodeId, NodeId),
    Or(NodeId, NodeId),
    Restrict(NodeId, Variable, bool),
    Narrow(NodeId, Variable, Bound, Bound),
    Widen(NodeId, Variable, Bound, Bound),
    Disjoint(NodeId, NodeId),
    // A reading of x at a place, with a true and all else 0.
    Read(NodeId, i64),
    // The edges of a node's record, and the cut of its first.
    Edges(NodeId),
    FirstCut(NodeId),
    // What `check` counts.
    AllNodes,
    AllEdges,
}

impl Question {
    // Whether a memo is lent with the call.
    pub fn is_lent_memo(self) -> bool {
        matches!(
            self,
            Question::And(..)
                | Question::Or(..)
                | Question::Restrict(..)
                | Question::Narrow(..)
                | Question::Widen(..)
        )
    }

    // What stands beside a refusal: no where the answer is yes or no, else the id FALSE.
    pub fn refused(self) -> Value {
        match self {
            Question::Disjoint(..) | Question::Read(..) => Value::Yes(false),
            _ => Value::Id(FALSE),
        }
    }
}

// What comes out of a question.
#[derive(Clone, Copy, PartialEq, Eq)]
pub enum Value {
    Id(NodeId),
    Yes(bool),
    Count(usize),
    Cut(i64),
}

// A question, with what is to come out of it, and the number of the case of document 01 that it is of, if of any.
#[derive(Clone, Copy)]
pub struct Case {
    pub of: Option<u32>,
    pub asks: Question,
    pub wants: Result<Value, Refusal>,
}

// An id as it is written: TRUE, FALSE, or its number.
#[derive(Clone, Copy)]
struct Written(NodeId);

impl fmt::Display for Written {
    fn fmt<W: fmt::Write>(&self, f: &mut fmt::Formatter<W>) -> fmt::Result {
        match self.0 {
            TRUE => write!(f, "TRUE"),
            FALSE => write!(f, "FALSE"),
            NodeId(number) => write!(f, "{number}"),
        }
    }
}

impl fmt::Display for Value {
    fn fmt<W: fmt::Write>(&self, f: &mut fmt::Formatter<W>) -> fmt::Result {
        match *self {
            Value::Id(id) => write!(f, "{}", Written(id)),
            Value::Yes(yes) => write!(f, "{}", if yes { "yes" } else { "no" }),
            Value::Count(count) => write!(f, "{count}"),
            Value::Cut(cut) => write!(f, "{cut}"),
        }
    }
}

impl fmt::Display for Variable {
    fn fmt<W: fmt::Write>(&self, f: &mut fmt::Formatter<W>) -> fmt::Result {
        match *self {
            X => write!(f, "x"),
            A => write!(f, "a"),
            B => write!(f, "b"),
            C => write!(f, "c"),
            D => write!(f, "d"),
            Variable(number) => write!(f, "variable {number}"),
        }
    }
}

fn sign(op: Comparison) -> &'static str {
    match op {
        Comparison::Equal => "=",
        Comparison::NotEqual => "!=",
        Comparison::LessThan => "<",
        Comparison::LessEqual => "<=",
        Comparison::GreaterThan => ">",
        Comparison::GreaterEqual => ">=",
    }
}

// A variable in a range, which has a square bracket beside an end that it includes.
#[derive(Clone, Copy)]
struct Within(Variable, Bound, Bound);

impl fmt::Display for Within {
    fn fmt<W: fmt::Write>(&self, f: &mut fmt::Formatter<W>) -> fmt::Result {
        write!(f, "{} in ", self.0)?;
        match self.1 {
            Bound::Open => write!(f, "(open,")?,
            Bound::Includes(key) => write!(f, "[{key},")?,
            Bound::Excludes(key) => write!(f, "({key},")?,
        }
        match self.2 {
            Bound::Open => write!(f, "open)"),
            Bound::Includes(key) => write!(f, "{key}]"),
            Bound::Excludes(key) => write!(f, "{key})"),
        }
    }
}

impl fmt::Display for Question {
    fn fmt<W: fmt::Write>(&self, f: &mut fmt::Formatter<W>) -> fmt::Result {
        match *self {
            Question::Compare(v, op, key) => write!(f, "{v}{}{key}", sign(op)),
            Question::Between(v, low, high) => write!(f, "{}", Within(v, low, high)),
            Question::Boolean(v) => write!(f, "{v}"),
            Question::And(x, y) => write!(f, "{} and {}", Written(x), Written(y)),
            Question::Or(x, y) => write!(f, "{} or {}", Written(x), Written(y)),
            Question::Restrict(id, v, true) => write!(f, "{} restricted to {v}", Written(id)),
            Question::Restrict(id, v, false) => write!(f, "{} restricted to not {v}", Written(id)),
            Question::Narrow(id, v, low, high) => {
                write!(f, "{} narrowed to {}", Written(id), Within(v, low, high))
            }
            Question::Widen(id, v, low, high) => {
                write!(f, "{} widened by {}", Written(id), Within(v, low, high))
            }
            Question::Disjoint(x, y) => write!(f, "{} disjoint with {}", Written(x), Written(y)),
            Question::Read(id, place) => write!(f, "{} at place {place} with a true", Written(id)),
            Question::Edges(id) => write!(f, "edges of {}", Written(id)),
            Question::FirstCut(id) => write!(f, "first cut of {}", Written(id)),
            Question::AllNodes => write!(f, "nodes that check counts"),
            Question::AllEdges => write!(f, "edges that check counts"),
        }
    }
}

impl fmt::Display for Case {
    fn fmt<W: fmt::Write>(&self, f: &mut fmt::Formatter<W>) -> fmt::Result {
        match self.of {
            Some(number) => write!(f, "C{number:<3}{}", self.asks),
            None => write!(f, "    {}", self.asks),
        }
    }
}
