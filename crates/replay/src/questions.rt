// The questions that are put to the kernel, and what it answers to them.
use ids::NodeId;
use kernel::changes_calls::{narrow, restrict, widen};
use kernel::conditions_calls::{from_bool, from_comparison, from_range};
use kernel::disjointness_calls::is_disjoint;
use kernel::joins_calls::{and, or};
use ranges::bounds::{Bound, Comparison};
use std::fmt;
use std::fmt::{Display, Formatter};
use table::calls::{check, evaluate, fresh};
use table::lent::{TableMut, Used};
use table::refusal::Refusal;

// A call of the kernel, with all that it takes but what is lent.
#[derive(Clone, Copy)]
pub enum Question {
    Check,
    Fresh,
    Evaluate {
        bools: u32,
        id: NodeId,
    },
    FromComparison {
        variable: u32,
        comparison: Comparison,
        key: i32,
    },
    FromRange {
        variable: u32,
        lower: Bound,
        upper: Bound,
    },
    FromBool {
        variable: u32,
    },
    And(NodeId, NodeId),
    Or(NodeId, NodeId),
    IsDisjoint(NodeId, NodeId),
    Restrict {
        id: NodeId,
        variable: u32,
        value: bool,
    },
    Narrow {
        id: NodeId,
        variable: u32,
        lower: Bound,
        upper: Bound,
    },
    Widen {
        id: NodeId,
        variable: u32,
        lower: Bound,
        upper: Bound,
    },
}

impl Question {
    pub fn ask(self, table: &mut TableMut, memo: &mut [u64], places: &[i64]) -> Reply {
        match self {
            Question::Check => Reply::Counts(check(&table.read())),
            Question::Fresh => Reply::Done(fresh(table)),
            Question::Evaluate { bools, id } => {
                Reply::Tells(evaluate(&table.read(), places, bools, id))
            }
            Question::FromComparison {
                variable,
                comparison,
                key,
            } => Reply::Makes(from_comparison(table, variable, comparison, key)),
            Question::FromRange {
                variable,
                lower,
                upper,
            } => Reply::Makes(from_range(table, variable, lower, upper)),
            Question::FromBool { variable } => Reply::Makes(from_bool(table, variable)),
            Question::And(x, y) => Reply::Makes(and(table, memo, x, y)),
            Question::Or(x, y) => Reply::Makes(or(table, memo, x, y)),
            Question::IsDisjoint(x, y) => Reply::Tells(is_disjoint(&table.read(), x, y)),
            Question::Restrict {
                id,
                variable,
                value,
            } => Reply::Makes(restrict(table, memo, id, variable, value)),
            Question::Narrow {
                id,
                variable,
                lower,
                upper,
            } => Reply::Makes(narrow(table, memo, id, variable, lower, upper)),
            Question::Widen {
                id,
                variable,
                lower,
                upper,
            } => Reply::Makes(widen(table, memo, id, variable, lower, upper)),
        }
    }
}

// What a call answered.
#[derive(Clone, Copy)]
pub enum Reply {
    Counts(Result<Used, Refusal>),
    Done(Result<(), Refusal>),
    Tells(Result<bool, Refusal>),
    Makes(Result<NodeId, Refusal>),
}

// A number, and what was answered; behind the number of a refusal stands 0, "no" or FALSE.
impl Display for Reply {
    fn fmt<W: fmt::Write>(&self, f: &mut Formatter<W>) -> fmt::Result {
        match *self {
            Reply::Counts(answered) => {
                let (number, used) = told(answered, Used { nodes: 0, edges: 0 });
                write!(f, "{number} {} {}", used.nodes, used.edges)
            }
            Reply::Done(answered) => {
                let (number, ()) = told(answered, ());
                write!(f, "{number}")
            }
            Reply::Tells(answered) => {
                let (number, yes) = told(answered, false);
                write!(f, "{number} {}", u8::from(yes))
            }
            Reply::Makes(answered) => {
                let (number, id) = told(answered, NodeId::FALSE);
                write!(f, "{number} {}", id.0)
            }
        }
    }
}

// The number of a refusal, or 0, and the answer, or what stands in its place.
fn told<T: Copy>(answered: Result<T, Refusal>, refused: T) -> (u32, T) {
    match answered {
        Ok(answer) => (0, answer),
        Err(refusal) => (refusal.number(), refused),
    }
}
