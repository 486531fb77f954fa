// How what a call tells is written.
use std::fmt;
use table::lent::Used;
use table::refusal::Refusal;

// The number of a refusal, or 0.
// (The exports for C have one too. A crate between them for a match of two arms would be no plainer.)
pub fn number_of<T: Drop>(told: Result<T, Refusal>) -> u32 {
    match told {
        Ok(_) => 0,
        Err(refusal) => refusal.number(),
    }
}

pub fn yes_or_no(yes: bool) -> &'static str {
    if yes { "yes" } else { "no" }
}

// What a check tells: its number, and how much is used, which is nothing beside a refusal.
#[derive(Clone, Copy)]
pub struct Checked(pub Result<Used, Refusal>);

impl fmt::Display for Checked {
    fn fmt<W: fmt::Write>(&self, f: &mut fmt::Formatter<W>) -> fmt::Result {
        match self.0 {
            Ok(used) => write!(f, "0 {} {}", used.nodes, used.edges),
            Err(refusal) => write!(f, "{} 0 0", refusal.number()),
        }
    }
}
