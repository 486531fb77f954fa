// Lent tables: their words, the check whether they are sound, and the calls that make no node.

#![tactic(auto)]

pub mod calls;
pub mod index;
pub mod lent;
pub mod limits;
pub mod read;
pub mod refusal;
pub mod rules;
pub mod sound;
pub mod words;
