// What operations walk down a lent table with: the end of an operation, the edge of a boolean variable, and the step of the edge merge of
// two.

#![tactic(auto)]

pub mod finish;
pub mod steps;
