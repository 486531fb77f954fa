// Restriction, narrowing and widening. Document 01, steps 7 to 9; `restrict`, `simplify_python_versions` and `complexify_python_versions` of
// the source. Each goes down from the nodes of earlier variables to each child and changes the edges at its own variable.

#![tactic(auto)]

pub mod descent;
pub mod narrowing;
pub mod restriction;
pub mod turns;
pub mod widening;
