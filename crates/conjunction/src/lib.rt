// Conjunction. Document 01, step 5; `and`, `apply` and `apply_ranges` of the source.

#![tactic(auto)]

pub mod joins;
pub mod opening;
pub mod pairs;
