// The public calls, in the modules that end in `_calls`. None has a condition on its caller: each decides its number, its answer and every
// word of every slice, for all contents of all slices. Their outcomes are defined in specs/ and their promises are proved in proofs/.

#![tactic(auto)]

mod admission;
pub mod changes_calls;
pub mod conditions_calls;
pub mod disjointness_calls;
pub mod joins_calls;
