// The kernel's calls for C and Rust: `include/spanwhistle.h` declares what is exported here, and `rust/` wraps it. Nothing is decided here.
// Each function hands its slices and numbers to a call of `kernel` or `table` and writes what that answers through the caller's pointers.
// So its contract is that call's own, with the number returned and the words written in the place of its `Result`, and it has no condition on
// what is lent. What no contract here can say is left to C: that each pointer and length is right, and that no memory is lent twice.
// A function for each call, its slices, kinds and keys apart: the C interface.
// `numbers` is public for the benchmark alone (`bench/calls.txt`), which takes bounds as C gives them.

#![tactic(auto)]

mod condition_exports;
pub mod numbers;
mod operations;
mod tables;
