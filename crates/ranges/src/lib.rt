// Places, bounds and ranges: what the source takes from its range library (`version_ranges`), over whole-number keys.

#![tactic(auto)]

pub mod bounds;
pub mod places;
pub mod spans;
