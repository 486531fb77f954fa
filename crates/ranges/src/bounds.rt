// Bounds of a range, and comparisons with a key.
ghost use Rattle.std.specs.Prelude.{◌≡◌, true};
ghost use Rattle.ranges.specs.Line.{position};
ghost use Rattle.ranges.specs.Ending.{first_place, last_place};
ghost use Rattle.ranges.specs.declared.bounds.Bound.TheVariants.{Open};

use super::places::{TOP, position_of_key};

// One end of a range: open, with a key, or up to a key but without it.
#[derive(Clone, Copy, PartialEq, Eq)]
pub enum Bound {
    Open,
    Includes(i32),
    Excludes(i32),
}

// A comparison with a key: = != < <= > >=.
#[derive(Clone, Copy, PartialEq, Eq)]
pub enum Comparison {
    Equal,
    NotEqual,
    LessThan,
    LessEqual,
    GreaterThan,
    GreaterEqual,
}

// The position of the first place inside a lower bound. Beyond an excluded key v the line goes on with place 2v+1, so that the open
// range from 1 to 2 is not empty.
pub fn first_of(lower: Bound) -> u64
    ensures { result ≡ position (first_place lower) }
{
    // The highest key has a place above it: to exclude it leaves that one, and the sum stays on the line.
    match lower {
        Bound::Open => 0,
        Bound::Includes(v) => position_of_key(v),
        Bound::Excludes(v) => position_of_key(v) + 1,
    }
}

// The position of the last place inside an upper bound.
// It mirrors `first_of`: one function for both ends would ask in each arm which end it is, and be no plainer.
pub fn last_of(upper: Bound) -> u64
    ensures { result ≡ position (last_place upper) }
{
    match upper {
        Bound::Open => TOP,
        Bound::Includes(v) => position_of_key(v),
        Bound::Excludes(v) => position_of_key(v) - 1,
    }
}

// "Both ends open".
pub fn both_open(lower: Bound, upper: Bound) -> bool
    ensures { result ≡ true → (lower ≡ Open) × (upper ≡ Open) }
{
    lower == Bound::Open && upper == Bound::Open
}
