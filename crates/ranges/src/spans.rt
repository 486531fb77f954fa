// Ranges of positions: made from bounds, intersected, complemented, compared.
ghost use Rattle.std.specs.Prelude.{◌≡◌, false};
ghost use Rattle.ranges.specs.Holding.{Both, Emptiness, Outside, neighbours};
ghost use Rattle.ranges.specs.Ending.{Bounded, Compares, Before, After};

use super::bounds::{Bound, Comparison, first_of, last_of};
use super::places::TOP;

// The positions from the first to the last, both included; none where the first is above the last.
// No ghost field says that both are on the line: `intersection` and `complement` promise their answer for any two positions.
#[derive(Clone, Copy, PartialEq, Eq)]
pub struct Range {
    pub first: u64,
    pub last: u64,
}

// Two ranges, one to the left of the other; each may be empty.
#[derive(Clone, Copy, PartialEq, Eq)]
pub struct Parts {
    pub left: Range,
    pub right: Range,
}

// Where a comparison holds: inside a range, or outside it.
// A flag and no enum: in either case there is a range, and the definition `Compares` speaks of both fields.
#[derive(Clone, Copy, PartialEq, Eq)]
pub struct Compared {
    pub range: Range,
    pub outside: bool,
}

impl Range {
    // No position.
    pub const EMPTY: Range = Range { first: 1, last: 0 };

    // Every position.
    pub const FULL: Range = Range {
        first: 0,
        last: TOP,
    };

    // Two parameters: a struct of both bounds would say no more than `Range`, which is made of them here.
    pub fn from_bounds(lower: Bound, upper: Bound) -> Range
        ensures { Bounded lower upper result }
    {
        Range {
            first: first_of(lower),
            last: last_of(upper),
        }
    }

    pub fn is_empty(self) -> bool
        ensures { Emptiness self result }
    {
        self.last < self.first
    }

    pub fn intersection(self, other: Range) -> Range
        ensures { Both self other result }
    {
        // Ranges that do not meet need no case: the ends then cross, and crossed ends are an empty range.
        Range {
            first: self.first.max(other.first),
            last: self.last.min(other.last),
        }
    }

    // What the range leaves of the line: the part below it and the part above it.
    pub fn complement(self) -> Parts
        ensures { Outside self result }
    {
        if self.is_empty() {
            return Parts {
                left: Range::FULL,
                right: Range::EMPTY,
            };
        }
        Parts {
            left: before(self.first),
            right: after(self.last),
        }
    }

    // Whether another range goes on where this one ends.
    pub fn can_conjoin(self, next: Range) -> bool
        ensures { result ≡ neighbours self next }
    {
        // The ends of an empty range may fit, but it goes on nowhere. And nothing ends before position 0: 1 cannot be taken from it.
        !self.is_empty() && !next.is_empty() && 0 < next.first && next.first - 1 == self.last
    }
}

// The positions below one.
fn before(first: u64) -> Range
    ensures { Before first result }
{
    if first == 0 {
        return Range::EMPTY;
    }
    Range {
        first: 0,
        last: first - 1,
    }
}

// The positions of the line above one.
// It mirrors `before`, at the other end of the line: one function for both would be no plainer.
fn after(last: u64) -> Range
    ensures { After last result }
{
    if TOP <= last {
        return Range::EMPTY;
    }
    Range {
        first: last + 1,
        last: TOP,
    }
}

// A comparison with a key as a range: it holds inside the range, or, for !=, outside it.
pub fn from_comparison(op: Comparison, key: i32) -> Compared
    ensures { Compares op key result }
{
    match op {
        Comparison::Equal => inside(Bound::Includes(key), Bound::Includes(key)),
        // One range, meant outside: around a key there are two parts, and to negate an id is free.
        Comparison::NotEqual => Compared {
            range: Range::from_bounds(Bound::Includes(key), Bound::Includes(key)),
            outside: true,
        },
        Comparison::LessThan => inside(Bound::Open, Bound::Excludes(key)),
        Comparison::LessEqual => inside(Bound::Open, Bound::Includes(key)),
        Comparison::GreaterThan => inside(Bound::Excludes(key), Bound::Open),
        Comparison::GreaterEqual => inside(Bound::Includes(key), Bound::Open),
    }
}

fn inside(lower: Bound, upper: Bound) -> Compared
    ensures { (Bounded lower upper result.range) × (result.outside ≡ false) }
{
    Compared {
        range: Range::from_bounds(lower, upper),
        outside: false,
    }
}
