// The turns of the children of one node.
ghost use Rattle.std.specs.Prelude.{◌≡◌, cond, ◌+◌, ◌-◌, ◌≤◌, ◌<◌, length};
ghost use Rattle.diagram.specs.Table.{is_range};
ghost use Rattle.views.specs.Seeing.{Inside, cut_seen};

use table::limits::FIRST_BOOLEAN;
use views::{View, cut};

// The edge whose turn it is where `left` of them are left: "ranges left to right", booleans "low then high".
pub fn turn(u: usize, left: usize, count: usize) -> usize
    requires { (1 ≤ left) × (left ≤ count) }
    ensures { result ≡ cond (is_range u) (count - left) (left - 1) }
{
    if u < FIRST_BOOLEAN {
        return count - left;
    }
    // High is edge 0 and low is edge 1: counted down, low comes first, as in the source's `map`, and new nodes get their numbers so.
    left - 1
}

// The cut of edge i of a node of variable u: of a boolean one, position 1.
pub fn cut_of(cuts: &[i64], a: View, u: usize, i: usize) -> usize
    requires { (Inside (length cuts.now) a) × (i < a.count) }
    ensures { i + 1 < a.count → result ≡ cut_seen cuts.now u a i }
{
    if u < FIRST_BOOLEAN {
        cut(cuts, a, i)
    } else {
        1
    }
}
