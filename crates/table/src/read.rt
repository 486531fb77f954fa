// What an id says under a reading: one child a variable, from the id down to a terminal.
ghost use Rattle.ranges.specs.Line.{Place};
ghost use Rattle.std.specs.Prelude.{◌≡◌, ℕ, ◌+◌, ◌*◌, ◌<◌, ◌≤◌, length};
ghost use Rattle.std.specs.Prelude.{Decides};
ghost use Rattle.table.specs.Layout.{most_nodes, room};
ghost use Rattle.table.specs.Lending.{store_in};
ghost use Rattle.table.specs.Lent.{Rules, SoundRecords};
ghost use Rattle.table.specs.Held.{held};
ghost use Rattle.table.specs.Told.{Places};
ghost use Rattle.table.specs.Checking.{Chosen, Next, Legible, spots};
ghost use Rattle.diagram.specs.Table.{first_boolean, value, most_edges};

use super::lent::Table;
use super::limits::FIRST_BOOLEAN;
use super::words::{child_at, count_of, cut_position_at, first_of, var_of};
use ids::NodeId;
use ranges::places::{HIGHEST, LOWEST};

// The child at place p: of the first edge whose cut is above p, else of the last.
#[tactic(auto, using(crate::proofs::Scan::rest_stop, crate::proofs::Scan::rest_pass, crate::proofs::Scan::rest_end))]
pub fn choose(children: &[u32], cuts: &[i64], e: usize, count: usize, p: usize) -> usize
    requires { (1 ≤ count) × (count ≤ most_edges) × (e + count ≤ length children.now) × (length cuts.now ≡ length children.now) }
    ensures { Chosen children.now cuts.now e count p result }
{
    let end = count - 1;
    for j in 0..end {
        if p < cut_position_at(cuts, e + j) {
            return child_at(children, e + j);
        }
    }
    child_at(children, e + end)
}

// The child of node n under a reading.
#[tactic(auto, using(crate::proofs::Scan::next_range, crate::proofs::Scan::next_high, crate::proofs::Scan::next_low, crate::proofs::Scan::kid_earlier))]
pub fn next_of(table: &Table, places: &[i64], bools: usize, n: usize) -> usize
    requires { (n * 4 + 4 ≤ length table.now.nodes.now) × (length table.now.cuts.now ≡ length table.now.children.now) × (length places.now ≡ first_boolean) × (Rules (store_in table.now) n) }
    ensures { Next (store_in table.now) (spots places.now bools) n result }
{
    let v = var_of(table.nodes, n);
    let first = first_of(table.nodes, n);
    if v < FIRST_BOOLEAN {
        let count = count_of(table.nodes, n);
        // A place is read as a cut is. The lowest place is no cut, but the 0 that it gets for that is its very position.
        let p = cut_position_at(places, v);
        return choose(table.children, table.cuts, first, count, p);
    }
    let k = v - FIRST_BOOLEAN;
    let b = (bools >> k) % 2;
    if b == 1 {
        return child_at(table.children, first);
    }
    child_at(table.children, first + 1)
}

// Whether the id is true under the reading, in a table that is sound.
#[tactic(auto, using(crate::proofs::Scan::step, crate::proofs::Scan::value_terminal, crate::proofs::Once::records_once))]
pub fn reads(table: &Table, places: &[i64], bools: usize, id: NodeId) -> bool
    requires { (room table.now.nodes.now ≤ most_nodes) × (length table.now.cuts.now ≡ length table.now.children.now) × (length places.now ≡ first_boolean) × (Legible (store_in table.now) id.0) }
    ensures { (u : ℕ) → SoundRecords (store_in table.now) u → result ≡ value (held (store_in table.now) u) (spots places.now bools) id.0 }
{
    let mut at = id;
    while 2 <= at.0 {
        let c = next_of(table, places, bools, at.0 as usize / 2 - 1);
        // A child is stored as its plain parent sees it. So the sign goes down with the walk, and the terminal gets that of the whole path.
        at = NodeId(c as u32).negate(at);
    }
    at.is_true()
}

// Whether z is a place.
pub fn is_place(z: i64) -> bool
    ensures { Decides result (Place z) }
{
    (LOWEST..=HIGHEST).contains(&z)
}

// Whether all 32 are places.
pub fn are_places(places: &[i64]) -> bool
    requires { length places.now ≡ first_boolean }
    ensures { Decides result (Places places.now) }
{
    places.iter().all(|z| is_place(*z))
}
