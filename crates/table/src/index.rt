// The index: hashes, buckets, and the order of the nodes in a bucket. Document 01, "A sound table", bullets 4 and 6.
ghost use Rattle.std.specs.Prelude.{◌≡◌, ℕ, ◌+◌, ◌*◌, ◌/◌, ◌<◌, ◌≤◌, length};
ghost use Rattle.ranges.specs.Line.{Cut};
ghost use Rattle.chains.specs.Lexical.{less};
ghost use Rattle.diagram.specs.Table.{most_edges};
ghost use Rattle.table.specs.Layout.{most_nodes, cut_at};
ghost use Rattle.table.specs.Lending.{store_in};
ghost use Rattle.table.specs.Indexed.{mix, hash_to, hash_at, precedes};
ghost use Rattle.table.specs.Lent.{Rules};
ghost use Rattle.table.specs.Checking.{run_at};

use super::lent::Table;
use super::words::{child_at, count_of, cut_position_at, first_of, lower_at, var_of};

// One edge, its child and the position of its cut, mixed into a hash of 32 bits.
pub fn mixed(h: usize, c: usize, k: usize) -> usize
    requires { (h < 4294967296) × (c < 4294967296) × (k < 8589934593) }
    ensures { (result ≡ mix h c k) × (result < 4294967296) }
{
    // In 64 bits nothing wraps before the remainder: the factors are below 2^31 and 2^30, what they multiply below 2^32.
    (h * 1640531527 + c * 805459861 + k) % 4294967296
}

// Variable v mixed with the edges from e on.
// By number, here and below: an edge is read by the accessors of `words` alone (docs/DECISIONS.md, Tables 9), and no iterator goes by them.
#[tactic(auto, using(crate::proofs::Laws::hash_none, crate::proofs::Laws::hash_next))]
pub fn hash_of(children: &[u32], cuts: &[i64], v: usize, e: usize, count: usize) -> usize
    requires { (v < 4294967296) × (count ≤ most_edges) × (e + count ≤ length children.now) × (length cuts.now ≡ length children.now) }
    ensures { (result ≡ hash_to children.now cuts.now v e count) × (result < 4294967296) }
{
    let mut h = v;
    for j in 0..count {
        let c = child_at(children, e + j);
        let k = cut_position_at(cuts, e + j);
        h = mixed(h, c, k);
    }
    h
}

// A hash scaled to the room.
pub fn scaled(h: usize, rooms: usize) -> usize
    requires { (h < 4294967296) × (1 ≤ rooms) × (rooms ≤ most_nodes) }
    ensures { (result ≡ h * rooms / 4294967296) × (result < rooms) }
{
    // Not taken modulo the room: so the only division is by a power of two, and buckets fill evenly.
    h * rooms / 4294967296
}

// Whether the edges from a on come before those from b on: child and then cut of the first edge where they differ.
// Ordered by hand: the edges are words of lent slices, and no value of a type that could derive an order.
#[tactic(auto, using(crate::proofs::Ordered::child_differs, crate::proofs::Ordered::cut_lower, crate::proofs::Ordered::cut_higher, crate::proofs::Ordered::edge_same, crate::proofs::Ordered::none_left))]
pub fn edges_precede(children: &[u32], cuts: &[i64], a: usize, b: usize, count: usize) -> bool
    requires { (count ≤ most_edges) × (a + count ≤ length children.now) × (b + count ≤ length children.now) × (length cuts.now ≡ length children.now) × ((j : ℕ) → j < count → Cut (cut_at cuts.now (a + j))) × ((j : ℕ) → j < count → Cut (cut_at cuts.now (b + j))) }
    ensures { result ≡ less (run_at children.now cuts.now a 0 count) (run_at children.now cuts.now b 0 count) }
{
    for i in 0..count {
        let x = child_at(children, a + i);
        let y = child_at(children, b + i);
        if x != y {
            return x < y;
        }
        // Cuts as they are stored: all of them lie between the end places, so they stand as their positions do.
        if lower_at(cuts, a + i, b + i) {
            return true;
        }
        if lower_at(cuts, b + i, a + i) {
            return false;
        }
    }
    false
}

// Whether node m, of hash g, comes before node n, of hash h, in the order of the chains.
// By hand: tuples would read all words of both records first, and mostly the hashes alone are wanted.
#[tactic(auto, using(crate::proofs::Ordered::hash_differs, crate::proofs::Ordered::var_differs, crate::proofs::Ordered::count_differs, crate::proofs::Ordered::edges_left))]
pub fn comes_before(table: &Table, m: usize, g: usize, n: usize, h: usize) -> bool
    requires { (m * 4 + 4 ≤ length table.now.nodes.now) × (n * 4 + 4 ≤ length table.now.nodes.now) × (length table.now.cuts.now ≡ length table.now.children.now) × (Rules (store_in table.now) m) × (Rules (store_in table.now) n) × (g ≡ hash_at (store_in table.now) m) × (h ≡ hash_at (store_in table.now) n) }
    ensures { result ≡ precedes (store_in table.now) m n }
{
    // Hashes differ nearly always. So no edge is looked at, unless hash, variable and number of edges are all the same.
    if g != h {
        return g < h;
    }
    let v = var_of(table.nodes, m);
    let w = var_of(table.nodes, n);
    if v != w {
        return v < w;
    }
    let count = count_of(table.nodes, m);
    let other = count_of(table.nodes, n);
    if count != other {
        return count < other;
    }
    let a = first_of(table.nodes, m);
    let b = first_of(table.nodes, n);
    edges_precede(table.children, table.cuts, a, b, count)
}
