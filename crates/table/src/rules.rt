// One record: what it must be by itself and against the records before it. Document 01, "A sound table", bullets 1, 2, 3 and 5.
ghost use Rattle.std.specs.Prelude.{◌≡◌, ◌+◌, ◌-◌, ◌*◌, ◌<◌, ◌≤◌, length};
ghost use Rattle.std.specs.Prelude.{Decides};
ghost use Rattle.diagram.specs.Table.{variables, most_edges};
ghost use Rattle.table.specs.Layout.{var_at, start};
ghost use Rattle.table.specs.Lending.{store_in};
ghost use Rattle.table.specs.Lent.{Stands, KidsStand, Blank};
ghost use Rattle.table.specs.Checking.{Climbs, Passes, Keeps, keeps, hash_in};

use super::index::{hash_of, mixed};
use super::lent::Table;
use super::limits::{FIRST_BOOLEAN, MOST_EDGES, VARIABLES};
use super::words::{
    blank_at, child_at, count_of, cut_position_at, first_of, one_for, spare_of, var_of,
};
use ranges::places::ZERO;

// The variable of what ref `at` stands for: that of node at - 1, and for the terminal a number that no variable has. There is no branch,
// since terminals come in no order that a processor could learn.
pub fn var_below(nodes: &[u32], at: usize) -> usize
    requires { (at * 4 ≤ length nodes.now) × (4 ≤ length nodes.now) }
    ensures { (at ≡ 0 → variables ≤ result) × (0 < at → result ≡ var_at nodes.now (at - 1)) }
{
    // For the terminal record 0 is read, which every room has, whatever it holds: with 64 added it is past all variables.
    let full = one_for(at);
    var_of(nodes, at - full) + (1 - full) * VARIABLES
}

// Whether child c is a terminal, or a node before n whose variable is later than v.
pub fn child_stands(nodes: &[u32], n: usize, v: usize, c: usize) -> bool
    requires { (n * 4 + 4 ≤ length nodes.now) × (v < variables) }
    ensures { Decides result (Stands nodes.now n v c) }
{
    let at = c / 2;
    // `at` is one more than the child's number, or 0 for a terminal. An earlier node's record was checked already, and may be read.
    at <= n && v < var_below(nodes, at)
}

// Whether each child may stand there and differs from the one before it.
pub fn kids_stand(
    nodes: &[u32],
    children: &[u32],
    n: usize,
    v: usize,
    e: usize,
    count: usize,
) -> bool
    requires { (n * 4 + 4 ≤ length nodes.now) × (v < variables) × (1 ≤ count) × (count ≤ most_edges) × (e + count ≤ length children.now) }
    ensures { Decides result (KidsStand nodes.now children.now n v e count) }
{
    let mut last = child_at(children, e);
    if !child_stands(nodes, n, v, last) {
        return false;
    }
    for j in 1..count {
        let c = child_at(children, e + j);
        if c == last || !child_stands(nodes, n, v, c) {
            return false;
        }
        last = c;
    }
    true
}

// Whether a boolean node has no cut.
pub fn cuts_blank(cuts: &[i64], e: usize) -> bool
    requires { e + 2 ≤ length cuts.now }
    ensures { Decides result (Blank cuts.now e) }
{
    blank_at(cuts, e) && blank_at(cuts, e + 1)
}

// One pass over the edges of a range node: their hash, if they keep the rules.
#[tactic(auto, using(crate::proofs::Laws::hash_none, crate::proofs::Laws::hash_next, crate::proofs::Laws::below_next))]
pub fn pass(table: &Table, n: usize, v: usize, e: usize, count: usize) -> Option<usize>
    requires { (n * 4 + 4 ≤ length table.now.nodes.now) × (v < variables) × (1 ≤ count) × (count ≤ most_edges) × (e + count ≤ length table.now.children.now) × (length table.now.cuts.now ≡ length table.now.children.now) }
    ensures { Passes (store_in table.now) n v e count (Climbs table.now.cuts.now e count) (keeps result) (hash_in result) }
{
    let end = count - 1;
    let mut last = child_at(table.children, e);
    if !child_stands(table.nodes, n, v, last) {
        return None;
    }
    let mut h = v;
    // A number that is no cut has position 0, so the test for rising cuts refuses it as well.
    let mut low = 0;
    for j in 0..end {
        let k = cut_position_at(table.cuts, e + j);
        if k <= low {
            return None;
        }
        let c = child_at(table.children, e + (j + 1));
        if c == last || !child_stands(table.nodes, n, v, c) {
            return None;
        }
        // Edge j is `last` up to this cut; `c` is the next edge's child. Hashed on the way, each word of an edge is read once.
        h = mixed(h, last, k);
        low = k;
        last = c;
    }
    // A word without a meaning is 0 all the same: so the rooms and the nodes of a table decide every word of it.
    if !blank_at(table.cuts, e + end) {
        return None;
    }
    Some(mixed(h, last, ZERO as usize))
}

// One pass over the edges of a boolean node, high and low.
pub fn pair(table: &Table, n: usize, v: usize, e: usize) -> Option<usize>
    requires { (n * 4 + 4 ≤ length table.now.nodes.now) × (v < variables) × (e + 2 ≤ length table.now.children.now) × (length table.now.cuts.now ≡ length table.now.children.now) }
    ensures { Passes (store_in table.now) n v e 2 (Blank table.now.cuts.now e) (keeps result) (hash_in result) }
{
    if !kids_stand(table.nodes, table.children, n, v, e, 2) || !cuts_blank(table.cuts, e) {
        return None;
    }
    Some(hash_of(table.children, table.cuts, v, e, 2))
}

// The hash of record n, after records with e edges, if it keeps the rules of a node.
#[tactic(auto, using(crate::proofs::CutPositions::cuts_from_climbs, crate::proofs::CutPositions::climbs_from_cuts))]
pub fn rules_hold(table: &Table, n: usize, e: usize) -> Option<usize>
    requires { (n * 4 + 4 ≤ length table.now.nodes.now) × (e ≡ start table.now.nodes.now n) × (e ≤ length table.now.children.now) × (length table.now.cuts.now ≡ length table.now.children.now) }
    ensures { Keeps (store_in table.now) n (keeps result) (hash_in result) }
{
    let v = var_of(table.nodes, n);
    let count = count_of(table.nodes, n);
    // No bullet of document 01 says this, but the record would be a node of no variable.
    if VARIABLES <= v {
        return None;
    }
    if count < 2 || MOST_EDGES < count {
        return None;
    }
    // The counts before this record decide the word; it is stored so that no reader has to add them up.
    if first_of(table.nodes, n) != e {
        return None;
    }
    if table.children.len() - e < count {
        return None;
    }
    if spare_of(table.nodes, n) != 0 {
        return None;
    }
    // A node with every child negated says the opposite: were both allowed, one condition would have two ids.
    if child_at(table.children, e) % 2 != 0 {
        return None;
    }
    if v < FIRST_BOOLEAN {
        return pass(table, n, v, e, count);
    }
    if count != 2 {
        return None;
    }
    pair(table, n, v, e)
}
