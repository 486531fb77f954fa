// The chains of the index: the search for a node in the chain of its bucket, and the words that put it there or take it out.
ghost use Rattle.std.specs.Prelude.{◌≡◌, cond, ◌&&◌, [], ◌∷◌, ℕ, ◌+◌, ◌*◌, ◌<◌, ◌≤◌, ltb, length};
ghost use Rattle.std.specs.Ordering.{ordering_index};
ghost use Rattle.ids.specs.Id.{sign, under};
ghost use Rattle.diagram.specs.Table.{is_range};
ghost use Rattle.chains.specs.Row.{from};
ghost use Rattle.table.specs.Layout.{most_nodes, count_at};
ghost use Rattle.table.specs.Lending.{store_in};
ghost use Rattle.table.specs.Lent.{Rules, SoundLent};
ghost use Rattle.table.specs.Told.{Allowed};
ghost use Rattle.making.specs.Building.{Building, hash_in, zero_cut};
ghost use Rattle.making.specs.Storing.{IndexPut};
ghost use Rattle.making.specs.Outcome.{Findable};
ghost use Rattle.making.specs.Seeking.{Ordered, edge_at, front_at, rest_at, front_of, rest_in, Seekable, Seeks, Finds};

use super::edges::{Edge, EdgeList, key_of};
use ids::NodeId;
use std::cmp::Ordering;
use table::index::scaled;
use table::lent::Table;
use table::limits::RECORD_WORDS;
use table::words::{child_at, count_of, cut_position_at, first_of, var_of, word};

// Where a node is: one more than its number, or 0. Where it is not, the nodes of its bucket that it goes between, each as one more than its
// number, or 0 where there is none.
// 0 for none, as the index has it: `splice` writes `before` and `behind` as they are, and `Seeks` and `Finds` speak of these numbers.
#[derive(Clone, Copy)]
pub struct Spot {
    pub at: usize,
    pub before: usize,
    pub behind: usize,
}

impl Spot {
    // The node is not there: it goes between these two.
    fn between(before: usize, behind: usize) -> Spot
        ensures { result ≡ record { at = 0; before = before; behind = behind } }
    {
        Spot {
            at: 0,
            before,
            behind,
        }
    }
}

// What a node is ordered by after its hash, up to its second edge, as it is stored. Of a node of two edges that is all.
// Numbers as they are stored, and no two edges: the definition `front_of` lists them in this order.
#[derive(Clone, Copy)]
pub struct Front {
    pub variable: usize,
    pub count: usize,
    pub child0: usize,
    pub cut0: usize,
    pub child1: usize,
    pub cut1: usize,
}

// How edge i stands to one of child c and cut k.
fn edge_compared(table: &Table, i: usize, c: usize, k: usize) -> Ordering
    requires { (i < length table.now.children.now) × (length table.now.cuts.now ≡ length table.now.children.now) }
    ensures { Ordered (edge_at table.now.children.now table.now.cuts.now i) (c ∷ (k ∷ [])) (ordering_index result) }
{
    match child_at(table.children, i).cmp(&c) {
        Ordering::Equal => cut_position_at(table.cuts, i).cmp(&k),
        by_child => by_child,
    }
}

// How node n stands to one with this front, where the hashes of both are the same.
fn front_compared(table: &Table, n: usize, f: Front) -> Ordering
    requires { (n * 4 + 4 ≤ length table.now.nodes.now) × (length table.now.cuts.now ≡ length table.now.children.now) × (Rules (store_in table.now) n) }
    ensures { Ordered (front_at (store_in table.now) n) (front_of f) (ordering_index result) }
{
    // Two words first, and edges only where these agree (what request K5 asks for).
    let by_variable = var_of(table.nodes, n).cmp(&f.variable);
    if by_variable.is_ne() {
        return by_variable;
    }
    let by_count = count_of(table.nodes, n).cmp(&f.count);
    if by_count.is_ne() {
        return by_count;
    }
    let e = first_of(table.nodes, n);
    let by_first = edge_compared(table, e, f.child0, f.cut0);
    if by_first.is_ne() {
        return by_first;
    }
    edge_compared(table, e + 1, f.child1, f.cut1)
}

// How the edges of node n from its third on stand to those of a node under construction, of which there are as many. Their children are seen
// under the sign of `lead`.
fn rest_compared<E: EdgeList>(table: &Table, n: usize, v: usize, lead: NodeId, es: &E) -> Ordering
    requires { (n * 4 + 4 ≤ length table.now.nodes.now) × (length table.now.cuts.now ≡ length table.now.children.now) × (Rules (store_in table.now) n) × (Building (E.edges es.now)) × (2 ≤ (E.edges es.now).len) × (count_at table.now.nodes.now n ≡ (E.edges es.now).len) }
    ensures { Ordered (rest_at (store_in table.now) n (E.edges es.now).len) (rest_in v (sign lead.0) (E.edges es.now)) (ordering_index result) }
{
    let count = es.count();
    let first = first_of(table.nodes, n);
    for j in 2..count {
        let e = es.edge(j);
        let c = e.child.negate(lead);
        // By `key_of`, since the last edge of a node under construction may have any cut, where the table has 0.
        let by_edge = edge_compared(table, first + j, c.0 as usize, key_of(v, j, count, e.cut));
        if by_edge.is_ne() {
            return by_edge;
        }
    }
    Ordering::Equal
}

// The front of a node of variable v with these two edges first.
pub fn front_of(v: usize, lead: NodeId, count: usize, a: Edge, b: Edge) -> Front
    ensures { front_of result ≡ (v ∷ (count ∷ (under (sign lead.0) a.child.0 ∷ (cond (is_range v && ltb (0 + 1) count) a.cut zero_cut ∷ (under (sign lead.0) b.child.0 ∷ (cond (is_range v && ltb (1 + 1) count) b.cut zero_cut ∷ [])))))) }
{
    Front {
        variable: v,
        count,
        child0: a.child.negate(lead).0 as usize,
        cut0: key_of(v, 0, count, a.cut),
        child1: b.child.negate(lead).0 as usize,
        cut1: key_of(v, 1, count, b.cut),
    }
}

// Where the word stands that leads on from the node of the word p, or to the first node of the bucket.
fn lead_from(rooms: usize, bucket: usize, p: usize) -> usize
    requires { (rooms ≤ most_nodes) × (bucket < rooms) × (p ≤ rooms) }
    ensures { (result ≡ from rooms bucket p) × (result < rooms * 2) }
{
    if 0 < p { rooms + (p - 1) } else { bucket }
}

// The search for a node of hash h with this front, in its bucket from behind the node of the word `from` on: to the first node that has the
// front, or to the node's place. A chain is in order, so a node behind it ends the search.
pub fn seek(table: &Table, h: usize, f: Front, from: usize) -> Spot
    requires { (Allowed (store_in table.now) table.now.index.now) × (h < 4294967296) × (Seekable (store_in table.now) table.now.index.now h f from) }
    ensures { Seeks (store_in table.now) table.now.index.now h f from result }
{
    let rooms = table.nodes.len() / RECORD_WORDS;
    let mut before = from;
    let mut at = word(table.index, lead_from(rooms, scaled(h, rooms), from));
    while 0 < at {
        // One word tells nearly every node apart, and the table itself is read only where the hashes are the same.
        let k = word(table.index, rooms * 3 + (at - 1));
        if h < k {
            return Spot::between(before, at);
        }
        if k == h {
            match front_compared(table, at - 1, f) {
                Ordering::Less => {}
                Ordering::Equal => {
                    return Spot {
                        at,
                        before,
                        behind: at,
                    };
                }
                Ordering::Greater => return Spot::between(before, at),
            }
        }
        before = at;
        at = word(table.index, rooms + (at - 1));
    }
    Spot::between(before, 0)
}

// "Find it": where the node of variable v with these edges is, their children seen under the sign of `lead`, or its place. Only nodes of its
// bucket can be it.
// Variable, lead, edges and hash go on as parameters, here and in `extend`: a struct of them would be taken apart in each function.
pub fn find<E: EdgeList>(table: &Table, v: usize, lead: NodeId, es: &E, h: usize) -> Spot
    requires { (Allowed (store_in table.now) table.now.index.now) × (Findable (store_in table.now) table.now.index.now v (E.edges es.now)) × (2 ≤ (E.edges es.now).len) × (h ≡ hash_in v (sign lead.0) (E.edges es.now) (E.edges es.now).len) }
    ensures { (u : ℕ) → SoundLent (store_in table.now) table.now.index.now u → Finds (store_in table.now) u v (sign lead.0) (E.edges es.now) result }
{
    let f = front_of(v, lead, es.count(), es.edge(0), es.edge(1));
    let mut s = seek(table, h, f, 0);
    // A second turn is for nodes of one hash whose first two edges agree as well. Of a node of two edges `rest_compared` has none left to
    // compare, and answers `Equal`.
    while 0 < s.at {
        match rest_compared(table, s.at - 1, v, lead, es) {
            Ordering::Less => s = seek(table, h, f, s.at),
            Ordering::Equal => return s,
            Ordering::Greater => return Spot::between(s.before, s.at),
        }
    }
    s
}

// Puts node n into the chain of its bucket, between the nodes of the words p and q, or takes it out: `on` leads on from p, `back` leads back
// from q, and `next`, `prev` and `hash` are the node's own words.
// The words to write are parameters: what they mean is for the laws of the two callers (docs/DECISIONS.md, Making 13).
pub fn splice(
    index: &mut [u32],
    rooms: usize,
    n: usize,
    bucket: usize,
    p: usize,
    q: usize,
    on: u32,
    back: u32,
    next: u32,
    prev: u32,
    hash: u32,
)
    requires { (length index.old ≡ rooms * 4) × (rooms ≤ most_nodes) × (bucket < rooms) × (n < rooms) × (p ≤ n) × (q ≤ n) }
    ensures { IndexPut rooms n bucket p q on back next prev hash index.old index.new }
{
    index[rooms * 3 + n] = hash;
    let at = lead_from(rooms, bucket, p);
    index[at] = on;
    index[rooms + n] = next;
    index[rooms * 2 + n] = prev;
    if 0 < q {
        index[rooms * 2 + (q - 1)] = back;
    }
}
