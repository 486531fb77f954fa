// A node under construction: an array by value of 64 edge structs with a count.
ghost use Rattle.std.specs.Prelude.{◌≡◌, cond, ◌&&◌, ℕ, ◌+◌, ◌-◌, ◌<◌, ltb, length, get_or};
ghost use Rattle.ids.specs.Id.{sign};
ghost use Rattle.diagram.specs.Table.{variables, is_range, most_edges};
ghost use Rattle.algebra.specs.Overlay.{merge};
ghost use Rattle.making.specs.Building.{Building, none, cut_in, pieces_of, zero_cut, hash_in, two_of};
ghost use Rattle.making.specs.declared.edges.Edges as built;
ghost use Rattle.making.specs.Storing.{stored_cut};

use ids::NodeId;
use ranges::places::{ZERO, place_at};
use table::index::mixed;
use table::limits::FIRST_BOOLEAN;

// An edge goes up to its cut, the first position on its right. `spare` is 0 and nothing looks at it: it fills the struct to 16 bytes, and
// an array without holes is set and copied as one block.
#[derive(Clone, Copy)]
pub struct Edge {
    pub cut: usize,
    pub child: NodeId,
    pub spare: u32,
}

impl Edge {
    pub fn new(cut: usize, child: NodeId) -> Edge
        ensures { result ≡ record { cut = cut; child = child; spare = 0 } }
    {
        Edge {
            cut,
            child,
            spare: 0,
        }
    }
}

// Edges of a node under construction, however they are held.
pub trait EdgeList {
    ghost edges: { Self → built.Edges };

    fn count(&self) -> usize
        ensures { result ≡ (edges self.now).len };

    fn edge(&self, j: usize) -> Edge
        requires { (Building (edges self.now)) × (j < (edges self.now).len) }
        ensures { result ≡ get_or (edges self.now).list j none };
}

// The first `len` of 64.
// An array with its length, since no call allocates. `Building` is no ghost field: while edges are gathered there may be none.
#[derive(Clone, Copy)]
pub struct Edges {
    pub list: [Edge; 64],
    pub len: usize,
}

impl Edges {
    pub fn new() -> Edges
        ensures { (length result.list ≡ most_edges) × (result.len ≡ 0) }
    {
        Edges {
            list: [Edge::new(0, NodeId(0)); 64],
            len: 0,
        }
    }
}

impl EdgeList for Edges {
    ghost edges = { λ es. es };

    fn count(&self) -> usize {
        self.len
    }

    fn edge(&self, j: usize) -> Edge {
        self.list[j]
    }
}

// Two alone, as most nodes have them: no array is made for these.
#[derive(Clone, Copy)]
pub struct TwoEdges {
    pub first: Edge,
    pub second: Edge,
}

impl EdgeList for TwoEdges {
    ghost edges = { λ es. two_of es.first es.second };

    fn count(&self) -> usize {
        2
    }

    #[tactic(auto, using(crate::proofs::Two::slot_first, crate::proofs::Two::slot_other))]
    fn edge(&self, j: usize) -> Edge {
        if j == 0 { self.first } else { self.second }
    }
}

// "Neighbouring edges with equal children are merged": an edge to the child of the last one goes into its slot, else into the next.
pub fn slot_for(len: usize, last: NodeId, id: NodeId) -> usize
    ensures { (0 < len → last.0 ≡ id.0 → result ≡ len - 1) × ((0 < len → last.0 ≡ id.0 → ⊥) → result ≡ len) }
{
    // Before the first edge `last` is only a filler, and nothing may be merged with it.
    if len == 0 {
        return 0;
    }
    if last == id {
        // Its slot is taken again: with the cut of the new edge the last one reaches as far as both.
        return len - 1;
    }
    len
}

// "Neighbouring edges with equal children are merged": each edge goes into the slot of the last one where their children agree, else into
// the next. In place: the slots below `len` are merged already, those from j on are as they were.
pub fn merge_neighbours(es: &mut Edges)
    requires { Building es.old }
    ensures { (Building es.new) × (pieces_of es.new ≡ merge (pieces_of es.old)) }
{
    let mut last = NodeId::FALSE;
    let mut len = 0;
    for j in 0..es.len {
        let e = es.list[j];
        let n = slot_for(len, last, e.child);
        es.list[n] = Edge::new(e.cut, e.child);
        last = e.child;
        len = n + 1;
    }
    es.len = len;
}

// Whether edge j of `count` has a cut in the table: the last edge has none, and no edge of a boolean node.
fn has_cut(v: usize, j: usize, count: usize) -> bool
    requires { j < most_edges }
    ensures { result ≡ (is_range v && ltb (j + 1) count) }
{
    v < FIRST_BOOLEAN && j + 1 < count
}

// The position of the stored cut of edge j, as the index hashes it: its own, or that of the 0 which stands where there is none.
pub fn key_of(v: usize, j: usize, count: usize, cut: usize) -> usize
    requires { j < most_edges }
    ensures { result ≡ cond (is_range v && ltb (j + 1) count) cut zero_cut }
{
    if has_cut(v, j, count) {
        cut
    } else {
        ZERO as usize
    }
}

// The stored cut of edge j.
pub fn stored_cut(v: usize, j: usize, count: usize, cut: usize) -> i64
    requires { (j < most_edges) × (j + 1 < count → cut < 8589934593) }
    ensures { result ≡ stored_cut v j count cut }
{
    if has_cut(v, j, count) {
        place_at(cut as u64)
    } else {
        0
    }
}

// The hash of a node under construction, its children seen under the sign of `lead`.
pub fn hash_edges<E: EdgeList>(v: usize, lead: NodeId, es: &E) -> usize
    requires { (Building (E.edges es.now)) × (v < variables) × ((j : ℕ) → j + 1 < (E.edges es.now).len → cut_in (E.edges es.now) j < 8589934593) }
    ensures { (result ≡ hash_in v (sign lead.0) (E.edges es.now) (E.edges es.now).len) × (result < 4294967296) }
{
    let count = es.count();
    let mut h = v;
    for j in 0..count {
        let e = es.edge(j);
        // As it would be stored, so that a node and its flipped twin have one hash, and are looked for in one bucket.
        let c = e.child.negate(lead);
        h = mixed(h, c.0 as usize, key_of(v, j, count, e.cut));
    }
    h
}
