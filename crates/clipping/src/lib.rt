// The edges that narrowing and widening put at the chosen range variable. Document 01, steps 8 and 9: the edge part of
// `simplify_python_versions` and `complexify_python_versions` of the source.

#![tactic(auto)]

ghost use Rattle.std.specs.Prelude.{◌≡◌, List, ℕ, ◌≤◌, ◌<◌, length};
ghost use Rattle.ranges.specs.Line.{top};
ghost use Rattle.diagram.specs.Shape.{Rising};
ghost use Rattle.diagram.specs.Table.{first_boolean, top_of};
ghost use Rattle.algebra.specs.Overlay.{above};
ghost use Rattle.algebra.specs.Changing.{narrowed as narrowed_pieces, widened as widened_pieces};
ghost use Rattle.making.specs.Building.{Building, pieces_of};
ghost use Rattle.views.specs.Seeing.{Inside, seen};
ghost use Rattle.clipping.specs.Clipping.{Clips, Gathered, Closes, clip};

use ids::NodeId;
use making::edges::{Edge, Edges, slot_for};
use making::room::NoRoom;
use ranges::spans::Range;
use table::limits::MOST_EDGES;
use views::{END, View, child, cut};

// The first edge of a view that reaches past a position.
fn first_past(cuts: &[i64], a: View, lo: usize) -> usize
    requires { (Inside (length cuts.now) a) × (lo ≤ top) }
    ensures { (result < a.count) × ((children : List ℕ) (v : ℕ) → v < first_boolean → above lo (seen children cuts.now v a 0) ≡ seen children cuts.now v a result) }
{
    let last = a.count - 1;
    for i in 0..last {
        if lo < cut(cuts, a, i) {
            return i;
        }
    }
    // The last edge ends at END, past each position.
    last
}

// "The answer at a place is the old answer at the nearest place inside the bounds": the first and the last edge inside go on to the ends.
pub fn narrowed(children: &[u32], cuts: &[i64], a: View, range: Range) -> Edges
    requires { (Inside (length children.now) a) × (length cuts.now ≡ length children.now) × (range.first ≤ top) × (range.last ≤ top) }
    ensures { (Building result) × ((v : ℕ) → v < first_boolean → pieces_of result ≡ narrowed_pieces range.first range.last (seen children.now cuts.now v a 0)) }
{
    let low = range.first as usize;
    let high = range.last as usize;
    let mut out = Edges::new();
    // An edge has no left end of its own: the first that is kept begins at the lowest place, as the nearest place inside wants it.
    for i in first_past(cuts, a, low)..a.count {
        let k = cut(cuts, a, i);
        // Nothing is merged: edges that were neighbours still are, and they differ.
        out.list[out.len] = Edge::new(k, child(children, a, i));
        out.len += 1;
        // The edge that reaches past the bounds is the last, and a last edge goes on to the right end whatever its cut.
        if high < k {
            break;
        }
    }
    out
}

// The edge above the bounds, which end at the cut `end`: to FALSE, where they do not go on to the top.
fn closed(mut edges: Edges, last: NodeId, end: usize) -> Result<Edges, NoRoom>
    requires { Gathered edges edges.len last.0 }
    ensures { Closes edges edges.len end (clip result) }
{
    if END <= end {
        return Ok(edges);
    }
    let n = slot_for(edges.len, last, NodeId::FALSE);
    if MOST_EDGES <= n {
        return Err(NoRoom);
    }
    edges.list[n] = Edge::new(END, NodeId::FALSE);
    edges.len = n + 1;
    Ok(edges)
}

// "Old answer and inside the bounds": FALSE below them, the old edges in them, FALSE above them, neighbours with equal children merged.
// Not inlined, so that its arrays are off the stack again when a node is made of its answer.
#[inline(never)]
pub fn widened(children: &[u32], cuts: &[i64], a: View, range: Range) -> Result<Edges, NoRoom>
    requires { (Inside (length children.now) a) × (length cuts.now ≡ length children.now) × (range.first ≤ range.last) × (range.last ≤ top) }
    ensures { (v : ℕ) → v < first_boolean → Rising 0 (top_of v) (seen children.now cuts.now v a 0) → Clips (widened_pieces range.first range.last (top_of v) (seen children.now cuts.now v a 0)) (clip result) }
{
    let first = range.first as usize;
    let end = range.last as usize + 1;
    let mut out = Edges::new();
    // FALSE itself, where the source negates it by the parent: here the children are seen under the id's sign. If nothing lies below the
    // bounds, there is no edge yet and the first edge inside takes the slot.
    out.list[0] = Edge::new(first, NodeId::FALSE);
    out.len = first.min(1);
    let mut last = NodeId::FALSE;
    for i in first_past(cuts, a, first)..a.count {
        let c = child(children, a, i);
        let k = cut(cuts, a, i);
        let n = slot_for(out.len, last, c);
        if MOST_EDGES <= n {
            return Err(NoRoom);
        }
        out.list[n] = Edge::new(k.min(end), c);
        out.len = n + 1;
        last = c;
        if end <= k {
            break;
        }
    }
    closed(out, last, end)
}
