// The pair walk and the edge merge, which call each other; the number of variables still ahead falls.
ghost use Rattle.std.specs.Prelude.{false, not, ◌&&◌, ◌<◌, eqb};
ghost use Rattle.diagram.specs.Table.{first_boolean, is_range};
ghost use Rattle.algebra.specs.Conjunction.{conj};
ghost use Rattle.making.specs.Working.{table_in, SameSlices};
ghost use Rattle.views.specs.Seeing.{Asked, seen};
ghost use Rattle.walks.specs.Walking.{Holds, Steps, Sides, both};
ghost use Rattle.conjunction.specs.Joining.{Entry, pairs};

use super::opening::opened;
use ids::NodeId;
use making::edges::{Edge, Edges, slot_for};
use making::nodes::{create_pair, settle};
use making::room::NoRoom;
use making::used::UsedTable;
use memo::{in_order, recall, remember};
use table::limits::FIRST_BOOLEAN;
use views::{View, child, cut, first_variable, view_of};
use walks::steps::{advance, edge_of};

// Conjunction of two ids: what they alone decide, what the memo recalls, or the merge of their edges at the first variable of the two.
// `ahead` is more than the variables that are still ahead.
// The memo is no part of `UsedTable`: each is lent for itself, and a struct of both would add to every contract that the other stays.
#[cycle(conjoin)]
pub fn conjoin(
    table: &mut UsedTable,
    memo: &mut [u64],
    x: NodeId,
    y: NodeId,
    ahead: usize,
) -> Result<NodeId, NoRoom>
    requires { (Holds Entry table.old memo.old) × (Asked (table_in table.old) table.old.used.nodes ahead x.0) × (Asked (table_in table.old) table.old.used.nodes ahead y.0) }
    ensures steps { Steps Entry table.old memo.old (conj ahead (table_in table.old) x.0 y.0) result table.new memo.new }
    ensures same { SameSlices table.old table.new }
{
    if let Some(id) = opened(x, y) {
        return Ok(id);
    }
    // Only now the memo: neither is TRUE any more, and so a word that is no entry, whose first id is 0, cannot answer. Conjunction commutes.
    let (first, second) = in_order(x, y);
    if let Some(id) = recall(memo, first, second) {
        return Ok(id);
    }
    // Both are nodes: where one is a terminal the opening tests have answered.
    let words = table.read();
    let v = first_variable(words.nodes, x, y);
    let a = view_of(words.nodes, x, v);
    let b = view_of(words.nodes, y, v);
    let id = apply(table, memo, a, b, v, ahead - 1)?;
    // "No room" is not remembered: it is no answer, and it ends the whole operation.
    remember(memo, first, second, id, v);
    Ok(id)
}

// The node of variable v over both sides: "booleans high then low where both sides test the variable, low then high where only one does".
// Booleans are walked here and not in a function of their own: then the compiler finds that `conjoin`, of which it makes this a part, calls
// itself, and leaves the array of edges in the frame of `create_pair`, where there is one of it and not one for each variable.
#[cycle(conjoin)]
fn apply(
    table: &mut UsedTable,
    memo: &mut [u64],
    a: View,
    b: View,
    v: usize,
    ahead: usize,
) -> Result<NodeId, NoRoom>
    requires { (Holds Entry table.old memo.old) × (Sides (table_in table.old) table.old.used.edges table.old.children.now table.old.cuts.now v ahead a b) }
    ensures steps { Steps Entry table.old memo.old (both (not (is_range v) && not (eqb a.count b.count)) (pairs ahead) (table_in table.old) v (seen table.old.children.now table.old.cuts.now v a 0) (seen table.old.children.now table.old.cuts.now v b 0)) result table.new memo.new }
    ensures same { SameSlices table.old table.new }
{
    if v < FIRST_BOOLEAN {
        return apply_ranges(table, memo, a, b, v, ahead);
    }
    // At least one of the two tests v, so the counts differ where only one does: there the source's `map` goes low first, and where both
    // do its `apply` high first. New nodes get their numbers in this order, and ids are to be the source's.
    let back = a.count != b.count;
    let words = table.read();
    let x = child(words.children, a, edge_of(a.count, back));
    let y = child(words.children, b, edge_of(b.count, back));
    // What was made so far stays where there is no room, for now: `finish` takes all of it back at once.
    let one = conjoin(table, memo, x, y, ahead)?;
    // Nodes may have been added since, but used words stay: both views are still right.
    let words = table.read();
    let x = child(words.children, a, edge_of(a.count, !back));
    let y = child(words.children, b, edge_of(b.count, !back));
    let two = conjoin(table, memo, x, y, ahead)?;
    if back {
        create_pair(table, v, two, one)
    } else {
        create_pair(table, v, one, two)
    }
}

// "Ranges left to right": one conjunction for each overlap, and its edge merged with the last one where their children agree.
#[cycle(conjoin)]
fn apply_ranges(
    table: &mut UsedTable,
    memo: &mut [u64],
    a: View,
    b: View,
    v: usize,
    ahead: usize,
) -> Result<NodeId, NoRoom>
    requires { (Holds Entry table.old memo.old) × (Sides (table_in table.old) table.old.used.edges table.old.children.now table.old.cuts.now v ahead a b) × (v < first_boolean) }
    ensures steps { Steps Entry table.old memo.old (both false (pairs ahead) (table_in table.old) v (seen table.old.children.now table.old.cuts.now v a 0) (seen table.old.children.now table.old.cuts.now v b 0)) result table.new memo.new }
    ensures same { SameSlices table.old table.new }
{
    let mut out = Edges::new();
    let mut last = NodeId::FALSE;
    let mut i = 0;
    let mut j = 0;
    let mut more = true;
    // Two cursors, and `advance` moves one or both: there is no one range to go over.
    while more {
        let words = table.read();
        let x = child(words.children, a, i);
        let y = child(words.children, b, j);
        let k = cut(words.cuts, a, i);
        let l = cut(words.cuts, b, j);
        let id = conjoin(table, memo, x, y, ahead)?;
        // Merged as they come: there may be 127 overlaps, and only merged edges have to fit into 64.
        let s = advance(slot_for(out.len, last, id), k, l)?;
        out.list[s.slot] = Edge::new(s.cut, id);
        out.len = s.slot + 1;
        last = id;
        i += s.left;
        j += s.right;
        more = s.more;
    }
    settle(table, v, out)
}
