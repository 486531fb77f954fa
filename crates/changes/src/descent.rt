// The way down to the variable of a change: restriction, narrowing and widening call themselves on each child of an earlier variable, and make
// the node over what the children became. The source has a function for each, which differ in what they do at the variable.
ghost use Rattle.std.specs.Prelude.{◌≡◌, false, ℕ, ◌<◌, length};
ghost use Rattle.ids.specs.Id.{KnownTo};
ghost use Rattle.diagram.specs.Pieces.{Pieces};
ghost use Rattle.diagram.specs.Table.{variables};
ghost use Rattle.diagram.specs.Cofactor.{edges_of};
ghost use Rattle.algebra.specs.Making.{create_node};
ghost use Rattle.algebra.specs.Changing.{is_before};
ghost use Rattle.algebra.proofs.Descending.{Changes};
ghost use Rattle.table.specs.Layout.{room, MemoLengths};
ghost use Rattle.making.specs.Working.{Sound, table_in, SameSlices, Gives};
ghost use Rattle.views.specs.Seeing.{Asked};
ghost use Rattle.memo.specs.Recalling.{Cleared};
ghost use Rattle.walks.specs.Walking.{Holds, Steps, Works};
ghost use Rattle.changes.specs.Changed.{Changed, changed};

use super::turns::{cut_of, turn};
use ids::NodeId;
use making::edges::{Edge, Edges};
use making::nodes::create_node;
use making::room::NoRoom;
use making::used::UsedTable;
use memo::{recall, remember};
use table::limits::VARIABLES;
use views::{child, is_before, variable, view_of};
use walks::finish::finish;

// A change at one variable.
pub trait Change {
    ghost at: { Self → ℕ };

    // What it makes of the edges there.
    ghost on: { Self → Pieces ℕ → Pieces ℕ };

    // The variable.
    fn variable(&self) -> usize
        ensures is_at { result ≡ at self.now }
        ensures known { result < variables };

    // What becomes of an id that tests no earlier variable.
    fn here(&self, table: &mut UsedTable, id: NodeId) -> Result<NodeId, NoRoom>
        requires { (Sound table.old) × (KnownTo table.old.used.nodes id.0) × (is_before (table_in table.old) (at self.now) id.0 ≡ false) }
        ensures gives { Gives table.old (create_node (table_in table.old) (at self.now) (on self.now (edges_of (table_in table.old) (at self.now) id.0))) result table.new }
        ensures same { SameSlices table.old table.new };

    ghost changes: { (c : Self) → Changes (at c) (on c) };
}

// It calls itself on each child, "ranges left to right", booleans "low then high", and `ahead`, more than the variables that are still ahead,
// falls.
// The memo is a parameter beside the table, as in `conjoin`.
pub fn descend<C: Change>(
    table: &mut UsedTable,
    memo: &mut [u64],
    change: &C,
    id: NodeId,
    ahead: usize,
) -> Result<NodeId, NoRoom>
    requires { (Holds (Changed (C.at change.now) (C.on change.now)) table.old memo.old) × (Asked (table_in table.old) table.old.used.nodes ahead id.0) }
    ensures steps { Steps (Changed (C.at change.now) (C.on change.now)) table.old memo.old (changed (C.at change.now) (C.on change.now) (table_in table.old) id.0) result table.new memo.new }
    ensures same { SameSlices table.old table.new }
{
    let words = table.read();
    if !is_before(words.nodes, id, change.variable()) {
        return change.here(table, id);
    }
    // Only ids of earlier variables are looked up: the others need no walk. A change is of one id, and TRUE stands for the second.
    if let Some(to) = recall(memo, id, NodeId::TRUE) {
        return Ok(to);
    }
    let u = variable(words.nodes, id);
    let a = view_of(words.nodes, id, u);
    let mut out = Edges::new();
    for done in 0..a.count {
        let i = turn(u, a.count - done, a.count);
        // Under the id's sign: a change may give FALSE to an id and to its opposite, so one answer is not the other flipped.
        let words = table.read();
        let x = child(words.children, a, i);
        let k = cut_of(words.cuts, a, u, i);
        let to = descend(table, memo, change, x, ahead - 1)?;
        // Into the slot of its edge, whichever turn it had: there are never more edges than before, so merging waits for the node.
        out.list[i] = Edge::new(k, to);
    }
    out.len = a.count;
    // Children that differed may have become equal. They are merged here; the source does not, and gives equal conditions two ids.
    let to = create_node(table, u, out)?;
    remember(memo, id, NodeId::TRUE, to, u);
    Ok(to)
}

// A whole change, on an empty memo.
pub(super) fn changed<C: Change>(
    table: &mut UsedTable,
    memo: &mut [u64],
    change: &C,
    id: NodeId,
) -> Result<NodeId, NoRoom>
    requires { (Sound table.old) × (MemoLengths (length memo.old) (room table.old.nodes.now)) × (Cleared memo.old) × (KnownTo table.old.used.nodes id.0) }
    ensures works { Works table.old memo.old (changed (C.at change.now) (C.on change.now) (table_in table.old) id.0) result table.new memo.new }
    ensures same { SameSlices table.old table.new }
{
    let keep = table.used.nodes;
    let answer = descend(table, memo, change, id, VARIABLES + 1);
    finish(table, answer, keep)
}
