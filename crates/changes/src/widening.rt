// Widening for one range variable. Document 01, step 9; `complexify_python_versions` of the source.
ghost use Rattle.std.specs.Prelude.{◌≤◌, ◌<◌, length};
ghost use Rattle.ids.specs.Id.{KnownTo};
ghost use Rattle.ranges.specs.Line.{top};
ghost use Rattle.diagram.specs.Table.{first_boolean};
ghost use Rattle.algebra.specs.Changing.{widen as widens};
ghost use Rattle.table.specs.Layout.{room, MemoLengths};
ghost use Rattle.making.specs.Working.{Sound, table_in, SameSlices};
ghost use Rattle.memo.specs.Recalling.{Cleared};
ghost use Rattle.walks.specs.Walking.{Works};
ghost use Rattle.changes.specs.Changed.{widening};
ghost use Rattle.changes.specs.Ways.{widen_changes};

use super::descent::{Change, changed};
use ids::NodeId;
use making::nodes::settle;
use making::room::NoRoom;
use making::used::UsedTable;
use ranges::bounds::{Bound, both_open};
use ranges::spans::Range;
use views::view_at;

// A range variable, and the range that it is widened to, which is not empty.
// Beside `Narrowing`, which may have an empty range: the two differ in their ghost fields and in all that they do.
#[derive(Clone, Copy)]
pub struct Widening {
    pub variable: usize,
    pub range: Range,
    ghost of_range: { variable < first_boolean },
    ghost on_line: { (range.first ≤ range.last) × (range.last ≤ top) },
}

impl Change for Widening {
    ghost at = { λ c. c.variable };

    ghost on = { λ c. widening c.variable c.range };

    fn variable(&self) -> usize {
        self.variable
    }

    // "Old answer and inside the bounds." An id that does not test the variable, and TRUE, get one node of it: FALSE, the id, FALSE, with the
    // parts that the bounds leave. No node of the range itself is made.
    fn here(&self, table: &mut UsedTable, id: NodeId) -> Result<NodeId, NoRoom> {
        // An id that does not test v is one edge, and FALSE is put around it: so v comes to stand above later variables, as it must.
        let words = table.read();
        let a = view_at(words.nodes, id, self.variable);
        // FALSE needs no case: its parts all agree, and merged they are one edge, of which no node is made.
        let es = clipping::widened(words.children, words.cuts, a, self.range)?;
        settle(table, self.variable, es)
    }

    ghost changes = { λ c. widen_changes c.of_range c.range c.on_line.0 c.on_line.1 };
}

// "Empty bounds give FALSE."
pub fn widen(
    table: &mut UsedTable,
    memo: &mut [u64],
    id: NodeId,
    v: usize,
    lower: Bound,
    upper: Bound,
) -> Result<NodeId, NoRoom>
    requires { (Sound table.old) × (MemoLengths (length memo.old) (room table.old.nodes.now)) × (Cleared memo.old) × (KnownTo table.old.used.nodes id.0) × (v < first_boolean) }
    ensures works { Works table.old memo.old (widens (table_in table.old) v lower upper id.0) result table.new memo.new }
    ensures same { SameSlices table.old table.new }
{
    if both_open(lower, upper) {
        return Ok(id);
    }
    let range = Range::from_bounds(lower, upper);
    if range.is_empty() {
        return Ok(NodeId::FALSE);
    }
    changed(table, memo, &Widening { variable: v, range }, id)
}
