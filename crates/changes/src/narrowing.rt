// Narrowing for one range variable. Document 01, step 8; `simplify_python_versions` of the source.
ghost use Rattle.std.specs.Prelude.{◌≤◌, ◌<◌, length};
ghost use Rattle.ids.specs.Id.{KnownTo};
ghost use Rattle.ranges.specs.Line.{top};
ghost use Rattle.diagram.specs.Table.{first_boolean};
ghost use Rattle.algebra.specs.Changing.{narrow as narrows};
ghost use Rattle.table.specs.Layout.{room, MemoLengths};
ghost use Rattle.making.specs.Working.{Sound, table_in, SameSlices};
ghost use Rattle.memo.specs.Recalling.{Cleared};
ghost use Rattle.walks.specs.Walking.{Works};
ghost use Rattle.changes.specs.Changed.{narrowing};
ghost use Rattle.changes.specs.Ways.{narrow_changes};

use super::descent::{Change, changed};
use ids::NodeId;
use making::nodes::settle;
use making::room::NoRoom;
use making::used::UsedTable;
use ranges::bounds::{Bound, both_open};
use ranges::spans::Range;
use views::view_at;

// A range variable, and the range that it is narrowed to, which may be empty.
#[derive(Clone, Copy)]
pub struct Narrowing {
    pub variable: usize,
    pub range: Range,
    ghost of_range: { variable < first_boolean },
    ghost on_line: { (range.first ≤ top) × (range.last ≤ top) },
}

impl Change for Narrowing {
    ghost at = { λ c. c.variable };

    ghost on = { λ c. narrowing c.range };

    fn variable(&self) -> usize {
        self.variable
    }

    // "The answer at a place is the old answer at the nearest place inside the bounds"; with empty bounds FALSE, for both polarities.
    // Terminals and later variables stay.
    fn here(&self, table: &mut UsedTable, id: NodeId) -> Result<NodeId, NoRoom> {
        let words = table.read();
        let a = view_at(words.nodes, id, self.variable);
        // A terminal, or a node of a later variable: the old answer does not change with v, whatever the bounds.
        if a.count == 1 {
            return Ok(id);
        }
        // There is no nearest place: FALSE, whatever the sign of the id. Until request K3 only here, where the old answer changes with v.
        if self.range.is_empty() {
            return Ok(NodeId::FALSE);
        }
        let es = clipping::narrowed(words.children, words.cuts, a, self.range);
        settle(table, self.variable, es)
    }

    ghost changes = { λ c. narrow_changes c.of_range c.range c.on_line.1 };
}

// "Terminals, or both ends open: the id unchanged."
pub fn narrow(
    table: &mut UsedTable,
    memo: &mut [u64],
    id: NodeId,
    v: usize,
    lower: Bound,
    upper: Bound,
) -> Result<NodeId, NoRoom>
    requires { (Sound table.old) × (MemoLengths (length memo.old) (room table.old.nodes.now)) × (Cleared memo.old) × (KnownTo table.old.used.nodes id.0) × (v < first_boolean) }
    ensures works { Works table.old memo.old (narrows (table_in table.old) v lower upper id.0) result table.new memo.new }
    ensures same { SameSlices table.old table.new }
{
    // Open ends first: the walk would change nothing, and go through the whole diagram to find it so.
    if both_open(lower, upper) {
        return Ok(id);
    }
    let range = Range::from_bounds(lower, upper);
    changed(table, memo, &Narrowing { variable: v, range }, id)
}
