// Restriction of one boolean to a value. Document 01, step 7; `restrict` of the source, whose closure is the variable and the value.
ghost use Rattle.std.specs.Prelude.{◌≤◌, ◌<◌, length};
ghost use Rattle.ids.specs.Id.{KnownTo};
ghost use Rattle.diagram.specs.Table.{first_boolean, variables};
ghost use Rattle.algebra.specs.Changing.{restrict as restriction};
ghost use Rattle.table.specs.Layout.{room, MemoLengths};
ghost use Rattle.making.specs.Working.{Sound, table_in, SameSlices};
ghost use Rattle.memo.specs.Recalling.{Cleared};
ghost use Rattle.walks.specs.Walking.{Works};
ghost use Rattle.changes.specs.Changed.{restricting};
ghost use Rattle.changes.specs.Ways.{restricts};

use super::descent::{Change, changed};
use ids::NodeId;
use making::room::NoRoom;
use making::used::UsedTable;
use table::limits::FIRST_BOOLEAN;
use views::{child, view_at};
use walks::steps::edge_of;

// A boolean variable, and the value that it gets.
#[derive(Clone, Copy)]
pub struct Restriction {
    pub variable: usize,
    pub value: bool,
    ghost boolean: { (first_boolean ≤ variable) × (variable < variables) },
}

impl Change for Restriction {
    ghost at = { λ c. c.variable };

    ghost on = { λ c. restricting c.value };

    fn variable(&self) -> usize {
        self.variable
    }

    // The child of the value stands for the id, and no node is made. Past the variable the id stands for itself.
    fn here(&self, table: &mut UsedTable, id: NodeId) -> Result<NodeId, NoRoom> {
        let words = table.read();
        let here = view_at(words.nodes, id, self.variable);
        Ok(child(words.children, here, edge_of(here.count, !self.value)))
    }

    ghost changes = { λ c. restricts c.variable c.value };
}

// "Naming a range variable returns the id unchanged, as in the source."
pub fn restrict(
    table: &mut UsedTable,
    memo: &mut [u64],
    id: NodeId,
    v: usize,
    value: bool,
) -> Result<NodeId, NoRoom>
    requires { (Sound table.old) × (MemoLengths (length memo.old) (room table.old.nodes.now)) × (Cleared memo.old) × (KnownTo table.old.used.nodes id.0) × (v < variables) }
    ensures works { Works table.old memo.old (restriction (table_in table.old) v value id.0) result table.new memo.new }
    ensures same { SameSlices table.old table.new }
{
    if v < FIRST_BOOLEAN {
        return Ok(id);
    }
    changed(table, memo, &Restriction { variable: v, value }, id)
}
