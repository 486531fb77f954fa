// The end of an operation.
ghost use Rattle.std.specs.Prelude.{◌≤◌};
ghost use Rattle.making.specs.Made.{made};
ghost use Rattle.making.specs.Working.{Sound, stored, SameSlices};
ghost use Rattle.walks.specs.Walking.{Finishes};

use ids::NodeId;
use making::room::NoRoom;
use making::undo::undo;
use making::used::UsedTable;

// Where there was no room, the nodes that were made on the way are taken back: "leaving nodes behind after "no room"" was a fault.
pub fn finish(
    table: &mut UsedTable,
    answer: Result<NodeId, NoRoom>,
    keep: usize,
) -> Result<NodeId, NoRoom>
    requires { (Sound table.old) × (keep ≤ table.old.used.nodes) }
    ensures finishes { Finishes keep (made answer table.old.used) (stored table.old) table.old.index.now (made result table.new.used) (stored table.new) table.new.index.now }
    ensures same { SameSlices table.old table.new }
{
    if answer.is_err() {
        undo(table, keep);
    }
    answer
}
