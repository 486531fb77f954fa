// Conjunction and disjunction of two ids, the checks 1 to 5 being done. `and` and `or` of the source. The memo's entries have to be true of
// the table; beside an answer they are so again, for an operation that may follow.
ghost use Rattle.ids.specs.Id.{KnownTo};
ghost use Rattle.algebra.specs.Conjunction.{and as conjunction, or as disjunction};
ghost use Rattle.making.specs.Working.{table_in, SameSlices};
ghost use Rattle.walks.specs.Walking.{Holds};
ghost use Rattle.conjunction.specs.Joining.{Entry, Joins};

use super::pairs::conjoin;
use ids::NodeId;
use making::room::NoRoom;
use making::used::UsedTable;
use table::limits::VARIABLES;
use walks::finish::finish;

// Both: the pair walk from the two ids, and its end.
// It ends as `changed` of the crate changes does, by `finish`; what walks between takes other things, and a closure would be no plainer.
pub fn and(table: &mut UsedTable, memo: &mut [u64], x: NodeId, y: NodeId) -> Result<NodeId, NoRoom>
    requires { (Holds Entry table.old memo.old) × (KnownTo table.old.used.nodes x.0) × (KnownTo table.old.used.nodes y.0) }
    ensures joins { Joins table.old memo.old (conjunction (table_in table.old) x.0 y.0) result table.new memo.new }
    ensures same { SameSlices table.old table.new }
{
    let keep = table.used.nodes;
    // 65 for 64 variables: `ahead` stays above the variables ahead, and is not used up even at a terminal, which has none.
    let answer = conjoin(table, memo, x, y, VARIABLES + 1);
    finish(table, answer, keep)
}

// "`or` by negation."
pub fn or(table: &mut UsedTable, memo: &mut [u64], x: NodeId, y: NodeId) -> Result<NodeId, NoRoom>
    requires { (Holds Entry table.old memo.old) × (KnownTo table.old.used.nodes x.0) × (KnownTo table.old.used.nodes y.0) }
    ensures joins { Joins table.old memo.old (disjunction (table_in table.old) x.0 y.0) result table.new memo.new }
    ensures same { SameSlices table.old table.new }
{
    // De Morgan: to negate an id is free, so that disjunction needs no walk of its own.
    let id = and(table, memo, x.not(), y.not())?;
    Ok(id.not())
}
