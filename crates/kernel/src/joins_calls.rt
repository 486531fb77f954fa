// Conjunction and disjunction. Document 01, step 5. Refusals 1, 2, 3 and 6. "The memo is scratch: zeroed at entry, never believed", and all zero
// at the end.
ghost use Rattle.kernel.specs.Calls.{both_of, either_of};
ghost use Rattle.kernel.specs.Answering.{Answers};
ghost use Rattle.table.specs.Lending.{SameSlices};

use super::admission::admit_ids;
use conjunction::joins;
use ids::NodeId;
use making::used::UsedTable;
use memo::clear;
use table::lent::TableMut;
use table::refusal::Refusal;

// Both.
pub fn and(table: &mut TableMut, memo: &mut [u64], x: NodeId, y: NodeId) -> Result<NodeId, Refusal>
    ensures comes { Answers (both_of x.0 y.0) table.old memo.old result table.new memo.new }
    ensures same { SameSlices table.old table.new }
{
    let used = admit_ids(&table.read(), memo.len(), x, y, true)?;
    // Written out in each call: no clause can say what four slices become that a function lends on in a struct, and a closure is no plainer.
    let mut used_table = UsedTable {
        nodes: table.nodes,
        children: table.children,
        cuts: table.cuts,
        index: table.index,
        used,
    };
    // Cleared at both ends: what was lent is never believed, and what was worked out is left to nobody.
    memo.fill(0);
    let answer = joins::and(&mut used_table, memo, x, y);
    clear(memo);
    Ok(answer?)
}

// One or both.
pub fn or(table: &mut TableMut, memo: &mut [u64], x: NodeId, y: NodeId) -> Result<NodeId, Refusal>
    ensures comes { Answers (either_of x.0 y.0) table.old memo.old result table.new memo.new }
    ensures same { SameSlices table.old table.new }
{
    let used = admit_ids(&table.read(), memo.len(), x, y, true)?;
    let mut used_table = UsedTable {
        nodes: table.nodes,
        children: table.children,
        cuts: table.cuts,
        index: table.index,
        used,
    };
    memo.fill(0);
    let answer = joins::or(&mut used_table, memo, x, y);
    clear(memo);
    Ok(answer?)
}
