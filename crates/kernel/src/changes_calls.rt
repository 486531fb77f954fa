// Restriction, narrowing and widening. Document 01, steps 7 to 9. Refusals 1, 2, 3, 4 and 6; "narrowing and widening ask a range variable",
// and restriction takes any of the 64.
ghost use Rattle.kernel.specs.Calls.{restriction_of, narrowing_of, widening_of};
ghost use Rattle.kernel.specs.Answering.{Answers};
ghost use Rattle.table.specs.Lending.{SameSlices};

use super::admission::{admit_ids, is_range, is_variable};
use changes::{narrowing, restriction, widening};
use ids::NodeId;
use making::used::UsedTable;
use memo::clear;
use ranges::bounds::Bound;
use table::lent::TableMut;
use table::refusal::Refusal;

// "Restriction .. of one boolean to a value".
pub fn restrict(
    table: &mut TableMut,
    memo: &mut [u64],
    id: NodeId,
    v: u32,
    value: bool,
) -> Result<NodeId, Refusal>
    ensures comes { Answers (restriction_of id.0 v value) table.old memo.old result table.new memo.new }
    ensures same { SameSlices table.old table.new }
{
    let used = admit_ids(&table.read(), memo.len(), id, id, is_variable(v))?;
    // Written out in each call, as in `joins_calls`.
    let mut used_table = UsedTable {
        nodes: table.nodes,
        children: table.children,
        cuts: table.cuts,
        index: table.index,
        used,
    };
    // Only after the checks, since refusals 1 to 4 leave the memo as found.
    memo.fill(0);
    let answer = restriction::restrict(&mut used_table, memo, id, v as usize, value);
    // Again, and after "no room" too: entries may then name nodes that were taken back.
    clear(memo);
    Ok(answer?)
}

// "The answer at a place is the old answer at the nearest place inside the bounds".
pub fn narrow(
    table: &mut TableMut,
    memo: &mut [u64],
    id: NodeId,
    v: u32,
    lower: Bound,
    upper: Bound,
) -> Result<NodeId, Refusal>
    ensures comes { Answers (narrowing_of id.0 v lower upper) table.old memo.old result table.new memo.new }
    ensures same { SameSlices table.old table.new }
{
    let used = admit_ids(&table.read(), memo.len(), id, id, is_range(v))?;
    let mut used_table = UsedTable {
        nodes: table.nodes,
        children: table.children,
        cuts: table.cuts,
        index: table.index,
        used,
    };
    memo.fill(0);
    let answer = narrowing::narrow(&mut used_table, memo, id, v as usize, lower, upper);
    clear(memo);
    Ok(answer?)
}

// "Old answer and inside the bounds."
pub fn widen(
    table: &mut TableMut,
    memo: &mut [u64],
    id: NodeId,
    v: u32,
    lower: Bound,
    upper: Bound,
) -> Result<NodeId, Refusal>
    ensures comes { Answers (widening_of id.0 v lower upper) table.old memo.old result table.new memo.new }
    ensures same { SameSlices table.old table.new }
{
    let used = admit_ids(&table.read(), memo.len(), id, id, is_range(v))?;
    let mut used_table = UsedTable {
        nodes: table.nodes,
        children: table.children,
        cuts: table.cuts,
        index: table.index,
        used,
    };
    memo.fill(0);
    let answer = widening::widen(&mut used_table, memo, id, v as usize, lower, upper);
    clear(memo);
    Ok(answer?)
}
