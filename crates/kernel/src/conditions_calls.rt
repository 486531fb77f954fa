// Conditions. Document 01, step 3. Refusals 1, 2, 4 and 6; "a range condition .. ask[s] a range variable; a boolean condition asks a
// boolean one".
ghost use Rattle.std.specs.Prelude.{[]};
ghost use Rattle.kernel.specs.Calls.{range_of, comparison_of, boolean_of};
ghost use Rattle.kernel.specs.Answering.{Answers};
ghost use Rattle.table.specs.Lending.{SameSlices};

use super::admission::{admit, is_boolean, is_range};
use ids::NodeId;
use making::used::UsedTable;
use ranges::bounds::{Bound, Comparison};
use table::lent::TableMut;
use table::refusal::Refusal;

// "A range by two bounds".
pub fn from_range(
    table: &mut TableMut,
    v: u32,
    lower: Bound,
    upper: Bound,
) -> Result<NodeId, Refusal>
    ensures comes { Answers (range_of v lower upper) table.old [] result table.new [] }
    ensures same { SameSlices table.old table.new }
{
    let used = admit(&table.read(), is_range(v))?;
    // Written out in each call, as in `joins_calls`.
    let mut used_table = UsedTable {
        nodes: table.nodes,
        children: table.children,
        cuts: table.cuts,
        index: table.index,
        used,
    };
    Ok(conditions::from_range(&mut used_table, v as usize, lower, upper)?)
}

// "Six comparisons with a key: = != < <= > >=".
pub fn from_comparison(
    table: &mut TableMut,
    v: u32,
    op: Comparison,
    key: i32,
) -> Result<NodeId, Refusal>
    ensures comes { Answers (comparison_of v op key) table.old [] result table.new [] }
    ensures same { SameSlices table.old table.new }
{
    let used = admit(&table.read(), is_range(v))?;
    let mut used_table = UsedTable {
        nodes: table.nodes,
        children: table.children,
        cuts: table.cuts,
        index: table.index,
        used,
    };
    Ok(conditions::from_comparison(&mut used_table, v as usize, op, key)?)
}

// A boolean.
pub fn from_bool(table: &mut TableMut, v: u32) -> Result<NodeId, Refusal>
    ensures comes { Answers (boolean_of v) table.old [] result table.new [] }
    ensures same { SameSlices table.old table.new }
{
    let used = admit(&table.read(), is_boolean(v))?;
    let mut used_table = UsedTable {
        nodes: table.nodes,
        children: table.children,
        cuts: table.cuts,
        index: table.index,
        used,
    };
    Ok(conditions::from_bool(&mut used_table, v as usize)?)
}
