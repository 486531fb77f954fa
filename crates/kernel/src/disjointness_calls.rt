// Disjointness. Document 01, step 6. Refusals 1, 2 and 3.
ghost use Rattle.kernel.specs.Makes.{Disjoints};
ghost use Rattle.table.specs.Lending.{store_in};
ghost use Rattle.table.specs.Told.{number_in, yes_in};

use super::admission::both_known;
use ids::NodeId;
use table::calls::check;
use table::lent::Table;
use table::refusal::Refusal;

// Whether no reading makes both ids true. "Disjointness and reading borrow no memo and change nothing."
pub fn is_disjoint(table: &Table, x: NodeId, y: NodeId) -> Result<bool, Refusal>
    ensures { Disjoints (store_in table.now) table.now.index.now x.0 y.0 (number_in result) (yes_in result) }
{
    let used = check(table)?;
    if !both_known(used.nodes, x, y) {
        return Err(Refusal::UnknownId);
    }
    Ok(disjointness::is_disjoint(table, x, y))
}
