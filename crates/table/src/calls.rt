// The public calls on a lent table that make no node. None has a condition on its caller; each decides its number, its answer and every
// word of every slice, for all contents of all slices.
ghost use Rattle.table.specs.Told.{Checks, Freshens, Hears, number_in, nodes_in, edges_in, yes_in};
ghost use Rattle.table.specs.Lending.{store_in, store_of, SameSlices};

use super::lent::{Table, TableMut, Used};
use super::limits::FIRST_BOOLEAN;
use super::read::{are_places, reads};
use super::refusal::Refusal;
use super::sound::judge;
use super::words::lengths_allowed;
use ids::NodeId;

// Whether the table is sound: its used counts, or refusal 1 or 2.
#[tactic(auto, using(crate::proofs::Hearing::checks_it, crate::specs::Told::checked_1))]
pub fn check(table: &Table) -> Result<Used, Refusal>
    ensures { Checks (store_in table.now) table.now.index.now (number_in result) (nodes_in result) (edges_in result) }
{
    if !lengths_allowed(
        table.nodes.len(),
        table.children.len(),
        table.cuts.len(),
        table.index.len(),
    ) {
        return Err(Refusal::WrongRoom);
    }
    judge(table).ok_or(Refusal::NotSound)
}

// Makes an empty table in the lent room, whatever it held; refusal 1 where a length is not allowed.
#[tactic(auto, using(crate::proofs::Hearing::freshens_it, crate::specs::Told::freshened_1))]
pub fn fresh(table: &mut TableMut) -> Result<(), Refusal>
    ensures freshens { Freshens (store_of table.old) table.old.index.now (number_in result) (store_of table.new) table.new.index.now }
    ensures same { SameSlices table.old table.new }
{
    if !lengths_allowed(
        table.nodes.len(),
        table.children.len(),
        table.cuts.len(),
        table.index.len(),
    ) {
        return Err(Refusal::WrongRoom);
    }
    table.nodes.fill(0);
    table.children.fill(0);
    table.cuts.fill(0);
    table.index.fill(0);
    Ok(())
}

// What an id says under 32 places and 32 booleans; bit i of `bools` is variable 32 + i. Refusals 1, 2, 3 and 5.
#[tactic(auto, using(crate::proofs::Hearing::passed_check_sound, crate::proofs::Hearing::known_when_true))]
pub fn evaluate(table: &Table, places: &[i64], bools: u32, id: NodeId) -> Result<bool, Refusal>
    ensures { Hears (store_in table.now) table.now.index.now places.now bools id.0 (number_in result) (yes_in result) }
{
    // A length too, and so refusal 1: it has to come before the check of the table, which may find 2.
    if places.len() != FIRST_BOOLEAN {
        return Err(Refusal::WrongRoom);
    }
    let used = check(table)?;
    if !id.is_known(used.nodes as u32) {
        return Err(Refusal::UnknownId);
    }
    // All 32, whether the id tests them or not: a refusal depends on what was lent, and not on the way down.
    if !are_places(places) {
        return Err(Refusal::BeyondPlaces);
    }
    Ok(reads(table, places, bools as usize, id))
}
