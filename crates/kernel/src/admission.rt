// What the calls test before any work. "Checks go in the order 1 to 6."
ghost use Rattle.std.specs.Prelude.{Decides, ◌≤◌, ◌<◌, ◌^◌};
ghost use Rattle.diagram.specs.Table.{first_boolean, variables};
ghost use Rattle.kernel.specs.Calls.{BothKnown};
ghost use Rattle.kernel.specs.Admitting.{AdmitsTo, AdmitsIdsTo};
ghost use Rattle.table.specs.Layout.{MemoLengths};
ghost use Rattle.table.specs.Lending.{store_in};

use ids::NodeId;
use table::calls::check;
use table::lent::{Table, Used};
use table::limits::{FIRST_BOOLEAN, MEMO_WORDS, RECORD_WORDS, VARIABLES};
use table::refusal::Refusal;

// How much of the table is used; or refusal 1, 2 or 4, for a call that asks a kind of variable: `kind` says whether the one it is given is of
// that kind.
// A flag: the definitions of the answers, `AdmitsTo` and `AdmitsIdsTo`, have it, since the kind is tested before and told after the rest.
pub fn admit(table: &Table, kind: bool) -> Result<Used, Refusal>
    ensures { AdmitsTo (store_in table.now) table.now.index.now kind result }
{
    let used = check(table)?;
    // After the table, though it costs less: the checks go by their numbers.
    if kind {
        Ok(used)
    } else {
        Err(Refusal::WrongVariable)
    }
}

// Whether a memo of so many words may be lent beside so many records.
fn memo_allowed(memo: usize, rooms: usize) -> bool
    ensures { Decides result (MemoLengths memo rooms) }
{
    memo % MEMO_WORDS == 0 && MEMO_WORDS <= memo && memo / MEMO_WORDS <= rooms
}

// How much of the table is used; or refusal 1, 2, 3 or 4, for a call that is given two ids, or one id twice, and is lent a memo of `memo` words.
// The kind comes after the ids; a call that asks none says true.
pub fn admit_ids(
    table: &Table,
    memo: usize,
    x: NodeId,
    y: NodeId,
    kind: bool,
) -> Result<Used, Refusal>
    ensures { AdmitsIdsTo (store_in table.now) table.now.index.now memo x.0 y.0 kind result }
{
    // A length is refusal 1, and so comes before the table (2). If the length of `nodes` is wrong too, it is 1 either way.
    if !memo_allowed(memo, table.nodes.len() / RECORD_WORDS) {
        return Err(Refusal::WrongRoom);
    }
    // Not the kind yet: ids (3) come before it (4).
    let used = admit(table, true)?;
    if !both_known(used.nodes, x, y) {
        return Err(Refusal::UnknownId);
    }
    if kind {
        Ok(used)
    } else {
        Err(Refusal::WrongVariable)
    }
}

// Whether it is one of the variables 0 to 31.
pub fn is_range(v: u32) -> bool
    ensures { Decides result (v < first_boolean) }
{
    (v as usize) < FIRST_BOOLEAN
}

// Whether it is one of the variables 0 to 63.
pub fn is_variable(v: u32) -> bool
    ensures { Decides result (v < variables) }
{
    (v as usize) < VARIABLES
}

// Whether it is one of the variables 32 to 63.
pub fn is_boolean(v: u32) -> bool
    ensures { Decides result ((first_boolean ≤ v) × (v < variables)) }
{
    !is_range(v) && is_variable(v)
}

// Whether two ids are known, where this many nodes are used.
pub fn both_known(used: usize, x: NodeId, y: NodeId) -> bool
    requires { used < 2 ^ 32 }
    ensures { Decides result (BothKnown x.0 y.0 used) }
{
    x.is_known(used as u32) && y.is_known(used as u32)
}
