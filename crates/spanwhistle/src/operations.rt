// What is asked of ids: conjunction, disjunction, disjointness, restriction, narrowing, widening. Each function returns the number of
// document 01, and writes the id, which is 1 beside every number but 0, or for disjointness a word.
ghost use Rattle.table.specs.Layout.{store};
ghost use Rattle.kernel.specs.Calls.{both_of, either_of, restriction_of, narrowing_of, widening_of};
ghost use Rattle.kernel.specs.Makes.{Comes, Disjoints};
ghost use Rattle.spanwhistle.specs.Numbers.{bound_of, is_yes, Telling};

use super::numbers::{bound_of, hand_id, hand_yes};
use ids::NodeId;
use kernel::{changes_calls, disjointness_calls, joins_calls};
use table::lent::{Table, TableMut};

// Both x and y.
#[unsafe(no_mangle)]
pub extern "C" fn spanwhistle_and(
    nodes: &mut [u32],
    children: &mut [u32],
    cuts: &mut [i64],
    index: &mut [u32],
    memo: &mut [u64],
    x: u32,
    y: u32,
    id: &mut u32,
) -> u32
    ensures { Comes (both_of x y) (store nodes.old children.old cuts.old) index.old memo.old result id.new (store nodes.new children.new cuts.new) index.new memo.new }
{
    let mut table = TableMut {
        nodes,
        children,
        cuts,
        index,
    };
    hand_id(joins_calls::and(&mut table, memo, NodeId(x), NodeId(y)), id)
}

// x, y or both.
#[unsafe(no_mangle)]
pub extern "C" fn spanwhistle_or(
    nodes: &mut [u32],
    children: &mut [u32],
    cuts: &mut [i64],
    index: &mut [u32],
    memo: &mut [u64],
    x: u32,
    y: u32,
    id: &mut u32,
) -> u32
    ensures { Comes (either_of x y) (store nodes.old children.old cuts.old) index.old memo.old result id.new (store nodes.new children.new cuts.new) index.new memo.new }
{
    let mut table = TableMut {
        nodes,
        children,
        cuts,
        index,
    };
    hand_id(joins_calls::or(&mut table, memo, NodeId(x), NodeId(y)), id)
}

// Whether no reading makes both x and y true: writes 1 for yes, and 0 for no and beside any refusal.
#[unsafe(no_mangle)]
pub extern "C" fn spanwhistle_is_disjoint(
    nodes: &[u32],
    children: &[u32],
    cuts: &[i64],
    index: &[u32],
    x: u32,
    y: u32,
    yes: &mut u32,
) -> u32
    ensures { Telling (Disjoints (store nodes.now children.now cuts.now) index.now x y) result yes.new }
{
    let table = Table {
        nodes,
        children,
        cuts,
        index,
    };
    hand_yes(
        disjointness_calls::is_disjoint(&table, NodeId(x), NodeId(y)),
        yes,
    )
}

// x with the boolean set to `value`: 0 is no, and every other number is yes.
#[unsafe(no_mangle)]
pub extern "C" fn spanwhistle_restrict(
    nodes: &mut [u32],
    children: &mut [u32],
    cuts: &mut [i64],
    index: &mut [u32],
    memo: &mut [u64],
    x: u32,
    variable: u32,
    value: u32,
    id: &mut u32,
) -> u32
    ensures { Comes (restriction_of x variable (is_yes value)) (store nodes.old children.old cuts.old) index.old memo.old result id.new (store nodes.new children.new cuts.new) index.new memo.new }
{
    // Any number is taken: a `bool` from C might have bits that are neither yes nor no, and there is no refusal for those.
    let yes = value != 0;
    let mut table = TableMut {
        nodes,
        children,
        cuts,
        index,
    };
    hand_id(
        changes_calls::restrict(&mut table, memo, NodeId(x), variable, yes),
        id,
    )
}

// x at the nearest place inside the bounds. A bound is a kind and a key, as in `bound_of`.
#[unsafe(no_mangle)]
pub extern "C" fn spanwhistle_narrow(
    nodes: &mut [u32],
    children: &mut [u32],
    cuts: &mut [i64],
    index: &mut [u32],
    memo: &mut [u64],
    x: u32,
    variable: u32,
    lower_kind: u32,
    lower_key: i32,
    upper_kind: u32,
    upper_key: i32,
    id: &mut u32,
) -> u32
    ensures { Comes (narrowing_of x variable (bound_of lower_kind lower_key) (bound_of upper_kind upper_key)) (store nodes.old children.old cuts.old) index.old memo.old result id.new (store nodes.new children.new cuts.new) index.new memo.new }
{
    let lower = bound_of(lower_kind, lower_key);
    let upper = bound_of(upper_kind, upper_key);
    let mut table = TableMut {
        nodes,
        children,
        cuts,
        index,
    };
    hand_id(
        changes_calls::narrow(&mut table, memo, NodeId(x), variable, lower, upper),
        id,
    )
}

// x and inside the bounds, which are given as in `spanwhistle_narrow`.
#[unsafe(no_mangle)]
pub extern "C" fn spanwhistle_widen(
    nodes: &mut [u32],
    children: &mut [u32],
    cuts: &mut [i64],
    index: &mut [u32],
    memo: &mut [u64],
    x: u32,
    variable: u32,
    lower_kind: u32,
    lower_key: i32,
    upper_kind: u32,
    upper_key: i32,
    id: &mut u32,
) -> u32
    ensures { Comes (widening_of x variable (bound_of lower_kind lower_key) (bound_of upper_kind upper_key)) (store nodes.old children.old cuts.old) index.old memo.old result id.new (store nodes.new children.new cuts.new) index.new memo.new }
{
    let lower = bound_of(lower_kind, lower_key);
    let upper = bound_of(upper_kind, upper_key);
    let mut table = TableMut {
        nodes,
        children,
        cuts,
        index,
    };
    hand_id(
        changes_calls::widen(&mut table, memo, NodeId(x), variable, lower, upper),
        id,
    )
}
