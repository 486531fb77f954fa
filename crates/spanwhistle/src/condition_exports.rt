// Conditions: the six comparisons, a range by two bounds, a boolean. Each function returns the number of document 01 and writes the id,
// which is 1 beside every number but 0. The comparisons have a function each, so that C needs no numbers for them.
ghost use Rattle.table.specs.Layout.{store};
ghost use Rattle.ranges.specs.declared.bounds.Comparison.TheVariants.{Equal, NotEqual, LessThan, LessEqual, GreaterThan, GreaterEqual};
ghost use Rattle.std.specs.Prelude.{[]};
ghost use Rattle.kernel.specs.Calls.{range_of, comparison_of, boolean_of};
ghost use Rattle.kernel.specs.Makes.{Comes};
ghost use Rattle.spanwhistle.specs.Numbers.{bound_of};

use super::numbers::{bound_of, hand_id};
use kernel::conditions_calls;
use ranges::bounds::Comparison;
use table::lent::TableMut;

// The variable = the key.
#[unsafe(no_mangle)]
pub extern "C" fn spanwhistle_equal(
    nodes: &mut [u32],
    children: &mut [u32],
    cuts: &mut [i64],
    index: &mut [u32],
    variable: u32,
    key: i32,
    id: &mut u32,
) -> u32
    ensures { Comes (comparison_of variable Equal key) (store nodes.old children.old cuts.old) index.old [] result id.new (store nodes.new children.new cuts.new) index.new [] }
{
    let mut table = TableMut {
        nodes,
        children,
        cuts,
        index,
    };
    let op = Comparison::Equal;
    hand_id(
        conditions_calls::from_comparison(&mut table, variable, op, key),
        id,
    )
}

// The variable != the key.
#[unsafe(no_mangle)]
pub extern "C" fn spanwhistle_not_equal(
    nodes: &mut [u32],
    children: &mut [u32],
    cuts: &mut [i64],
    index: &mut [u32],
    variable: u32,
    key: i32,
    id: &mut u32,
) -> u32
    ensures { Comes (comparison_of variable NotEqual key) (store nodes.old children.old cuts.old) index.old [] result id.new (store nodes.new children.new cuts.new) index.new [] }
{
    let mut table = TableMut {
        nodes,
        children,
        cuts,
        index,
    };
    let op = Comparison::NotEqual;
    hand_id(
        conditions_calls::from_comparison(&mut table, variable, op, key),
        id,
    )
}

// The variable < the key.
#[unsafe(no_mangle)]
pub extern "C" fn spanwhistle_less_than(
    nodes: &mut [u32],
    children: &mut [u32],
    cuts: &mut [i64],
    index: &mut [u32],
    variable: u32,
    key: i32,
    id: &mut u32,
) -> u32
    ensures { Comes (comparison_of variable LessThan key) (store nodes.old children.old cuts.old) index.old [] result id.new (store nodes.new children.new cuts.new) index.new [] }
{
    let mut table = TableMut {
        nodes,
        children,
        cuts,
        index,
    };
    let op = Comparison::LessThan;
    hand_id(
        conditions_calls::from_comparison(&mut table, variable, op, key),
        id,
    )
}

// The variable <= the key.
#[unsafe(no_mangle)]
pub extern "C" fn spanwhistle_less_equal(
    nodes: &mut [u32],
    children: &mut [u32],
    cuts: &mut [i64],
    index: &mut [u32],
    variable: u32,
    key: i32,
    id: &mut u32,
) -> u32
    ensures { Comes (comparison_of variable LessEqual key) (store nodes.old children.old cuts.old) index.old [] result id.new (store nodes.new children.new cuts.new) index.new [] }
{
    let mut table = TableMut {
        nodes,
        children,
        cuts,
        index,
    };
    let op = Comparison::LessEqual;
    hand_id(
        conditions_calls::from_comparison(&mut table, variable, op, key),
        id,
    )
}

// The variable > the key.
#[unsafe(no_mangle)]
pub extern "C" fn spanwhistle_greater_than(
    nodes: &mut [u32],
    children: &mut [u32],
    cuts: &mut [i64],
    index: &mut [u32],
    variable: u32,
    key: i32,
    id: &mut u32,
) -> u32
    ensures { Comes (comparison_of variable GreaterThan key) (store nodes.old children.old cuts.old) index.old [] result id.new (store nodes.new children.new cuts.new) index.new [] }
{
    let mut table = TableMut {
        nodes,
        children,
        cuts,
        index,
    };
    let op = Comparison::GreaterThan;
    hand_id(
        conditions_calls::from_comparison(&mut table, variable, op, key),
        id,
    )
}

// The variable >= the key.
#[unsafe(no_mangle)]
pub extern "C" fn spanwhistle_greater_equal(
    nodes: &mut [u32],
    children: &mut [u32],
    cuts: &mut [i64],
    index: &mut [u32],
    variable: u32,
    key: i32,
    id: &mut u32,
) -> u32
    ensures { Comes (comparison_of variable GreaterEqual key) (store nodes.old children.old cuts.old) index.old [] result id.new (store nodes.new children.new cuts.new) index.new [] }
{
    let mut table = TableMut {
        nodes,
        children,
        cuts,
        index,
    };
    let op = Comparison::GreaterEqual;
    hand_id(
        conditions_calls::from_comparison(&mut table, variable, op, key),
        id,
    )
}

// The variable between two bounds. A bound is a kind and a key, as in `bound_of`.
#[unsafe(no_mangle)]
pub extern "C" fn spanwhistle_from_range(
    nodes: &mut [u32],
    children: &mut [u32],
    cuts: &mut [i64],
    index: &mut [u32],
    variable: u32,
    lower_kind: u32,
    lower_key: i32,
    upper_kind: u32,
    upper_key: i32,
    id: &mut u32,
) -> u32
    ensures { Comes (range_of variable (bound_of lower_kind lower_key) (bound_of upper_kind upper_key)) (store nodes.old children.old cuts.old) index.old [] result id.new (store nodes.new children.new cuts.new) index.new [] }
{
    let lower = bound_of(lower_kind, lower_key);
    let upper = bound_of(upper_kind, upper_key);
    let mut table = TableMut {
        nodes,
        children,
        cuts,
        index,
    };
    hand_id(
        conditions_calls::from_range(&mut table, variable, lower, upper),
        id,
    )
}

// A boolean variable: its number is 32 to 63.
#[unsafe(no_mangle)]
pub extern "C" fn spanwhistle_from_bool(
    nodes: &mut [u32],
    children: &mut [u32],
    cuts: &mut [i64],
    index: &mut [u32],
    variable: u32,
    id: &mut u32,
) -> u32
    ensures { Comes (boolean_of variable) (store nodes.old children.old cuts.old) index.old [] result id.new (store nodes.new children.new cuts.new) index.new [] }
{
    let mut table = TableMut {
        nodes,
        children,
        cuts,
        index,
    };
    hand_id(conditions_calls::from_bool(&mut table, variable), id)
}
