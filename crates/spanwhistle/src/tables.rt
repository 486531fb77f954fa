// The calls on a lent table that make no node, and negation, which needs no table. Each but negation returns the number of document 01.
ghost use Rattle.std.specs.Prelude.{◌≡◌};
ghost use Rattle.table.specs.Layout.{store};
ghost use Rattle.ids.specs.Id.{flip};
ghost use Rattle.table.specs.Told.{Checks, Freshens, Hears};
ghost use Rattle.spanwhistle.specs.Numbers.{Telling};

use super::numbers::{hand_yes, number_of};
use ids::NodeId;
use table::calls;
use table::lent::{Table, TableMut, Used};

// The opposite of an id: its lowest bit flipped. No id is refused.
#[unsafe(no_mangle)]
pub extern "C" fn spanwhistle_not(id: u32) -> u32
    ensures { result ≡ flip id }
{
    NodeId(id).not().0
}

// Whether the table is sound. Beside 0 it writes how many nodes and edges are used, and 0 and 0 beside a refusal.
#[unsafe(no_mangle)]
pub extern "C" fn spanwhistle_check(
    nodes: &[u32],
    children: &[u32],
    cuts: &[i64],
    index: &[u32],
    used_nodes: &mut usize,
    used_edges: &mut usize,
) -> u32
    ensures { Checks (store nodes.now children.now cuts.now) index.now result used_nodes.new used_edges.new }
{
    let answer = calls::check(&Table {
        nodes,
        children,
        cuts,
        index,
    });
    let used = answer.unwrap_or(Used { nodes: 0, edges: 0 });
    *used_nodes = used.nodes;
    *used_edges = used.edges;
    number_of(&answer)
}

// Makes an empty table in the lent room, whatever it held.
#[unsafe(no_mangle)]
pub extern "C" fn spanwhistle_fresh(
    nodes: &mut [u32],
    children: &mut [u32],
    cuts: &mut [i64],
    index: &mut [u32],
) -> u32
    ensures { Freshens (store nodes.old children.old cuts.old) index.old result (store nodes.new children.new cuts.new) index.new }
{
    let answer = calls::fresh(&mut TableMut {
        nodes,
        children,
        cuts,
        index,
    });
    number_of(&answer)
}

// What an id says under 32 places and the 32 bits of `bools`: writes 1 for yes, and 0 for no and beside any refusal.
#[unsafe(no_mangle)]
pub extern "C" fn spanwhistle_evaluate(
    nodes: &[u32],
    children: &[u32],
    cuts: &[i64],
    index: &[u32],
    places: &[i64],
    bools: u32,
    id: u32,
    yes: &mut u32,
) -> u32
    ensures { Telling (Hears (store nodes.now children.now cuts.now) index.now places.now bools id) result yes.new }
{
    let table = Table {
        nodes,
        children,
        cuts,
        index,
    };
    hand_yes(calls::evaluate(&table, places, bools, NodeId(id)), yes)
}
