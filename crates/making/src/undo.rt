// Taking nodes back: an operation that finds no room leaves the table as it found it.
ghost use Rattle.std.specs.Prelude.{◌≡◌, ◌+◌, ◌-◌, ◌≤◌, length};
ghost use Rattle.diagram.specs.Table.{most_edges};
ghost use Rattle.making.specs.Storing.{EdgesBlank};
ghost use Rattle.making.specs.Working.{Sound, SameSlices, TakesBack};

use super::chain::splice;
use super::nodes::put_record;
use super::used::UsedTable;
use table::index::scaled;
use table::lent::Used;
use table::limits::RECORD_WORDS;
use table::words::{count_of, first_of, word};

// Makes `count` edges from e on blank.
fn blank_edges(children: &mut [u32], cuts: &mut [i64], e: usize, count: usize)
    requires { (count ≤ most_edges) × (e + count ≤ length children.old) × (length cuts.old ≡ length children.old) }
    ensures { EdgesBlank children.old cuts.old e count children.new cuts.new }
{
    children[e..e + count].fill(0);
    cuts[e..e + count].fill(0);
}

// Takes the last node back.
fn pop(table: &mut UsedTable)
    requires { (Sound table.old) × (1 ≤ table.old.used.nodes) }
    ensures takes { TakesBack (table.old.used.nodes - 1) table.old table.new }
    ensures same { SameSlices table.old table.new }
{
    let n = table.used.nodes - 1;
    let words = table.read();
    let rooms = words.nodes.len() / RECORD_WORDS;
    let count = count_of(words.nodes, n);
    let e = first_of(words.nodes, n);
    // Its own words say where it stands in its bucket, and in which: no hash is computed again.
    let behind = word(words.index, rooms + n);
    let before = word(words.index, rooms * 2 + n);
    let bucket = scaled(word(words.index, rooms * 3 + n), rooms);
    splice(
        table.index,
        rooms,
        n,
        bucket,
        before,
        behind,
        behind as u32,
        before as u32,
        0,
        0,
        0,
    );
    blank_edges(table.children, table.cuts, e, count);
    put_record(table.nodes, n, 0, 0, 0);
    table.used = Used { nodes: n, edges: e };
}

// Takes back every node that came after the first `keep`.
pub fn undo(table: &mut UsedTable, keep: usize)
    requires { (Sound table.old) × (keep ≤ table.old.used.nodes) }
    ensures takes { TakesBack keep table.old table.new }
    ensures same { SameSlices table.old table.new }
{
    // Newest first: its edges are then the last ones, when its turn comes.
    while keep < table.used.nodes {
        pop(table);
    }
}
