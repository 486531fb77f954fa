// The check of tables whose lengths are right, wrong by one, empty, and at the limits.
use super::tables::{SOUND, Words};
use super::told::number_of;
use std::io;
use table::calls::check;
use table::lent::Table;

// The lengths of nodes, children, cuts and index.
pub type Lengths = [usize; 4];

const LENGTHS: [Lengths; 23] = [
    // Each slice one word too short and one too long.
    [16, 10, 10, 16],
    [15, 10, 10, 16],
    [17, 10, 10, 16],
    [16, 9, 10, 16],
    [16, 11, 10, 16],
    [16, 10, 9, 16],
    [16, 10, 11, 16],
    [16, 10, 10, 15],
    [16, 10, 10, 17],
    // Nothing lent.
    [0, 10, 10, 16],
    [0, 10, 10, 0],
    [16, 0, 10, 16],
    [16, 10, 0, 16],
    [16, 0, 0, 16],
    [16, 10, 10, 0],
    [0, 0, 0, 0],
    // Lengths that fit one another: too little room, just enough, less than the table uses, and room for which the index is another.
    [16, 1, 1, 16],
    [16, 7, 7, 16],
    [16, 6, 6, 16],
    [16, 11, 11, 16],
    [12, 10, 10, 12],
    [20, 10, 10, 20],
    [18, 10, 10, 16],
];

// The records and edges of tables without nodes.
const EMPTY_ROOMS: [(usize, usize); 4] = [(4096, 2), (4097, 2), (1, 16384), (1, 16385)];

// The first words of each slice, if there are so many.
pub fn front<'a>(table: &Table<'a>, [nodes, children, cuts, index]: Lengths) -> Option<Table<'a>> {
    Some(Table {
        nodes: table.nodes.get(..nodes)?,
        children: table.children.get(..children)?,
        cuts: table.cuts.get(..cuts)?,
        index: table.index.get(..index)?,
    })
}

// The sound table with zeros behind each of its slices.
fn long_table() -> Words<20, 12> {
    let mut nodes = [0; 20];
    nodes[..16].copy_from_slice(&SOUND.nodes);
    let mut children = [0; 12];
    children[..10].copy_from_slice(&SOUND.children);
    let mut cuts = [0; 12];
    cuts[..10].copy_from_slice(&SOUND.cuts);
    let mut index = [0; 20];
    index[..16].copy_from_slice(&SOUND.index);
    Words {
        nodes,
        children,
        cuts,
        index,
    }
}

// What the check of the first words of each slice tells.
fn show_front(rt: &impl Print, table: &Table, lengths: Lengths) -> io::Result<()> {
    match front(table, lengths) {
        Some(table) => println!(rt; "number {}", number_of(check(&table))),
        None => println!(rt; "too few words"),
    }
}

pub fn show_lengths(rt: &impl Print) -> io::Result<()> {
    let long = long_table();
    for [nodes, children, cuts, index] in LENGTHS {
        print!(rt; "lengths {nodes} {children} {cuts} {index} ")?;
        show_front(rt, &long.read(), [nodes, children, cuts, index])?;
    }
    let empty = Words::<16388, 16385>::full_of(0);
    for (records, edges) in EMPTY_ROOMS {
        print!(rt; "empty {records} {edges} ")?;
        let words = records * 4;
        show_front(rt, &empty.read(), [words, edges, edges, words])?;
    }
    Ok(())
}
