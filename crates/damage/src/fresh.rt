// A fresh table in room full of 77s, and a room that is refused and keeps them.
use super::lengths::{Lengths, front};
use super::tables::Words;
use super::told::{Checked, number_of};
use std::io;
use table::calls::{check, fresh};
use table::lent::TableMut;
use table::refusal::Refusal;

const ROOMS: [Lengths; 7] = [
    [16, 10, 9, 16],
    [16, 9, 10, 16],
    [15, 10, 10, 16],
    [16, 10, 10, 15],
    [16, 1, 1, 16],
    [16, 10, 10, 16],
    [8, 2, 2, 8],
];

// A fresh table in the first words of each slice, if there are so many. (`front` lends them to be read, this to be written: one function for both
// would need a trait, and be no plainer.)
fn fresh_front(
    words: &mut Words<16, 10>,
    [nodes, children, cuts, index]: Lengths,
) -> Option<Result<(), Refusal>> {
    let mut table = TableMut {
        nodes: words.nodes.get_mut(..nodes)?,
        children: words.children.get_mut(..children)?,
        cuts: words.cuts.get_mut(..cuts)?,
        index: words.index.get_mut(..index)?,
    };
    Some(fresh(&mut table))
}

fn show_room(rt: &impl Print, lengths: Lengths) -> io::Result<()> {
    let [nodes, children, cuts, index] = lengths;
    print!(rt; "fresh {nodes} {children} {cuts} {index} ")?;
    let mut words = Words::full_of(77);
    let Some(told) = fresh_front(&mut words, lengths) else {
        return println!(rt; "too few words");
    };
    print!(rt; "number {} first words ", number_of(told))?;
    let [node, ..] = words.nodes;
    let [child, ..] = words.children;
    let [cut, ..] = words.cuts;
    let [bucket, ..] = words.index;
    print!(rt; "{node} {child} {cut} {bucket} ")?;
    match front(&words.read(), lengths) {
        Some(table) => println!(rt; "check {}", Checked(check(&table))),
        None => println!(rt; "too few words"),
    }
}

pub fn show_fresh(rt: &impl Print) -> io::Result<()> {
    for lengths in ROOMS {
        show_room(rt, lengths)?;
    }
    Ok(())
}
