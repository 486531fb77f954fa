// What is lent, and the operations on it.
use super::numbers::Number;
use super::operations::{Operation, Unknown};
use super::output::Output;
use std::io;
use std::io::Write;
use table::lent::TableMut;
use table::limits::{
    FIRST_BOOLEAN, INDEX_WORDS, MEMO_WORDS, MOST_EDGE_ROOM, MOST_NODES, RECORD_WORDS,
};

// What is held: room for one node and one edge more than a table may have, so that a room that is too large can be lent too.
const NODES: usize = RECORD_WORDS * (MOST_NODES + 1);

const EDGES: usize = MOST_EDGE_ROOM + 1;

const INDEX: usize = INDEX_WORDS * (MOST_NODES + 1);

const MEMO: usize = MEMO_WORDS * (MOST_NODES + 1);

// The slices of which words can be lent.
#[derive(Clone, Copy)]
pub enum Slice {
    Nodes,
    Children,
    Cuts,
    Index,
    Memo,
}

impl TryFrom<Number> for Slice {
    type Error = Unknown;

    fn try_from(n: Number) -> Result<Slice, Unknown> {
        match u32::from(n) {
            0 => Ok(Slice::Nodes),
            1 => Ok(Slice::Children),
            2 => Ok(Slice::Cuts),
            3 => Ok(Slice::Index),
            4 => Ok(Slice::Memo),
            _ => Err(Unknown),
        }
    }
}

// How many words of each slice are lent; more than are held stand for all.
#[derive(Clone, Copy, Default)]
pub struct Counts {
    pub nodes: usize,
    pub children: usize,
    pub cuts: usize,
    pub index: usize,
    pub memo: usize,
}

// All words that are held, the places of the reading, and how many words are lent. A lent slice is the first so many words of a held one.
// Arrays with counts beside them, since a `Vec` would be on the heap.
#[derive(Drop)]
pub struct Held {
    nodes: [u32; NODES],
    children: [u32; EDGES],
    cuts: [i64; EDGES],
    index: [u32; INDEX],
    memo: [u64; MEMO],
    places: [i64; FIRST_BOOLEAN],
    counts: Counts,
}

impl Held {
    // Nothing is lent yet.
    pub fn new() -> Held {
        Held {
            nodes: [0; NODES],
            children: [0; EDGES],
            cuts: [0; EDGES],
            index: [0; INDEX],
            memo: [0; MEMO],
            places: [0; FIRST_BOOLEAN],
            counts: Counts::default(),
        }
    }

    // Does what the operation says, and writes what it answers.
    pub fn run(&mut self, operation: Operation, out: &mut Output<impl Print>) -> io::Result<()> {
        match operation {
            Operation::Nothing => {}
            Operation::Lend(counts) => self.lend(counts),
            Operation::SetWord { slice, at, word } => self.lent().set_word(slice, at, word),
            Operation::SetPlace { at, place } => set(&mut self.places, at, place),
            Operation::Ask(question) => {
                let Lent {
                    mut table,
                    memo,
                    places,
                } = self.lent();
                let reply = question.ask(&mut table, memo, places);
                writeln!(out, "{reply}")?;
            }
            Operation::Show => self.lent().show(out)?,
            Operation::Unknown => writeln!(out, "?")?,
        }
        Ok(())
    }

    // All words that are held become 0, and so many of each slice are lent.
    fn lend(&mut self, counts: Counts) {
        self.nodes.fill(0);
        self.children.fill(0);
        self.cuts.fill(0);
        self.index.fill(0);
        self.memo.fill(0);
        self.counts = counts;
    }

    // The lent words of each slice.
    fn lent(&mut self) -> Lent<'_> {
        let Held {
            nodes,
            children,
            cuts,
            index,
            memo,
            places,
            counts,
        } = self;
        Lent {
            table: TableMut {
                nodes: first(nodes, counts.nodes),
                children: first(children, counts.children),
                cuts: first(cuts, counts.cuts),
                index: first(index, counts.index),
            },
            memo: first(memo, counts.memo),
            places,
        }
    }
}

// The lent words, and the places.
#[derive(Drop)]
struct Lent<'a> {
    table: TableMut<'a>,
    memo: &'a mut [u64],
    places: &'a mut [i64],
}

impl Lent<'_> {
    // Only words of the memo are as wide as a number can be.
    fn set_word(&mut self, slice: Slice, at: usize, word: Number) {
        match slice {
            Slice::Nodes => set(self.table.nodes, at, word.into()),
            Slice::Children => set(self.table.children, at, word.into()),
            Slice::Cuts => set(self.table.cuts, at, word.into()),
            Slice::Index => set(self.table.index, at, word.into()),
            Slice::Memo => set(self.memo, at, word.size),
        }
    }

    // All lent words.
    fn show(&self, out: &mut Output<impl Print>) -> io::Result<()> {
        out.words(self.table.nodes)?;
        out.words(self.table.children)?;
        out.words(self.table.cuts)?;
        out.words(self.table.index)?;
        out.words(self.memo)?;
        writeln!(out)
    }
}

// The first so many words, or all where there are no more.
fn first<T>(words: &mut [T], count: usize) -> &mut [T] {
    let end = count.min(words.len());
    &mut words[..end]
}

// Writes one word, if it is there.
fn set<T: Drop>(words: &mut [T], at: usize, word: T) {
    if let Some(old) = words.get_mut(at) {
        *old = word;
    }
}
