// The tables that are lent, and what is asked of each.
ghost use Rattle.std.specs.Prelude.{◌≤◌, ◌*◌};

use super::asking::{Lent, Lines, run, run_one};
use super::count::Count;
use super::lists;
use super::questions::Case;
use super::records::show_nodes;
use std::io;
use table::calls::fresh;
use table::lent::TableMut;

// The words of a table: R of node records, E of edges, R of the index. (The program `damage` has such a type too. A crate of four arrays that
// only two programs import would be no plainer.)
#[derive(Clone, Copy, PartialEq, Eq)]
struct Words<const R: usize, const E: usize> {
    nodes: [u32; R],
    children: [u32; E],
    cuts: [i64; E],
    index: [u32; R],
}

impl<const R: usize, const E: usize> Words<R, E> {
    fn full_of(word: u32) -> Self {
        Words {
            nodes: [word; R],
            children: [word; E],
            cuts: [i64::from(word); E],
            index: [word; R],
        }
    }

    // With room for so many nodes.
    fn lend(&mut self, records: usize) -> TableMut<'_>
        requires { records * 4 ≤ R }
    {
        let words = records * 4;
        TableMut {
            nodes: &mut self.nodes[..words],
            children: &mut self.children,
            cuts: &mut self.cuts,
            index: &mut self.index[..words],
        }
    }

    // A list asked with room for so many nodes, and a memo of so many words.
    fn ask(
        &mut self,
        rt: &impl Print,
        records: usize,
        memo_words: usize,
        cases: &[Case],
        count: &mut Count,
    ) -> io::Result<()>
        requires records { records * 4 ≤ R }
        requires memo { memo_words ≤ 64 }
    {
        let mut memo = [0; 64];
        let mut lent = Lent {
            table: self.lend(records),
            memo: &mut memo[..memo_words],
        };
        run(rt, &mut lent, cases, Lines::All, count)
    }
}

// What is asked of a fresh table, and how many nodes it has then.
const ON_A_FRESH_TABLE: [(&[Case], usize); 4] = [
    (&lists::FIRST, 9),
    (&lists::MERGED, 9),
    (&lists::WIDENED, 4),
    (&lists::RESTRICTED, 13),
];

// A fresh table with room for 16 nodes and 64 edges, where all was full of 77s, and a memo of so many words. Where every case has a line, all
// words of the nodes are shown too.
fn show_table(
    rt: &impl Print,
    cases: &[Case],
    made: usize,
    memo_words: usize,
    lines: Lines,
    count: &mut Count,
) -> io::Result<()>
    requires { memo_words ≤ 128 }
{
    let mut words = Words::<64, 64>::full_of(77);
    let mut memo = [77; 128];
    let mut lent = Lent {
        table: words.lend(16),
        memo: &mut memo[..memo_words],
    };
    if fresh(&mut lent.table).is_err() {
        return count.judged(rt, false);
    }
    run(rt, &mut lent, cases, lines, count)?;
    if lines == Lines::All {
        show_nodes(rt, &lent.table.read(), made)?;
    }
    Ok(())
}

// With a set of eight words of memo for each record.
pub fn shown(rt: &impl Print, count: &mut Count) -> io::Result<()> {
    for (cases, made) in ON_A_FRESH_TABLE {
        println!(rt; "A fresh table with room for 16 nodes and 64 edges")?;
        show_table(rt, cases, made, 128, Lines::All, count)?;
    }
    Ok(())
}

// No answer goes by the memo's length: the same lists again, with so many words of it.
fn again(rt: &impl Print, memo_words: usize, count: &mut Count) -> io::Result<()>
    requires { memo_words ≤ 128 }
{
    println!(rt; "The same questions with a memo of {memo_words} words; a line only where wrong")?;
    for (cases, made) in ON_A_FRESH_TABLE {
        show_table(rt, cases, made, memo_words, Lines::Wrong, count)?;
    }
    Ok(())
}

pub fn with_other_memos(rt: &impl Print, count: &mut Count) -> io::Result<()> {
    again(rt, 8, count)?;
    again(rt, 64, count)?;
    refused_memo(rt, 0, count)?;
    // One word less and one more than a set, one more than all sets, and a set more than there are records.
    refused_memo(rt, 7, count)?;
    refused_memo(rt, 9, count)?;
    refused_memo(rt, 33, count)?;
    refused_memo(rt, 40, count)
}

// A memo's length that is refused beside 4 records.
fn refused_memo(rt: &impl Print, memo_words: usize, count: &mut Count) -> io::Result<()>
    requires { memo_words ≤ 64 }
{
    println!(rt; "Room for 4 nodes, but a memo of {memo_words} words")?;
    Words::<16, 512>::full_of(0).ask(rt, 4, memo_words, &lists::OTHER_MEMO, count)
}

// 64 edges, and no room for a 65th. What makes them has a line only where an answer is wrong.
fn sixty(rt: &impl Print, count: &mut Count) -> io::Result<()> {
    println!(rt;
        "Room for 80 nodes, and a memo of 8 words; 126 is x<0 or x=2 or x=4 and so on to x=62, 129 is x>=100; a line only where wrong"
    )?;
    let mut words = Words::<320, 512>::full_of(0);
    let mut memo = [0; 8];
    let mut lent = Lent {
        table: words.lend(80),
        memo: &mut memo,
    };
    // By number: question and answer follow from it, and 64 written out would be no plainer.
    for n in 0..lists::SIXTY_MAKES {
        run_one(rt, &mut lent, &lists::sixty(n), Lines::Wrong, count)?;
    }
    run(rt, &mut lent, &lists::SIXTY, Lines::All, count)
}

// An empty table with room for 4 nodes and 12 edges is asked a list; then the spare word of its first record is set to `spare`, and a list
// asked that leaves every word as found.
fn ask_and_refuse(
    rt: &impl Print,
    asks: &[Case],
    spare: u32,
    refuses: &[Case],
    count: &mut Count,
) -> io::Result<()> {
    let mut words = Words::<16, 12>::full_of(0);
    words.ask(rt, 4, 32, asks, count)?;
    words.nodes[3] = spare;
    let before = words;
    words.ask(rt, 4, 32, refuses, count)?;
    print!(rt; "    every word of the table is as found")?;
    count.judged(rt, words == before)
}

pub fn refused(rt: &impl Print, count: &mut Count) -> io::Result<()> {
    println!(rt; "Room for 4 nodes and 12 edges, and no free node")?;
    ask_and_refuse(rt, &lists::FILLS, 0, &lists::OVERFILLS, count)?;
    println!(rt; "Room for 4096 nodes, and for 4097")?;
    Words::<16384, 512>::full_of(0).ask(rt, 4096, 64, &lists::LARGEST, count)?;
    Words::<16388, 512>::full_of(0).ask(rt, 4097, 64, &lists::OVERSIZED, count)?;
    sixty(rt, count)?;
    println!(rt; "Room for 4 nodes and 12 edges")?;
    ask_and_refuse(rt, &lists::LAST, 0, &lists::TOO_FAR, count)?;
    println!(rt; "Room for 4 nodes and 12 edges, and then a spare word is set")?;
    ask_and_refuse(rt, &lists::SOME, 1, &lists::DAMAGED, count)
}
