// Every word of five sound tables, set to each of sixteen values and put back. Of the four small tables the index is put right each time that a
// word of a record or of an edge is changed. Then nodes of one hash, in both orders.
use super::laid::{Record, Records};
use super::tables::{BOOLEAN, HIGHEST, LOWEST, PARENT, RANGE, SOUND, TWINS, Words};
use super::told::{Checked, number_of};
use std::{fmt, io, mem};
use table::calls::check;
use table::lent::{Table, Used};
use table::refusal::Refusal;

const WORDS: [u32; 16] = [
    0, 1, 2, 3, 4, 5, 6, 7, 8, 9, 40, 63, 64, 65, 2147483648, 4294967295,
];

const PLACES: [i64; 16] = [
    0,
    1,
    -1,
    -5,
    -6,
    -4,
    9,
    10,
    11,
    HIGHEST,
    HIGHEST + 1,
    LOWEST + 1,
    LOWEST,
    i64::MIN,
    i64::MAX,
    12,
];

// How many tables were asked, how many of them were the sound one, and how many were taken.
#[derive(Clone, Copy, Default)]
struct Count {
    asked: u32,
    unchanged: u32,
    taken: u32,
}

impl Count {
    fn add(&mut self, unchanged: bool, taken: bool) {
        self.asked = self.asked.saturating_add(1);
        self.unchanged = self.unchanged.saturating_add(u32::from(unchanged));
        self.taken = self.taken.saturating_add(u32::from(taken));
    }
}

impl fmt::Display for Count {
    fn fmt<W: fmt::Write>(&self, f: &mut fmt::Formatter<W>) -> fmt::Result {
        write!(
            f,
            "asked {} unchanged {} taken {}",
            self.asked, self.unchanged, self.taken
        )
    }
}

// A line for each word of one part of a table: the number that is told when the word is set to each value. The other parts are with `judge`.
fn show_part<T: Copy + PartialEq, F: FnMut(&[T]) -> Result<Used, Refusal>>(
    rt: &impl Print,
    name: &str,
    words: &mut [T],
    values: &[T; 16],
    mut judge: F,
    count: &mut Count,
) -> io::Result<()>
    requires { F.IsAlwaysCallable judge }
{
    // By number: `judge` needs all words while one of them is changed.
    for i in 0..words.len() {
        print!(rt; "{name} {i} ")?;
        for value in values {
            let old = mem::replace(&mut words[i], *value);
            let told = judge(words);
            words[i] = old;
            print!(rt; "{}", number_of(told))?;
            count.add(*value == old, told.is_ok());
        }
        println!(rt)?;
    }
    Ok(())
}

// What the check tells once the index is right for the records.
fn check_laid(records: Records, index: &mut [u32]) -> Result<Used, Refusal> {
    records.lay(index);
    check(&Table {
        nodes: records.nodes,
        children: records.children,
        cuts: records.cuts,
        index,
    })
}

// One table all along: were a word not put back, the lines after it would tell.
fn show_table<const R: usize, const E: usize>(
    rt: &impl Print,
    name: &str,
    sound: Words<R, E>,
) -> io::Result<()> {
    println!(rt; "{name} {}", Checked(check(&sound.read())))?;
    let Words {
        mut nodes,
        mut children,
        mut cuts,
        mut index,
    } = sound;
    let mut count = Count::default();
    show_part(
        rt,
        "nodes",
        &mut nodes,
        &WORDS,
        |nodes| check_laid(Records::new(nodes, &children, &cuts), &mut index),
        &mut count,
    )?;
    show_part(
        rt,
        "children",
        &mut children,
        &WORDS,
        |children| check_laid(Records::new(&nodes, children, &cuts), &mut index),
        &mut count,
    )?;
    show_part(
        rt,
        "cuts",
        &mut cuts,
        &PLACES,
        |cuts| check_laid(Records::new(&nodes, &children, cuts), &mut index),
        &mut count,
    )?;
    // All words are as they were; now the index is again too.
    Records::new(&nodes, &children, &cuts).lay(&mut index);
    show_part(
        rt,
        "index",
        &mut index,
        &WORDS,
        |index| check(&Table {
            nodes: &nodes,
            children: &children,
            cuts: &cuts,
            index,
        }),
        &mut count,
    )?;
    println!(rt; "{count}")
}

// Two nodes of one hash, the first before the second, and then the other way round.
fn show_orders(rt: &impl Print, name: &str, nodes: [Record; 2], cuts: [i64; 5]) -> io::Result<()> {
    let children = [0, 1, 0, 1, 0];
    let records = Records::new(nodes.as_flattened(), &children, &cuts);
    let [first, second] = nodes;
    for leads in [true, false] {
        let index = records.index_in_order(&first, &second, leads);
        let told = check(&Table {
            nodes: records.nodes,
            children: &children,
            cuts: &cuts,
            index: &index,
        });
        println!(rt; "{name} {}", Checked(told))?;
    }
    Ok(())
}

// They differ in the cut alone, by 2^32; in variable and cut; in the number of edges and a cut. All have the hash of variable 0 with the cut 10.
fn show_one_hash(rt: &impl Print) -> io::Result<()> {
    show_orders(
        rt,
        "cuts",
        [[0, 2, 0, 0], [0, 2, 2, 0]],
        [-4294967286, 0, 10, 0, 0],
    )?;
    show_orders(
        rt,
        "variables",
        [[0, 2, 0, 0], [1, 2, 2, 0]],
        [10, 0, -1640531517, 0, 0],
    )?;
    show_orders(
        rt,
        "edges",
        [[0, 2, 0, 0], [0, 3, 2, 0]],
        [10, 0, -100, 2461748013, 0],
    )
}

pub fn show_words(rt: &impl Print) -> io::Result<()> {
    show_table(rt, "sound", SOUND)?;
    show_table(rt, "boolean", BOOLEAN)?;
    show_table(rt, "range", RANGE)?;
    show_table(rt, "twins", TWINS)?;
    show_table(rt, "parent", PARENT)?;
    show_one_hash(rt)
}
