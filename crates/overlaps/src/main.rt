// Reads a set of rules from standard input, and tells which of them can both hold in one delivery. README.md beside src/ has the language.
// The last line is the verdict, one of three; `run` at the root makes the exit status of it.

#![tactic(auto)]

ghost use Rattle.std.specs.Prelude.{◌≤◌, length};

use std::env::FillError;
use std::io::Read;
use std::rt::Env;
use std::{fmt, io};

mod characters;
mod faults;
mod lines;
mod names;
mod report;
mod rules;
mod store;
mod text;

use lines::{MOST_SHOWN, Unread};
use names::Sheet;
use report::{Asked, Report};
use store::Store;
use table::lent::{TableMut, Used};
use table::limits::{INDEX_WORDS, MEMO_WORDS, MOST_EDGE_ROOM, MOST_NODES, RECORD_WORDS};

// The most that is read.
const MOST_TEXT: usize = 262144;

#[derive(Clone, Copy)]
enum Verdict {
    NoneOverlap,
    SomeOverlap,
    NoReport,
}

impl fmt::Display for Verdict {
    fn fmt<W: fmt::Write>(&self, f: &mut fmt::Formatter<W>) -> fmt::Result {
        match self {
            Verdict::NoneOverlap => write!(f, "no two rules overlap"),
            Verdict::SomeOverlap => write!(f, "some rules overlap"),
            Verdict::NoReport => write!(f, "no report"),
        }
    }
}

// Why there is no report, where lines could not be read.
fn show_unread(rt: &impl Print, unread: Unread) -> io::Result<()> {
    let Unread { lines, at_limit } = unread;
    print!(rt; "\nLines that cannot be read: {lines}")?;
    if lines > MOST_SHOWN {
        print!(rt; " (not all are shown)")?;
    }
    if at_limit {
        print!(rt; "; at a limit reading stops")?;
    }
    println!(rt; ".\nNo pairs are reported: a report without these lines could hide an overlap.")
}

// Reads the rules into an empty table and reports on them, if there are some and every line could be read. The table has all the room that
// the kernel allows, and so has the memo: docs/LAYOUT.md. All words 0 is the empty table.
fn compare(rt: &impl Print, text: &[u8], asked: Asked) -> io::Result<Verdict> {
    let mut nodes = [0u32; MOST_NODES * RECORD_WORDS];
    let mut children = [0u32; MOST_EDGE_ROOM];
    let mut cuts = [0i64; MOST_EDGE_ROOM];
    let mut index = [0u32; MOST_NODES * INDEX_WORDS];
    let mut memo = [0u64; MOST_NODES * MEMO_WORDS];
    let table = TableMut {
        nodes: &mut nodes,
        children: &mut children,
        cuts: &mut cuts,
        index: &mut index,
    };
    let mut store = Store {
        table,
        memo: &mut memo,
    };
    let mut sheet = Sheet::new();
    let unread = sheet.read(rt, text, &mut store)?;
    if unread.lines > 0 {
        show_unread(rt, unread)?;
        return Ok(Verdict::NoReport);
    }
    report_on(rt, &sheet, asked, &mut store)
}

// The report on rules that could all be read, and how much of the table they take.
fn report_on(
    rt: &impl Print,
    sheet: &Sheet,
    asked: Asked,
    store: &mut Store,
) -> io::Result<Verdict> {
    let rules = sheet.rules.as_slice();
    if rules.is_empty() {
        println!(rt; "No rules found: no line starts with the word rule.")?;
        return Ok(Verdict::NoReport);
    }
    let Used { nodes, edges } = store.used();
    let tally = Report::new(rules, asked).show(rt, rules, store)?;
    let count = rules.len();
    let measures = sheet.measures.as_slice().len();
    let switches = sheet.switches.as_slice().len();
    println!(rt;
        "rules: {count}, measures: {measures}, switches: {switches}; table: {nodes} of {MOST_NODES} nodes, {edges} of {MOST_EDGE_ROOM} edges"
    )?;
    if tally.refused > 0 {
        return Ok(Verdict::NoReport);
    }
    if tally.overlapping() > 0 {
        return Ok(Verdict::SomeOverlap);
    }
    Ok(Verdict::NoneOverlap)
}

// Reads until the buffer is full, the input has ended or a read has failed, and answers how many bytes were read. Each read but the last
// brings a byte, so there are no more reads than bytes.
fn read_full(rt: &impl Input, buffer: &mut [u8]) -> usize
    ensures { result ≤ length buffer.new }
{
    let mut done = 0;
    for _ in 0..buffer.len() {
        let n = rt.reader().read(&mut buffer[done..]).unwrap_or(0);
        if n == 0 {
            break;
        }
        done += n;
    }
    done
}

// The whole text from standard input. One byte is asked for behind what was read: 0 is the end of the input, and anything else a text that
// is too long or a failed read.
fn read_and_compare(rt: &(impl Print + Input), asked: Asked) -> io::Result<Verdict> {
    // An array and the count of its bytes, since a `Vec` would be on the heap.
    let mut text = [0u8; MOST_TEXT];
    let n = read_full(rt, &mut text);
    let mut behind = [0u8; 1];
    match rt.reader().read(&mut behind) {
        Err(_) => {
            println!(rt; "The rules could not be read to their end. No pairs are reported.")?;
            Ok(Verdict::NoReport)
        }
        Ok(0) => compare(rt, &text[..n], asked),
        Ok(_) => {
            println!(rt; "limit: {MOST_TEXT} bytes of text. No pairs are reported.")?;
            Ok(Verdict::NoReport)
        }
    }
}

// Without an argument the findings; with --all every pair and every rule. Nothing else can be asked.
fn what_is_asked(rt: &impl Env) -> Option<Asked> {
    let mut word = [0u8; 8];
    let mut behind = [0u8; 1];
    match (rt.arg(1, &mut word), rt.arg(2, &mut behind)) {
        (Err(FillError::NotPresent), _) => Some(Asked::Findings),
        (Ok(n), Err(FillError::NotPresent)) if &word[..n] == b"--all".as_slice() => {
            Some(Asked::All)
        }
        _ => None,
    }
}

fn main(rt: HostRuntime) -> io::Result<()> {
    let verdict = match what_is_asked(&rt) {
        Some(asked) => read_and_compare(&rt, asked)?,
        None => {
            println!(&rt; "The only argument is --all. No pairs are reported.")?;
            Verdict::NoReport
        }
    };
    println!(&rt; "\nverdict: {verdict}")
}
