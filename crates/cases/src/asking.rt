// Asks a table a list of questions.
use super::count::Count;
use super::questions::{Case, Question, Value};
use super::records::record;
use ids::NodeId;
use kernel::changes_calls::{narrow, restrict, widen};
use kernel::conditions_calls::{from_bool, from_comparison, from_range};
use kernel::disjointness_calls::is_disjoint;
use kernel::joins_calls::{and, or};
use std::io;
use table::calls::{check, evaluate};
use table::lent::{Table, TableMut};
use table::refusal::Refusal;

// What every word of the memo is before each call: it is scratch, and never believed. Were it, its first word would say that one set of
// eight words is in use, and the words behind that set would stay.
const SOILED: u64 = 262221;

// Boolean a on, and all others off.
const ONLY_A: u32 = 1;

// Which cases have a line.
#[derive(Clone, Copy, PartialEq, Eq)]
pub enum Lines {
    All,
    Wrong,
}

// What is lent.
#[derive(Drop)]
pub struct Lent<'a> {
    pub table: TableMut<'a>,
    pub memo: &'a mut [u64],
}

// What the call leaves in every word of a memo that it was lent: "memo all zero" beside 0 and 6, "everything as found" beside the other
// refusals.
fn memo_after(told: Result<Value, Refusal>) -> u64 {
    match told {
        Ok(_) | Err(Refusal::NoRoom) => 0,
        Err(_) => SOILED,
    }
}

fn ask(lent: &mut Lent, question: Question) -> Result<Value, Refusal> {
    let table = &mut lent.table;
    let memo = &mut *lent.memo;
    match question {
        Question::Compare(v, op, key) => from_comparison(table, v.0, op, key).map(Value::Id),
        Question::Between(v, low, high) => from_range(table, v.0, low, high).map(Value::Id),
        Question::Boolean(v) => from_bool(table, v.0).map(Value::Id),
        Question::And(x, y) => and(table, memo, x, y).map(Value::Id),
        Question::Or(x, y) => or(table, memo, x, y).map(Value::Id),
        Question::Restrict(x, v, value) => restrict(table, memo, x, v.0, value).map(Value::Id),
        Question::Narrow(x, v, low, high) => narrow(table, memo, x, v.0, low, high).map(Value::Id),
        Question::Widen(x, v, low, high) => widen(table, memo, x, v.0, low, high).map(Value::Id),
        Question::Disjoint(x, y) => is_disjoint(&table.read(), x, y).map(Value::Yes),
        Question::Read(x, place) => read(&table.read(), x, place).map(Value::Yes),
        Question::Edges(x) => edges(&table.read(), x).map(Value::Count),
        Question::FirstCut(x) => first_cut(&table.read(), x).map(Value::Cut),
        Question::AllNodes => check(&table.read()).map(|used| Value::Count(used.nodes)),
        Question::AllEdges => check(&table.read()).map(|used| Value::Count(used.edges)),
    }
}

// x at a place, with a true and all else 0.
fn read(table: &Table, id: NodeId, place: i64) -> Result<bool, Refusal> {
    let mut places = [0; 32];
    places[0] = place;
    evaluate(table, &places, ONLY_A, id)
}

fn edges(table: &Table, id: NodeId) -> Result<usize, Refusal> {
    let [_, count, _, _] = record(table, id).ok_or(Refusal::UnknownId)?;
    Ok(*count as usize)
}

fn first_cut(table: &Table, id: NodeId) -> Result<i64, Refusal> {
    let [_, _, first, _] = record(table, id).ok_or(Refusal::UnknownId)?;
    table
        .cuts
        .get(*first as usize)
        .copied()
        .ok_or(Refusal::UnknownId)
}

fn is_right(memo: &[u64], case: &Case, told: Result<Value, Refusal>) -> bool {
    let after = memo_after(told);
    told == case.wants && (!case.asks.is_lent_memo() || memo.iter().all(|word| *word == after))
}

// One line for a case.
fn show(rt: &impl Print, case: &Case, told: Result<Value, Refusal>) -> io::Result<()> {
    print!(rt; "{case}: ")?;
    match told {
        Ok(value) => print!(rt; "{value}")?,
        Err(refusal) => print!(rt; "refusal {} and {}", refusal.number(), case.asks.refused())?,
    }
    if case.asks.is_lent_memo() {
        let zeroed = memo_after(told) == 0;
        print!(rt; ", memo {}", if zeroed { "zero" } else { "as found" })?;
    }
    Ok(())
}

// Asks one question. Where only wrong answers have a line, a right one has none.
pub fn run_one(
    rt: &impl Print,
    lent: &mut Lent,
    case: &Case,
    lines: Lines,
    count: &mut Count,
) -> io::Result<()> {
    lent.memo.fill(SOILED);
    let told = ask(lent, case.asks);
    let right = is_right(lent.memo, case, told);
    if right && lines == Lines::Wrong {
        count.add(true);
        return Ok(());
    }
    show(rt, case, told)?;
    count.judged(rt, right)
}

pub fn run(
    rt: &impl Print,
    lent: &mut Lent,
    cases: &[Case],
    lines: Lines,
    count: &mut Count,
) -> io::Result<()> {
    for case in cases {
        run_one(rt, lent, case, lines, count)?;
    }
    Ok(())
}
