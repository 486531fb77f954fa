// Runs the cases of document 01, "Ids from a fresh table", on lent tables: C1 to C16, examples of restriction, narrowing and widening, and
// refusals that go before a shortcut; then the same with other lengths of memo. A line a case: what was asked, what the kernel answered, and whether that is what the document says.

#![tactic(auto)]

use count::Count;
use std::io;

mod asking;
mod count;
mod lists;
mod questions;
mod records;
mod tables;

fn main(rt: HostRuntime) -> io::Result<()> {
    let mut count = Count::default();
    tables::shown(&rt, &mut count)?;
    tables::refused(&rt, &mut count)?;
    tables::with_other_memos(&rt, &mut count)?;
    println!(rt; "{count}")
}
