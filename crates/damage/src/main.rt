// Damages sound tables one word at a time and shows what the check tells of each; then lengths, refusals, readings and a fresh table.
// What it must write is stated apart from the kernel, by expected.py from document 01.

#![tactic(auto)]

use std::io;

mod fresh;
mod laid;
mod lengths;
mod readings;
mod tables;
mod told;
mod words;

fn main(rt: HostRuntime) -> io::Result<()> {
    words::show_words(&rt)?;
    lengths::show_lengths(&rt)?;
    readings::show_refusals(&rt)?;
    readings::show_readings(&rt)?;
    fresh::show_fresh(&rt)
}
