// Reads operations from standard input, one a line, and writes what the kernel's own calls answer to each. Recorded answers and a judge in
// Rust are held against it (docs/TESTING.md). Whatever it reads, it goes on to the end of the input.

#![tactic(auto)]

use std::io;
use std::io::{Read, Write};

mod lending;
mod line;
mod numbers;
mod operations;
mod output;
mod questions;

use lending::Held;
use line::Line;
use operations::Operation;
use output::{BUFFER, Output};

fn main(rt: HostRuntime) -> io::Result<()> {
    let mut held = Held::new();
    let mut out = Output::new(&rt);
    let mut input = [0u8; BUFFER];
    let mut line = Line::Empty;
    // A proved loop has to end, and nothing says that the input does. So the reads are counted, up to a number that no run reaches.
    for _ in 0..u64::MAX {
        // What waits is written before: whoever is to send the next lines may be waiting for it.
        out.flush()?;
        // A failed read is taken as the end of the input.
        let count = rt.reader().read(&mut input).unwrap_or(0);
        if count == 0 {
            break;
        }
        for &byte in &input[..count] {
            if byte == b'\n' {
                held.run(Operation::from(line), &mut out)?;
                line = Line::Empty;
            } else {
                line.push(byte);
            }
        }
    }
    // The end of the input ends the last line.
    held.run(Operation::from(line), &mut out)?;
    out.flush()
}
