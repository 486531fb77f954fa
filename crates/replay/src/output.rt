// What waits to be written.
ghost use Rattle.std.specs.Prelude.{◌≤◌};
ghost use Rattle.replay.specs.declared.output.TheConstants.{BUFFER};

use std::fmt::Display;
use std::io;
use std::io::Write;

// Bytes read or written at once.
pub const BUFFER: usize = 65536;

// The first so many bytes of the buffer wait. It is no `BufWriter` of std, since those are on the heap.
#[derive(Drop)]
pub struct Output<'a, R> {
    rt: &'a R,
    buffer: [u8; BUFFER],
    waiting: usize,
    ghost held: { waiting ≤ BUFFER },
}

impl<'a, R: Print> Output<'a, R> {
    pub fn new(rt: &'a R) -> Output<'a, R> {
        Output {
            rt,
            buffer: [0; BUFFER],
            waiting: 0,
        }
    }

    // The words up to the last one that is not 0, each with a space after it, and then a bar.
    pub fn words<T: Copy + Default + Display + PartialEq>(
        &mut self,
        words: &[T],
    ) -> io::Result<()> {
        if let Some(last) = words.iter().rposition(|word| *word != T::default()) {
            for word in &words[..=last] {
                write!(self, "{word} ")?;
            }
        }
        write!(self, "|")
    }
}

impl<R: Print> Write for Output<'_, R> {
    // As many bytes as there is room for. A full buffer is written first.
    fn write(&mut self, bytes: &[u8]) -> io::Result<usize> {
        if self.waiting == BUFFER {
            self.flush()?;
        }
        let room = &mut self.buffer[self.waiting..];
        let count = bytes.len().min(room.len());
        room[..count].copy_from_slice(&bytes[..count]);
        self.waiting += count;
        Ok(count)
    }

    // Writes what waits.
    fn flush(&mut self) -> io::Result<()> {
        io::writer(self.rt).write_all(&self.buffer[..self.waiting])?;
        self.waiting = 0;
        Ok(())
    }
}
