// How many cases were run, and how many answers were not the document's.
use std::{fmt, io};

// It goes beside `rt` and not with it: a handle is a parameter of its own, so that each function says by a bound what it does with the runtime.
#[derive(Clone, Copy, Default)]
pub struct Count {
    run: u32,
    wrong: u32,
}

impl Count {
    pub fn add(&mut self, right: bool) {
        self.run = self.run.saturating_add(1);
        if !right {
            self.wrong = self.wrong.saturating_add(1);
        }
    }

    // Counts one more, and ends its line.
    pub fn judged(&mut self, rt: &impl Print, right: bool) -> io::Result<()> {
        self.add(right);
        println!(rt; " {}", if right { "ok" } else { "WRONG" })
    }
}

impl fmt::Display for Count {
    fn fmt<W: fmt::Write>(&self, f: &mut fmt::Formatter<W>) -> fmt::Result {
        write!(f, "{} cases, {} wrong", self.run, self.wrong)
    }
}
