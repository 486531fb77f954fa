// A line as it comes in, byte by byte: a letter, then whole numbers with one space before each. A line may be longer than any buffer and
// may come in any number of pieces, so nothing here looks back at bytes that were read.
use super::numbers::Number;

// The most numbers that an operation takes. Those behind them are read and dropped.
const MOST: usize = 6;

#[derive(Clone, Copy)]
pub enum Line {
    // No byte yet.
    Empty,
    // It begins with `#`.
    Comment,
    Words(Words),
    // It is not of that form.
    Wrong,
}

impl Line {
    // The line gets a byte more, which is not its end.
    pub fn push(&mut self, byte: u8) {
        match self {
            Line::Empty if byte == b'#' => *self = Line::Comment,
            Line::Empty => *self = Line::Words(Words::new(byte)),
            Line::Words(words) => {
                if words.push(byte).is_err() {
                    *self = Line::Wrong;
                }
            }
            Line::Comment | Line::Wrong => {}
        }
    }
}

// A byte may not stand where it does.
#[derive(Clone, Copy)]
struct Misplaced;

// A letter, and the numbers behind it. How many there are stands beside them, since a list that grows would be on the heap.
#[derive(Clone, Copy)]
pub struct Words {
    pub letter: u8,
    pub numbers: [Number; MOST],
    // How many numbers have begun.
    begun: usize,
    // Whether the last byte was a space, so that a minus may come.
    spaced: bool,
}

impl Words {
    // A letter, and no number yet.
    fn new(letter: u8) -> Words {
        Words {
            letter,
            numbers: [Number::default(); MOST],
            begun: 0,
            spaced: false,
        }
    }

    // The words get a byte more.
    fn push(&mut self, byte: u8) -> Result<(), Misplaced> {
        match byte {
            // A number begins.
            b' ' => {
                self.begun = self.begun.saturating_add(1);
                self.spaced = true;
            }
            // A number is below 0, if the minus stands right behind the space.
            b'-' if self.spaced => {
                self.spaced = false;
                if let Some(number) = self.last_mut() {
                    number.minus = true;
                }
            }
            // A number has a digit more, if one has begun.
            b'0'..=b'9' if self.begun > 0 => {
                if let Some(number) = self.last_mut() {
                    number.push(byte - b'0');
                    self.spaced = false;
                }
            }
            _ => return Err(Misplaced),
        }
        Ok(())
    }

    // The number that began last, unless it is one of those that are dropped.
    fn last_mut(&mut self) -> Option<&mut Number> {
        let last = self.begun.checked_sub(1)?;
        self.numbers.get_mut(last)
    }
}
