// Whole numbers as they stand in a line, and as the calls take them. One that does not fit is taken as the nearest that does.

// The size of the lowest i64, where longer numbers stay.
const LIMIT: u64 = 1 << 63;

// A sign, and the digits behind it: a word of the memo can be 2^63, which no i64 holds. A missing number is 0.
#[derive(Clone, Copy, Default)]
pub struct Number {
    pub minus: bool,
    pub size: u64,
}

impl Number {
    // The number gets a digit more.
    pub fn push(&mut self, digit: u8) {
        self.size = if self.size > LIMIT / 10 {
            LIMIT
        } else {
            self.size * 10 + u64::from(digit)
        };
    }
}

// A cut or a place.
impl From<Number> for i64 {
    fn from(n: Number) -> i64 {
        if n.minus {
            return 0i64.saturating_sub_unsigned(n.size);
        }
        0i64.saturating_add_unsigned(n.size)
    }
}

// A key.
impl From<Number> for i32 {
    fn from(n: Number) -> i32 {
        i64::from(n).clamp(i64::from(i32::MIN), i64::from(i32::MAX)) as i32
    }
}

// A variable, an id, a word, or one of the few numbers that name a kind.
impl From<Number> for u32 {
    fn from(n: Number) -> u32 {
        i64::from(n).clamp(0, i64::from(u32::MAX)) as u32
    }
}

// How many words, or which of them.
impl From<Number> for usize {
    fn from(n: Number) -> usize {
        u32::from(n) as usize
    }
}
