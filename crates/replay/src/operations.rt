// What a line does, as README.md says it.
use super::lending::{Counts, Slice};
use super::line::{Line, Words};
use super::numbers::Number;
use super::questions::Question;
use ids::NodeId;
use ranges::bounds::{Bound, Comparison};

#[derive(Clone, Copy)]
pub enum Operation {
    Nothing,
    // Lends so many words of each slice.
    Lend(Counts),
    // Writes one word of a lent slice.
    SetWord {
        slice: Slice,
        at: usize,
        word: Number,
    },
    // Writes one place of the reading.
    SetPlace {
        at: usize,
        place: i64,
    },
    Ask(Question),
    // Shows every lent word.
    Show,
    Unknown,
}

// No operation has such a letter, or no slice such a number.
#[derive(Clone, Copy)]
pub struct Unknown;

impl From<Line> for Operation {
    fn from(line: Line) -> Operation {
        match line {
            Line::Empty | Line::Comment => Operation::Nothing,
            Line::Words(words) => Operation::from(words),
            Line::Wrong => Operation::Unknown,
        }
    }
}

impl From<Words> for Operation {
    fn from(words: Words) -> Operation {
        let [first, second, third, fourth, fifth, _] = words.numbers;
        match words.letter {
            b'l' => Operation::Lend(Counts {
                nodes: first.into(),
                children: second.into(),
                cuts: third.into(),
                index: fourth.into(),
                memo: fifth.into(),
            }),
            b'p' => match Slice::try_from(first) {
                Ok(slice) => Operation::SetWord {
                    slice,
                    at: second.into(),
                    word: third,
                },
                Err(Unknown) => Operation::Nothing,
            },
            b'q' => Operation::SetPlace {
                at: first.into(),
                place: second.into(),
            },
            b's' => Operation::Show,
            _ => Question::try_from(words).map_or(Operation::Unknown, Operation::Ask),
        }
    }
}

impl TryFrom<Words> for Question {
    type Error = Unknown;

    fn try_from(words: Words) -> Result<Question, Unknown> {
        let [first, second, third, fourth, fifth, sixth] = words.numbers;
        let x = NodeId(first.into());
        let y = NodeId(second.into());
        Ok(match words.letter {
            b'k' => Question::Check,
            b'f' => Question::Fresh,
            b'e' => Question::Evaluate {
                bools: first.into(),
                id: y,
            },
            b'c' => Question::FromComparison {
                variable: first.into(),
                comparison: second.into(),
                key: third.into(),
            },
            b'r' => Question::FromRange {
                variable: first.into(),
                lower: bound(second, third),
                upper: bound(fourth, fifth),
            },
            b'b' => Question::FromBool {
                variable: first.into(),
            },
            b'a' => Question::And(x, y),
            b'o' => Question::Or(x, y),
            b'd' => Question::IsDisjoint(x, y),
            b't' => Question::Restrict {
                id: x,
                variable: second.into(),
                value: third.size != 0,
            },
            b'n' => Question::Narrow {
                id: x,
                variable: second.into(),
                lower: bound(third, fourth),
                upper: bound(fifth, sixth),
            },
            b'w' => Question::Widen {
                id: x,
                variable: second.into(),
                lower: bound(third, fourth),
                upper: bound(fifth, sixth),
            },
            _ => return Err(Unknown),
        })
    }
}

// Numbered in the order of document 01: = != < <= > >=.
impl From<Number> for Comparison {
    fn from(n: Number) -> Comparison {
        match u32::from(n) {
            0 => Comparison::Equal,
            1 => Comparison::NotEqual,
            2 => Comparison::LessThan,
            3 => Comparison::LessEqual,
            4 => Comparison::GreaterThan,
            _ => Comparison::GreaterEqual,
        }
    }
}

// An open end has no key; what stands in its place is not looked at. No `From`: the two numbers of a pair would have no names.
fn bound(kind: Number, key: Number) -> Bound {
    match u32::from(kind) {
        0 => Bound::Open,
        1 => Bound::Includes(key.into()),
        _ => Bound::Excludes(key.into()),
    }
}
