// The text as lines, and a line as words. Both are parts of the text: nothing is copied.
ghost use Rattle.std.specs.Prelude.{◌<◌, ◌≤◌, length};
ghost use Rattle.std.specs.Iterator.{at_most};

use std::str;

// What kind of byte it is.
#[derive(Clone, Copy, PartialEq, Eq)]
enum Kind {
    Blank,
    // Letters, digits, `_` and `-`.
    Name,
    Sign,
    // `.` and `,`, which no name and no key has.
    Point,
    // Outside ASCII. These may stand in comments.
    Far,
    // `#`, which starts a comment.
    Hash,
    Newline,
    Other,
}

// A carriage return ends a line, with a line feed behind it or without, and so do a vertical tab (11) and a form feed (12): where an editor
// shows a new line, no comment goes on.
impl From<u8> for Kind {
    fn from(byte: u8) -> Kind {
        match byte {
            b' ' | b'\t' => Kind::Blank,
            b'a'..=b'z' | b'A'..=b'Z' | b'0'..=b'9' | b'_' | b'-' => Kind::Name,
            b'=' | b'!' | b'<' | b'>' => Kind::Sign,
            b'.' | b',' => Kind::Point,
            b'#' => Kind::Hash,
            b'\n' | b'\r' | 11 | 12 => Kind::Newline,
            128..=255 => Kind::Far,
            _ => Kind::Other,
        }
    }
}

impl Kind {
    // Whether a word that starts as a name or a number does, or outside ASCII, goes on with a byte of this kind. 1.5 is one word, so that it is
    // refused as the number that was meant; so is a name with letters outside ASCII.
    fn goes_on_name(self) -> bool {
        matches!(self, Kind::Name | Kind::Point | Kind::Far)
    }
}

// A word, and the text from it on: a character of it that is broken off may go on behind it.
#[derive(Clone, Copy)]
pub struct Word<'a> {
    pub bytes: &'a [u8],
    pub from: &'a [u8],
}

impl<'a> Word<'a> {
    // Whether it starts as a name does, or a number.
    pub fn starts_as_name(&self) -> bool {
        self.bytes
            .first()
            .is_some_and(|b| Kind::from(*b) == Kind::Name)
    }

    // The word as text, where it has nothing but what a name may have.
    pub fn as_name(&self) -> Option<&'a str> {
        if self.bytes.iter().all(|b| Kind::from(*b) == Kind::Name) {
            str::from_utf8(self.bytes).ok()
        } else {
            None
        }
    }

    // The text from the first byte outside ASCII of the word on, if it has one.
    pub fn far(&self) -> Option<&'a [u8]> {
        let n = self.bytes.iter().position(|b| !b.is_ascii())?;
        self.from.get(n..)
    }
}

// The words of a line: a word is a run of letters, digits, `_` and `-`, or of = ! < >, or of other bytes. There is none at the end of the line
// and at a comment.
#[derive(Clone, Copy)]
pub struct Words<'a> {
    pub rest: &'a [u8],
}

// The text behind the bytes in front that are of a kind.
fn behind<F: Fn(u8) -> bool>(text: &[u8], is_of_kind: F) -> &[u8]
    requires { F.IsAlwaysCallable is_of_kind }
    ensures { length result.now ≤ length text.now }
{
    let n = text
        .iter()
        .position(|b| !is_of_kind(*b))
        .unwrap_or(text.len());
    &text[n..]
}

impl<'a> Iterator for Words<'a> {
    type Item = Word<'a>;

    ghost remaining = { λ s. at_most (length s.rest.now) };

    fn next(&mut self) -> Option<Word<'a>> {
        let from = behind(self.rest, |b| Kind::from(b) == Kind::Blank);
        let (first, tail) = from.split_first()?;
        let kind = Kind::from(*first);
        if matches!(kind, Kind::Hash | Kind::Newline) {
            return None;
        }
        // The kind of the first byte is looked at once, and not again beside each byte.
        self.rest = match kind {
            Kind::Name | Kind::Far => behind(tail, |b| Kind::from(b).goes_on_name()),
            _ => behind(tail, |b| Kind::from(b) == kind),
        };
        let n = from.len() - self.rest.len();
        Some(Word {
            bytes: &from[..n],
            from,
        })
    }
}

// The lines of the text, each as the words from its start on.
#[derive(Clone, Copy)]
pub struct Lines<'a> {
    pub rest: &'a [u8],
}

// The text from the next line on. A line feed behind a carriage return belongs to it. A line separator of Unicode, that is U+0085, U+2028 or
// U+2029 in UTF-8, is the start of the next line, since some editors show a new line there, and cannot be read there: so it is named, and
// nothing behind it is lost in a comment. A line that starts with one does not end there.
fn behind_line(text: &[u8]) -> &[u8]
    ensures { (0 < length text.now) → length result.now < length text.now }
{
    let mut rest = text;
    loop {
        match rest {
            [] => return rest,
            [b'\r', b'\n', next @ ..] => return next,
            [b'\n' | b'\r' | 11 | 12, next @ ..] => return next,
            [194, 133, ..] | [226, 128, 168 | 169, ..] if rest.len() < text.len() => return rest,
            [_, next @ ..] => rest = next,
        }
    }
}

impl<'a> Iterator for Lines<'a> {
    type Item = Words<'a>;

    ghost remaining = { λ s. at_most (length s.rest.now) };

    fn next(&mut self) -> Option<Words<'a>> {
        if self.rest.is_empty() {
            return None;
        }
        let rest = self.rest;
        self.rest = behind_line(rest);
        Some(Words { rest })
    }
}
