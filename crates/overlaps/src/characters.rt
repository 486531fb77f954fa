// A character that no rule may have, named for the reader.
use std::fmt;

// The text from a byte outside ASCII on, and whether the whole text starts there.
#[derive(Clone, Copy)]
pub struct Far<'a> {
    pub from: &'a [u8],
    pub starts_text: bool,
}

// What stands there, and its bytes. The three that come from an editor and cannot be seen are named in words. Letters of European scripts and
// signs of mathematics are shown as they stand; a terminal might do anything at others.
impl fmt::Display for Far<'_> {
    fn fmt<W: fmt::Write>(&self, f: &mut fmt::Formatter<W>) -> fmt::Result {
        let start = self.from.get(..3).unwrap_or(self.from);
        let Some((first, behind)) = start.split_first() else {
            return Ok(());
        };
        let shown = start
            .utf8_chunks()
            .next()
            .and_then(|chunk| chunk.valid().chars().next());
        match shown {
            Some('\u{feff}') => write!(f, "a byte order mark stands here ")?,
            Some('\u{a0}') => write!(f, "a no-break space stands here ")?,
            Some(c @ ('\u{a1}'..='\u{57f}' | '\u{2200}'..='\u{22ff}')) => {
                write!(f, "a character outside ASCII stands here: {c} ")?
            }
            _ if self.starts_text && *first >= 254 => {
                write!(f, "a byte order mark of UTF-16 stands here ")?
            }
            _ => write!(f, "a character outside ASCII stands here: ")?,
        }
        write!(f, "(bytes {first:02x}")?;
        for byte in behind {
            if matches!(byte, 128..=191) {
                write!(f, " {byte:02x}")?;
            }
        }
        write!(f, ")")
    }
}
