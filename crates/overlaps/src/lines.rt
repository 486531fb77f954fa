// The lines of the text: each declares a measure or a switch, or is a rule.
use super::faults::{Fault, Limit, Refused, Unreadable};
use super::names::{Rule, Sheet, VariableKind};
use super::store::Store;
use super::text::{Lines, Words};
use std::io;

// So many lines that cannot be read are shown. All are counted, and a limit is always shown.
pub const MOST_SHOWN: u64 = 20;

// How many lines could not be read, and whether a limit was hit, so that no more were.
#[derive(Clone, Copy)]
pub struct Unread {
    pub lines: u64,
    pub at_limit: bool,
}

impl<'a> Sheet<'a> {
    // `NAME` of a new variable, and nothing behind it: the next variable of its kind gets the name.
    fn read_variable(
        &mut self,
        words: &mut Words<'a>,
        kind: VariableKind,
    ) -> Result<(), Refused<'a>> {
        let word = words.next();
        let name = self.new_variable(word).map_err(|why| why.at(word))?;
        let stray = words.next();
        if stray.is_some() {
            return Err(Fault::StrayWord.at(stray));
        }
        let put = match kind {
            VariableKind::Measure => self.measures.push(name, Limit::Measures),
            VariableKind::Switch => self.switches.push(name, Limit::Switches),
        };
        put.map_err(|why| why.at(word))
    }

    // Which limit a condition has hit, where the kernel found no room for it: that of the table, where it has room in a table of its own, as
    // far as it can be read, or else one of its own. What the table had is lost.
    fn limit_of(&self, condition: Words<'a>, store: &mut Store<'_>) -> Limit {
        let used = store.used();
        store.empty();
        match self.condition(condition, store) {
            Err(refused) if refused.is_no_room() => Limit::Condition,
            _ => Limit::Table(used),
        }
    }

    // `NAME: CONDITION`.
    fn read_rule(
        &mut self,
        words: &mut Words<'a>,
        store: &mut Store<'_>,
    ) -> Result<(), Refused<'a>> {
        let word = words.next();
        let name = self.new_rule(word).map_err(|why| why.at(word))?;
        let colon = words.next();
        if !colon.is_some_and(|w| w.bytes == b":".as_slice()) {
            return Err(Fault::NoColon.at(colon));
        }
        let condition = *words;
        let id = match self.condition(condition, store) {
            Err(refused) if refused.is_no_room() => {
                return Err(Fault::Hit(self.limit_of(condition, store)).at(word));
            }
            read => read?,
        };
        self.rules
            .push(Rule { name, id }, Limit::Rules)
            .map_err(|why| why.at(word))
    }

    // One line. Its first word says what it is; an empty line and a comment say nothing.
    fn read_line(&mut self, line: Words<'a>, store: &mut Store<'_>) -> Result<(), Refused<'a>> {
        let mut words = line;
        let Some(word) = words.next() else {
            return Ok(());
        };
        match word.bytes {
            b"measure" => self.read_variable(&mut words, VariableKind::Measure),
            b"switch" => self.read_variable(&mut words, VariableKind::Switch),
            b"rule" => self.read_rule(&mut words, store),
            _ => Err(Fault::UnknownLine.at(Some(word))),
        }
    }

    // The whole text, or as much of it as comes before a limit. A line that cannot be read is shown at once.
    pub fn read(
        &mut self,
        rt: &impl Print,
        text: &'a [u8],
        store: &mut Store<'_>,
    ) -> io::Result<Unread> {
        let mut unread = Unread {
            lines: 0,
            at_limit: false,
        };
        for (words, line) in (Lines { rest: text }).zip(1u64..) {
            let Err(refused) = self.read_line(words, store) else {
                continue;
            };
            unread.at_limit = refused.why.is_limit();
            if unread.at_limit || unread.lines < MOST_SHOWN {
                let shown = Unreadable {
                    text,
                    line,
                    refused,
                };
                println!(rt; "{shown}")?;
            }
            unread.lines = unread.lines.saturating_add(1);
            if unread.at_limit {
                break;
            }
        }
        Ok(unread)
    }
}
