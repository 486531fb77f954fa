// A rule's condition, read from the text into an id of the table.
ghost use Rattle.std.specs.Prelude.{◌<◌, ◌≤◌, length, IfOk, IfSome, OnOk};

use super::faults::{Fault, Refused};
use super::names::{Sheet, Variable};
use super::store::Store;
use super::text::{Word, Words};
use ids::NodeId;
use ranges::bounds::Comparison;
use std::str;

// What stands between two terms. `and` binds closer.
#[derive(Clone, Copy)]
enum Join {
    And,
    Or,
}

// The word behind a term, where there is one.
fn next_join<'a>(words: &mut Words<'a>) -> Result<Option<Join>, Refused<'a>>
    ensures { IfOk result (λ joined. IfSome joined (λ _. length words.new.rest.now < length words.old.rest.now)) }
{
    let Some(word) = words.next() else {
        return Ok(None);
    };
    match word.bytes {
        b"and" => Ok(Some(Join::And)),
        b"or" => Ok(Some(Join::Or)),
        _ => Err(Fault::NoJoin.at(Some(word))),
    }
}

// The comparison that a word is, if it is one.
fn comparison_of(word: Word<'_>) -> Option<Comparison> {
    match word.bytes {
        b"=" => Some(Comparison::Equal),
        b"!=" => Some(Comparison::NotEqual),
        b"<" => Some(Comparison::LessThan),
        b"<=" => Some(Comparison::LessEqual),
        b">" => Some(Comparison::GreaterThan),
        b">=" => Some(Comparison::GreaterEqual),
        _ => None,
    }
}

// The key that a word is, if it is one. A `+`, which the library reads in front of a number, is no part of a word that has digits.
fn key_of(word: Word<'_>) -> Option<i32> {
    str::from_utf8(word.bytes).ok()?.parse().ok()
}

// `OP KEY`, behind a measure.
fn compared<'a>(words: &mut Words<'a>) -> Result<(Comparison, i32), Refused<'a>>
    ensures { OnOk result (length words.new.rest.now ≤ length words.old.rest.now) }
{
    let op = words.next();
    let comparison = op
        .and_then(comparison_of)
        .ok_or(Fault::NoComparison.at(op))?;
    let number = words.next();
    let key = number.and_then(key_of).ok_or(Fault::NoKey.at(number))?;
    Ok((comparison, key))
}

impl<'a> Sheet<'a> {
    // The variable of a term, and whether `not` stands before it.
    fn subject(&self, words: &mut Words<'a>) -> Result<(Variable, bool), Refused<'a>>
        ensures { OnOk result (length words.new.rest.now ≤ length words.old.rest.now) }
    {
        let mut word = words.next();
        let negated = word.is_some_and(|w| w.bytes == b"not".as_slice());
        if negated {
            word = words.next();
        }
        let named = word
            .filter(|w| w.starts_as_name())
            .ok_or(Fault::NoTerm.at(word))?;
        let variable = named
            .as_name()
            .and_then(|name| self.variable(name))
            .ok_or(Fault::UnknownName.at(word))?;
        if negated && matches!(variable, Variable::Measure(_)) {
            return Err(Fault::NoSwitch.at(word));
        }
        Ok((variable, negated))
    }

    // A term: a measure compared with a key, a switch, or `not` and a switch.
    fn term(&self, words: &mut Words<'a>, store: &mut Store<'_>) -> Result<NodeId, Refused<'a>>
        ensures { OnOk result (length words.new.rest.now ≤ length words.old.rest.now) }
    {
        let (variable, negated) = self.subject(words)?;
        match variable {
            Variable::Measure(v) => {
                let (op, key) = compared(words)?;
                Ok(store.comparison(v, op, key)?)
            }
            Variable::Switch(v) => {
                let id = store.switch(v)?;
                Ok(if negated { id.not() } else { id })
            }
        }
    }

    // The condition from here to the end of the line. `all` is what the terms since the last `or` say together, and `any` what stands before
    // that `or`.
    pub fn condition(&self, from: Words<'a>, store: &mut Store<'_>) -> Result<NodeId, Refused<'a>> {
        let mut words = from;
        let mut any = NodeId::FALSE;
        let mut all = NodeId::TRUE;
        loop {
            let term = self.term(&mut words, store)?;
            all = store.and(all, term)?;
            match next_join(&mut words)? {
                Some(Join::And) => {}
                Some(Join::Or) => {
                    any = store.or(any, all)?;
                    all = NodeId::TRUE;
                }
                None => return Ok(store.or(any, all)?),
            }
        }
    }
}
