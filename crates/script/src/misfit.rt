ghost use Rattle.std.specs.Prelude.{◌≡◌, Some};
ghost use Rattle.script.specs.FaultValue.{misfit_value};
ghost use Rattle.script.specs.Misfit.{misfit_of, misfit_in, slots_value, FirstMisfit};

use crate::quoted::Quoted;
use crate::slots::Slots;
use lexer::{Words, is_text, without_comment};
use registry::BookName;
use std::fmt;

/// What does not fit in a bad line.
#[derive(Clone, Copy, PartialEq, Eq, Debug)]
pub enum Misfit<'a> {
    /// A byte is no text.
    NoText,
    /// This word: what stands before it begins a line of some form, and with it no form goes on.
    Word(&'a [u8]),
    /// A word is missing at the end.
    TooShort,
}

/// What does not fit, in words.
impl fmt::Display for Misfit<'_> {
    ghost use Rattle.script.specs.Texts.{misfit_text};

    ghost output = { λ x. Some (misfit_text (misfit_value x)) };

    fn fmt<W: fmt::Write>(&self, f: &mut fmt::Formatter<W>) -> fmt::Result {
        match self {
            Misfit::NoText => f.write_str("a byte is no text"),
            Misfit::Word(word) => write!(f, "{} does not fit", Quoted(word)),
            Misfit::TooShort => f.write_str("a word is missing"),
        }
    }
}

/// The first of these words that its slot does not take, or that no slot is left for.
fn first_misfit<'a>(mut slots: Slots, book: Option<BookName>, words: Words<'a>) -> Misfit<'a>
    ensures value { misfit_value result ≡ misfit_in book (slots_value slots) words.entry }
{
    for word in words {
        let Some((slot, rest)) = slots.next_slot() else {
            return Misfit::Word(word);
        };
        if !slot.takes(book, word) {
            return Misfit::Word(word);
        }
        slots = rest;
    }
    Misfit::TooShort
}

/// What does not fit in a line that no form fits, under the book that is chosen above it: a byte
/// that is no text, or else the first word with which no good line goes on, or else that a word is
/// missing. Where no book is chosen, no command's name fits. It is for bad lines: of a line that is
/// not bad it says that it is too short.
pub fn find_misfit<'a>(book: Option<BookName>, line: &'a [u8]) -> Misfit<'a>
    ensures value { misfit_value result ≡ misfit_of book line.now }
    ensures first { FirstMisfit book line.now (misfit_value result) }
{
    if !is_text(line) {
        return Misfit::NoText;
    }
    let mut words = Words::of(without_comment(line));
    let Some(name) = words.next() else {
        return Misfit::TooShort;
    };
    match Slots::behind(book, name) {
        Some(slots) => first_misfit(slots, book, words),
        None => Misfit::Word(name),
    }
}
