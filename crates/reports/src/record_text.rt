ghost use Rattle.std.specs.Prelude.{Some};
ghost use Rattle.reports.specs.Texts.{record_line};

use crate::words::word_of;
use records::Record;
use registry::BookName;
use std::fmt;

/// A record of a book in a line, for people, with the word of its procedure in brackets.
#[derive(Clone, Copy, PartialEq, Eq, Debug)]
pub struct RecordText {
    pub book: BookName,
    pub record: Record,
}

impl fmt::Display for RecordText {
    ghost output = { λ x. Some (record_line x.book x.record) };

    fn fmt<W: fmt::Write>(&self, f: &mut fmt::Formatter<W>) -> fmt::Result {
        let entry = self.record;
        match word_of(self.book, entry) {
            Some(word) => write!(f, "{entry} ({word})"),
            None => write!(f, "{entry}"),
        }
    }
}
