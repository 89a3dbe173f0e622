ghost use Rattle.std.specs.Prelude.{◌≡◌};

use crate::command::Command;
use registry::BookName;

/// What one line of a script says.
#[derive(PartialEq, Eq, Debug, Drop)]
pub enum Line<'a> {
    /// A blank line, or only a comment.
    Nothing,
    /// The book of the lines below.
    Book(BookName),
    /// The house number.
    House(u64),
    /// More of the roll: the bytes of its words.
    Roll(Vec<u8>),
    /// More codes of the opening.
    Opening(Vec<u64>),
    /// More cut numbers, each from 0 to 65,535.
    Cuts(Vec<u16>),
    /// A command.
    Asks(Command<'a>),
}

impl Line<'_> {
    ghost use Rattle.script.specs.LineValue.{line_value};
    ghost use Rattle.script.specs.Reading.{book_after};

    /// The book that is chosen below the line.
    pub(crate) fn book_below(&self, book: Option<BookName>) -> Option<BookName>
        ensures value { result ≡ book_after book (line_value self.now) }
    {
        match self {
            Line::Book(name) => Some(*name),
            _ => book,
        }
    }
}
