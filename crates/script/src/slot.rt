ghost use Rattle.std.specs.Prelude.{◌≡◌};

use crate::forms::procedure_of;
use crate::setup_lines::cut_typed;
use lexer::typed_number;
use registry::BookName;

/// What one word of a form is to be.
#[derive(Clone, Copy)]
pub(crate) enum Slot {
    /// Any word, as a slip or the word of a user.
    Name,
    /// A number of 64 bits.
    Number,
    /// A procedure, by its word in the chosen book or by its number.
    Procedure,
    /// A book.
    Book,
    /// A cut number.
    Cut,
}

impl Slot {
    ghost use Rattle.script.specs.Misfit.{slot_takes};

    /// Whether a word can stand here, under the book that is chosen above the line.
    pub(crate) fn takes(self, book: Option<BookName>, word: &[u8]) -> bool
        ensures value { result ≡ slot_takes book self word.now }
    {
        match (self, book) {
            (Slot::Name, _) => true,
            (Slot::Procedure, Some(book)) => procedure_of(book, word).is_some(),
            (Slot::Number | Slot::Procedure, _) => typed_number(word).is_some(),
            (Slot::Book, _) => BookName::named(word).is_some(),
            (Slot::Cut, _) => cut_typed(word).is_some(),
        }
    }
}
