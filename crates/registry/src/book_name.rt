ghost use Rattle.std.specs.Prelude.{◌≡◌, Some, option_map};

use crate::book_visitor::BookVisitor;
use books::{Book, Draft, procedure_named};
use ledger::Ledger;
use notes::{Note, make_note};
use refusals::Refusal;
use stock::Stock;

/// The books that there are. Each case's discriminant is the book's kind number.
#[derive(Clone, Copy, PartialEq, Eq, Debug)]
pub enum BookName {
    /// The book of money.
    Ledger = 1,
    /// The book of reels.
    Stock = 2,
}

// The numbers are those of the books.
const _: () = prove!(BookName::Ledger as u8 == Ledger::KIND);

const _: () = prove!(BookName::Stock as u8 == Stock::KIND);

impl BookName {
    ghost use Rattle.books.specs.Words.{word_of, procedure_of_word};
    ghost use Rattle.notes.specs.Notes.{noted};
    ghost use Rattle.registry.specs.BookName.{book_named, book_of_kind, meaning_of};

    /// The book that a word names, in small letters: `ledger` or `stock`. None for any other word.
    pub fn named(word: &[u8]) -> Option<BookName>
        ensures value { result ≡ book_named word.now }
    {
        match word {
            b"ledger" => Some(BookName::Ledger),
            b"stock" => Some(BookName::Stock),
            _ => None,
        }
    }

    /// The word that names the book.
    pub fn name(self) -> &'static str
        ensures named { book_named result.now ≡ Some self }
    {
        match self {
            BookName::Ledger => "ledger",
            BookName::Stock => "stock",
        }
    }

    /// The book of a kind number. None for a number that is no book's.
    pub fn of_kind(kind: u8) -> Option<BookName>
        ensures value { result ≡ book_of_kind kind }
    {
        match kind {
            Ledger::KIND => Some(BookName::Ledger),
            Stock::KIND => Some(BookName::Stock),
            _ => None,
        }
    }

    /// The word of a procedure in this book. None for a number that is no procedure's.
    pub fn word(self, procedure: u64) -> Option<&'static str>
        ensures value { option_map (λ x. x.now) result ≡ word_of (meaning_of self).words procedure }
    {
        match self {
            BookName::Ledger => Ledger.word(procedure),
            BookName::Stock => Stock.word(procedure),
        }
    }

    /// The number of the procedure that a word names in this book, from 1 up. None where the book
    /// has no such word, as for a word of another book.
    pub fn procedure_named(self, word: &[u8]) -> Option<u64>
        ensures value { result ≡ procedure_of_word (meaning_of self).words word.now }
    {
        match self {
            BookName::Ledger => procedure_named(&Ledger, word),
            BookName::Stock => procedure_named(&Stock, word),
        }
    }

    /// Makes a note of a draft in this book, by the tests of `make_note`: the note, of this book's
    /// kind, or refusal 1 to 4 by the first test that fails, with the number at fault as its place.
    pub(crate) fn make_note(self, draft: Draft) -> Result<Note, Refusal>
        ensures value { result ≡ noted (meaning_of self) draft }
    {
        match self {
            BookName::Ledger => make_note(&Ledger, draft),
            BookName::Stock => make_note(&Stock, draft),
        }
    }

    /// Has this book visited. What comes of it is what the visitor promises by this book's meaning.
    pub fn accept<V: BookVisitor>(self, visitor: V) -> V::Output
        ensures gives { V.visit_gives visitor (meaning_of self) result }
    {
        match self {
            BookName::Ledger => visitor.visit(Ledger),
            BookName::Stock => visitor.visit(Stock),
        }
    }
}
