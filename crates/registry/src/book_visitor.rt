ghost use Rattle.books.specs.Meaning.{Meaning};

use books::Book;

/// What is done in a book that only its name tells: `BookName::accept` does it in the book of the
/// name. Each book is a type of its own, with constants and an item type, so a function over any
/// book cannot be handed over as a closure.
pub trait BookVisitor: Sized {
    /// What comes of it.
    type Output;

    /// What is promised of the visitor, the meaning of the book and what comes of it.
    ghost visit_gives: { Self → Meaning → Self.Output → Type 0 };

    /// Does it in a book.
    fn visit<B: Book + Copy + Drop>(self, book: B) -> Self::Output
        ensures gives { visit_gives self B.meaning result };
}
