ghost use Rattle.std.specs.Prelude.{◌≡◌};

use crate::book_name::BookName;
use books::Draft;
use notes::Note;
use refusals::Refusal;

/// A note as it is typed: the book that it is for, and its numbers, each any number of 64 bits.
#[derive(Clone, Copy, PartialEq, Eq, Debug)]
pub struct TypedNote {
    pub book: BookName,
    pub draft: Draft,
}

impl TypedNote {
    ghost use Rattle.registry.specs.TypedNote.{note_made};

    /// Makes the note in its book: the note, or refusal 1 to 4 by the first test that fails, with
    /// the number at fault as its place.
    pub fn make(self) -> Result<Note, Refusal>
        ensures value { result ≡ note_made self }
    {
        self.book.make_note(self.draft)
    }
}
