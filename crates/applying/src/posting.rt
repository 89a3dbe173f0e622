ghost use Rattle.std.specs.Prelude.{◌≡◌};
ghost use Rattle.applying.specs.Applied.{posting_of as posting_of_note};
ghost use Rattle.applying.specs.BookState.{draft_of as draft_of_posting};

use books::Draft;
use notes::Note;
use records::Posting;

/// What the note of a posting was typed as.
pub(crate) fn draft_of(posting: Posting) -> Draft
    ensures value { result ≡ draft_of_posting posting }
{
    Draft {
        procedure: u64::from(posting.procedure),
        a: u64::from(posting.a),
        b: u64::from(posting.b),
        amount: posting.amount,
    }
}

/// The posting of a note that one user entered and another countersigns.
pub fn posting_of(note: &Note, enterer: u8, countersigner: u8) -> Posting
    ensures value { result ≡ posting_of_note note.now enterer countersigner }
{
    let numbers = note.numbers();
    Posting {
        enterer,
        countersigner,
        procedure: numbers.procedure,
        a: numbers.a,
        b: numbers.b,
        amount: numbers.amount,
    }
}
