ghost use Rattle.std.specs.Prelude.{◌≡◌, Some};
ghost use Rattle.day.specs.Replies.{bad_line};
ghost use Rattle.day.specs.Texts.{note_text, slip_text, told_text};

use crate::source::Source;
use desk::Told;
use monitor::SlipNumbers;
use notes::NoteNumbers;
use refusals::{Heading, Reason, Refusal};
use registry::{BookName, CodeText};
use reports::RecordText;
use std::fmt;

/// What is said in reply.
#[derive(Clone, Copy, PartialEq, Eq, Debug)]
pub enum Said {
    /// A note was made, and no more: its numbers.
    Note(NoteNumbers),
    /// It was refused before it came to the desk.
    Refused(Refusal),
    /// It was refused, since the script is too long.
    TooLong(Refusal),
    /// It was refused, since no slip of the name waits.
    NoSlip(Refusal),
    /// What the desk told of the book.
    Answered(BookName, Told),
}

/// The refusal of a line that asks for what cannot be: 5, with the line's number as its place.
pub(crate) fn refuse_line(line: u64) -> Refusal
    ensures value { result ≡ bad_line line }
{
    Refusal::at(Reason::BadScript, line)
}

impl Said {
    ghost use Rattle.day.specs.Replies.{said_of};

    /// What is said of what the desk told of a book: where no slip of the name waits, the line is
    /// refused.
    pub(crate) fn of_told(book: BookName, source: Source, told: Told) -> Said
        ensures value { result ≡ said_of book source told }
    {
        match told {
            Told::NoSuchSlip => Said::NoSlip(refuse_line(source.line())),
            _ => Said::Answered(book, told),
        }
    }
}

/// The numbers of a note in words.
#[derive(Clone, Copy)]
struct NoteText(NoteNumbers);

impl fmt::Display for NoteText {
    ghost output = { λ x. Some (note_text x.0) };

    fn fmt<W: fmt::Write>(&self, f: &mut fmt::Formatter<W>) -> fmt::Result {
        let note = self.0;
        write!(
            f,
            "kind {}, procedure {}, a {}, b {}, n {}",
            note.kind, note.procedure, note.a, note.b, note.amount
        )
    }
}

/// The numbers of a slip in words.
#[derive(Clone, Copy)]
struct SlipText(SlipNumbers);

impl fmt::Display for SlipText {
    ghost output = { λ x. Some (slip_text x.0) };

    fn fmt<W: fmt::Write>(&self, f: &mut fmt::Formatter<W>) -> fmt::Result {
        let note = NoteText(self.0.numbers);
        let enterer = self.0.enterer;
        let house = self.0.house;
        write!(f, "{note}, entered by {enterer} at house {house}")
    }
}

/// What is said where no slip of a name waits.
const NO_SLIP: &str = "no slip of this name waits";

/// What the desk tells of a book, in words.
#[derive(Clone, Copy)]
struct ToldText {
    book: BookName,
    told: Told,
}

impl fmt::Display for ToldText {
    ghost output = { λ x. Some (told_text x.book x.told) };

    fn fmt<W: fmt::Write>(&self, f: &mut fmt::Formatter<W>) -> fmt::Result {
        let book = self.book;
        match self.told {
            Told::Count(Ok(count)) => write!(f, "records: {count}"),
            Told::Slip(Ok(entered)) => write!(f, "slip: {}", SlipText(entered)),
            Told::Code(Ok(code)) => write!(f, "code {code} ({})", CodeText { book, code }),
            Told::Record(Ok(record)) => write!(f, "record: {}", RecordText { book, record }),
            Told::Withdrawn(entered) => write!(f, "withdrawn: {}", SlipText(entered)),
            Told::NoSuchSlip => f.write_str(NO_SLIP),
            Told::Count(Err(refusal))
            | Told::Slip(Err(refusal))
            | Told::Code(Err(refusal))
            | Told::Record(Err(refusal)) => write!(f, "{refusal}"),
        }
    }
}

/// What stands behind the colon of a reply's line: the answer, or the refusal in words.
impl fmt::Display for Said {
    ghost use Rattle.day.specs.Texts.{said_text};

    ghost output = { λ x. Some (said_text x) };

    fn fmt<W: fmt::Write>(&self, f: &mut fmt::Formatter<W>) -> fmt::Result {
        match *self {
            Said::Note(numbers) => write!(f, "note made: {}", NoteText(numbers)),
            Said::Refused(refusal) => write!(f, "{refusal}"),
            Said::TooLong(refusal) => write!(f, "{}: the script is too long", Heading(refusal)),
            Said::NoSlip(refusal) => write!(f, "{}: {NO_SLIP}", Heading(refusal)),
            Said::Answered(book, told) => write!(f, "{}", ToldText { book, told }),
        }
    }
}
