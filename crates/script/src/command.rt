use calls::Plain;
use registry::TypedNote;

/// What a line asks for. Slips and words are bytes of the script.
#[derive(Clone, Copy, PartialEq, Eq, Debug)]
pub enum Command<'a> {
    /// Makes a note or refuses it, and does nothing else with it.
    Note(TypedNote),
    /// Formats the drive under a house number, with the roll and opening that lines of their own
    /// set up.
    Format {
        house: u64,
    },
    /// Enters a note: from then on the slip names it.
    Enter {
        slip: &'a [u8],
        user: u64,
        word: &'a [u8],
        note: TypedNote,
    },
    /// Countersigns the note of a slip.
    Countersign {
        slip: &'a [u8],
        user: u64,
        word: &'a [u8],
    },
    /// Withdraws the note of a slip.
    Withdraw {
        slip: &'a [u8],
    },
    /// Makes a call that needs no slip, and that one line types whole: attach, certify, strike,
    /// item, record.
    Plain(Plain<'a>),
}
