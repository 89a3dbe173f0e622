use calls::Plain;
use monitor::Slip;
use notes::Note;

/// Any one call of a monitor, with all that it takes: a note and a slip are moved in.
pub enum Call<'a> {
    /// Enters a note on a slip, which the answer hands out.
    Enter {
        user: u64,
        word: &'a [u8],
        note: Note,
    },
    /// Countersigns a slip, which ends here.
    Countersign {
        user: u64,
        word: &'a [u8],
        slip: Slip,
    },
    /// Any call that needs no slip.
    Plain(Plain<'a>),
}
