use calls::Plain;
use notes::Note;

/// What is asked at the desk: a call of the monitor, in which the name of a slip stands for the
/// slip, or a slip withdrawn.
#[derive(Drop)]
pub enum Request<'a> {
    /// Enters a note. Its slip waits under the name.
    Enter {
        name: &'a [u8],
        user: u64,
        word: &'a [u8],
        note: Note,
    },
    /// Countersigns the slip that waits under the name.
    Countersign {
        name: &'a [u8],
        user: u64,
        word: &'a [u8],
    },
    /// Withdraws the slip that waits under the name.
    Withdraw {
        name: &'a [u8],
    },
    /// Makes a call that needs no slip.
    Plain(Plain<'a>),
}
