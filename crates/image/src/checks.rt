// The parts of the verdict, each on what was read.
ghost use Rattle.std.specs.Prelude.{◌≡◌, ◌&&◌, IfOk, ◌==◌, nat_le};
ghost use Rattle.layout.specs.Head.{head_of};
ghost use Rattle.applying.specs.Results.{Gives};
ghost use Rattle.applying.specs.BookState.{state_of};
ghost use Rattle.image.specs.Verdict.{checked_head, checked_opening, replayed_record};
ghost use Rattle.image.specs.Replays.{Replays};

use crate::block_numbers::HEAD;
use applying::BookState;
use books::Book;
use layout::{Head, read_head};
use records::Record;
use refusals::{Reason, Refusal};
use rights::Row;

/// Whether a head is this book's and has a count for which there is room.
fn is_own<B: Book>(room: u64, head: Head) -> bool
    ensures value { result ≡ (head.kind == B.meaning.kind && nat_le head.count room) }
{
    head.kind == B::KIND && u64::from(head.count) <= room
}

/// The head, if it is this book's and has a count for which there is room.
pub(crate) fn check_head<B: Book>(room: u64, block: &[u8; 64]) -> Result<Head, Refusal>
    ensures value { result ≡ checked_head B.meaning room (head_of block.now) }
{
    read_head(block)
        .filter(|head| is_own::<B>(room, *head))
        .ok_or(Refusal::at(Reason::BadHead, HEAD))
}

/// The books as they were opened, if the opening is valid.
pub(crate) fn check_opening<B: Book>(
    book: &B,
    room: u64,
    items: [u64; 64],
) -> Result<BookState, Refusal>
    ensures value { Gives (checked_opening B.meaning items) result }
    ensures room { IfOk result (λ h. h.room ≡ room) }
{
    if !book.verify(&items) {
        return Err(Refusal::at(Reason::InvalidOpening, 0));
    }
    Ok(BookState {
        items,
        rows: [Row::FREE; 32],
        count: 0,
        room,
    })
}

/// Applies the record of a number, if there is one in exact form.
pub(crate) fn replay_record<B: Book>(
    book: &B,
    state: &mut BookState,
    number: u32,
    found: Option<Record>,
) -> Result<(), Refusal>
    ensures replays { Replays
        (replayed_record B.meaning state.old.room number found (state_of state.old))
        result (state_of state.new) }
    ensures same_room { state.new.room ≡ state.old.room }
{
    let bad = Refusal::at(Reason::BadRecord, u64::from(number));
    let entry = found.ok_or(bad)?;
    state.apply(book, entry).map_err(|_| bad)
}
