ghost use Rattle.std.specs.Prelude.{◌≡◌, ◌≤◌};
ghost use Rattle.journals.specs.JournalState.{size, home_of};
ghost use Rattle.applying.specs.BookState.{state_of};
ghost use Rattle.image.specs.Layout.{room as room-on};
ghost use Rattle.image.specs.Verdict.{replayed, compared, differing_block, home_verdict};
ghost use Rattle.image.specs.Replays.{Replays};

use crate::checks::{check_head, check_opening, replay_record};
use crate::part::Part;
use crate::parts::{codes_blocks, first_differing, rows_blocks};
use crate::reader::Reader;
use applying::BookState;
use books::Book;
use drives::Drive;
use refusals::{Reason, Refusal};

/// Applies the records, from the first on.
fn replay<D: Drive, B: Book>(
    reader: &Reader<D>,
    book: &B,
    state: &mut BookState,
    count: u32,
) -> Result<(), Refusal>
    requires within { count ≤ room-on (size reader.now) }
    ensures replays { Replays
        (replayed B.meaning state.old.room (home_of reader.now) count 1 (state_of state.old))
        result (state_of state.new) }
{
    for number in 1..=count {
        replay_record(book, state, number, reader.record(number))?;
    }
    Ok(())
}

/// Compares items and rows with what stands, and answers the record count if they are the same.
fn compare<D: Drive>(reader: &Reader<D>, state: &BookState, count: u32) -> Result<u64, Refusal>
    ensures value { result ≡
        compared count (differing_block (home_of reader.now) (state_of state.now)) }
{
    // Each part in its own lines: one function for both would need a definition of its own, and is
    // no plainer.
    let items = reader.part(Part::Items);
    if let Some(block) = first_differing(Part::Items, &items, &codes_blocks(&state.items)) {
        return Err(Refusal::at(Reason::BlockDiffers, block));
    }
    let rows = reader.part(Part::Rows);
    if let Some(block) = first_differing(Part::Rows, &rows, &rows_blocks(&state.rows)) {
        return Err(Refusal::at(Reason::BlockDiffers, block));
    }
    Ok(u64::from(count))
}

/// The verdict on the home blocks of a drive that is on and has a lawful size.
pub(crate) fn judge_home<D: Drive, B: Book>(reader: &Reader<D>, book: &B) -> Result<u64, Refusal>
    ensures value { result ≡
        home_verdict B.meaning (room-on (size reader.now)) (home_of reader.now) }
{
    let room = reader.room();
    let head = check_head::<B>(room, &reader.head_block())?;
    let mut state = check_opening(book, room, reader.opening())?;
    replay(reader, book, &mut state, head.count)?;
    compare(reader, &state, head.count)
}
