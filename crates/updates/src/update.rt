ghost use Rattle.std.specs.Prelude.{◌≡◌, ◌+◌, ◌<◌, ◌≤◌, true, [], ◌∷◌, ◌++◌, length};
ghost use Rattle.std.specs.Prelude.{Decides, is_some, IfSome, IsOk};
ghost use Rattle.changes.specs.Homes.{last, fits_behind};
ghost use Rattle.applying.specs.BookState.{state_of};
ghost use Rattle.image.specs.Layout.{head_block as head-number, row_block as row-number};
ghost use Rattle.image.specs.Layout.{record_block as record-number};
ghost use Rattle.updates.specs.Update.{head_home, item_homes, row_home, updated_homes, update_of};
ghost use Rattle.updates.specs.Update.{Within, HasUpdate};

use applying::BookState;
use changes::{Change, DoesNotFit};
use image::{HEAD, codes_blocks, item_block, record_block, row_block, rows_blocks};
use layout::{Head, head_block};
use records::{Record, encode};

/// Whether a record names only items up to 63 and a row up to 31.
fn is_within(entry: Record) -> bool
    ensures decides { Decides result (Within entry) }
{
    match entry {
        Record::Posting(posting) => posting.a < 64 && posting.b < 64,
        Record::Certification(certification) => certification.row < 32,
        Record::Strike { row } => row < 32,
    }
}

/// How an update begins: the head, with one record more.
fn begun(head: Head) -> Option<Change>
    requires few { head.count < 1000 }
    ensures value { result ≡ Some (head_home head ∷ []) }
{
    let counted = Head {
        house: head.house,
        kind: head.kind,
        count: head.count + 1,
    };
    Change::of(HEAD, &head_block(counted))
}

/// Adds the block of a row.
fn add_row(update: &mut Change, state: &BookState, row: u8) -> Result<(), DoesNotFit>
    requires within { row < 32 }
    requires fits { fits_behind update.old (row-number row) ≡ true }
    ensures done { IsOk result }
    ensures after { update.new ≡ update.old ++ row_home (state_of state.now) row ∷ [] }
{
    let blocks = rows_blocks(&state.rows);
    update.add(row_block(u64::from(row)), &blocks[usize::from(row / 4)])
}

/// Adds the blocks of two items, the lower first, or the one block in which both stand.
fn add_items(update: &mut Change, state: &BookState, a: u8, b: u8) -> Result<(), DoesNotFit>
    requires a_within { a < 64 }
    requires b_within { b < 64 }
    requires begun { length update.old ≡ 1 }
    requires head { last update.old ≡ head-number }
    ensures done { IsOk result }
    ensures after { update.new ≡ update.old ++ item_homes (state_of state.now) a b }
{
    let blocks = codes_blocks(&state.items);
    let (low, high) = (a.min(b), a.max(b));
    update.add(item_block(u64::from(low)), &blocks[usize::from(low / 8)])?;
    if low / 8 != high / 8 {
        update.add(item_block(u64::from(high)), &blocks[usize::from(high / 8)])?;
    }
    Ok(())
}

/// Adds the blocks of the items, or the block of the row, that a record updates.
fn add_updated(update: &mut Change, entry: Record, state: &BookState) -> Result<(), DoesNotFit>
    requires within { Within entry }
    requires begun { length update.old ≡ 1 }
    requires head { last update.old ≡ head-number }
    ensures done { IsOk result }
    ensures after { update.new ≡ update.old ++ updated_homes (state_of state.now) entry }
    ensures few { length update.new ≤ 3 }
    ensures below { last update.new < 32 }
{
    match entry {
        Record::Posting(posting) => add_items(update, state, posting.a, posting.b),
        Record::Certification(certification) => add_row(update, state, certification.row),
        Record::Strike { row } => add_row(update, state, row),
    }
}

/// The update that a record makes, under this head, where it leaves the books like this: the head
/// with one record more, the blocks of the record's items or of its row, and the block of the
/// record itself, in one change. None where the head counts 1,000 records or more, for which no
/// drive has room, or the record names an item above 63 or a row above 31.
pub fn update_for(head: Head, entry: Record, state: &BookState) -> Option<Change>
    ensures exists { Decides (is_some result) (HasUpdate head entry) }
    ensures value { IfSome result (λ made. made ≡ update_of head entry (state_of state.now)) }
    ensures ends { IfSome result (λ made. last made ≡ record-number (head.count + 1)) }
{
    if head.count >= 1000 || !is_within(entry) {
        return None;
    }
    // Each block fits behind those before it, so from here on no `?` ends the call.
    let mut update = begun(head)?;
    add_updated(&mut update, entry, state).ok()?;
    let number = head.count + 1;
    update
        .add(record_block(number), &encode(entry, number))
        .ok()?;
    Some(update)
}
