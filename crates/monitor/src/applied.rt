// What the books hold after a record is applied on what they hold now, or the refusal that it
// earns.
ghost use Rattle.std.specs.Prelude.{◌≡◌, ◌<◌, ◌≤◌, OnOk};
ghost use Rattle.journals.specs.JournalState.{size, home_of};
ghost use Rattle.records.specs.declared.record.Record.TheVariants as entry;
ghost use Rattle.applying.specs.Applied.{posted as posted-on};
ghost use Rattle.applying.specs.Results.{Gives};
ghost use Rattle.applying.specs.Rows.{certified as certified-on, struck as struck-on, InBytes};
ghost use Rattle.image.specs.Home.{state_with};
ghost use Rattle.image.specs.Layout.{room};
ghost use Rattle.monitor.specs.Calls.{certification_record};
ghost use Rattle.monitor.specs.Slips.{posting_by};

use crate::slip::Slip;
use applying::{BookState, RowDraft};
use books::Book;
use drives::Drive;
use image::Reader;
use layout::Head;
use records::Certification;
use refusals::Refusal;

/// What the record of a certification says.
pub(crate) fn certification_of(draft: RowDraft) -> Certification
    requires in_bytes { InBytes draft }
    ensures value { entry.Certification result ≡ certification_record draft }
{
    Certification {
        user: draft.user as u8,
        procedure: draft.procedure as u8,
        role: draft.role as u8,
        row: draft.row as u8,
        mask: draft.mask,
    }
}

/// What the books hold after a slip is posted, countersigned by a second user.
pub(crate) fn posted<D: Drive, B: Book>(
    reader: &Reader<D>,
    book: &B,
    head: Head,
    slip: &Slip,
    countersigner: u8,
) -> Result<BookState, Refusal>
    ensures gives { Gives (posted-on B.meaning (room (size reader.now))
        (state_with (home_of reader.now) head.count)
        (posting_by slip.now.entered countersigner)) result }
    ensures had_room { OnOk result (head.count < room (size reader.now)) }
{
    let mut state = reader.state(head);
    slip.post(book, &mut state, countersigner)?;
    Ok(state)
}

/// What the books hold after a certification.
pub(crate) fn certified<D: Drive, B: Book>(
    reader: &Reader<D>,
    book: &B,
    head: Head,
    draft: RowDraft,
) -> Result<BookState, Refusal>
    ensures gives { Gives (certified-on B.meaning (room (size reader.now))
        (state_with (home_of reader.now) head.count) draft) result }
    ensures had_room { OnOk result (head.count < room (size reader.now)) }
    ensures in_bytes { OnOk result (InBytes draft) }
{
    let mut state = reader.state(head);
    state.certify(book, draft)?;
    Ok(state)
}

/// What the books hold after a strike.
pub(crate) fn struck<D: Drive>(
    reader: &Reader<D>,
    head: Head,
    row: u64,
) -> Result<BookState, Refusal>
    ensures gives { Gives (struck-on (room (size reader.now))
        (state_with (home_of reader.now) head.count) row) result }
    ensures had_room { OnOk result (head.count < room (size reader.now)) }
    ensures within { OnOk result (row ≤ 31) }
{
    let mut state = reader.state(head);
    state.strike(row)?;
    Ok(state)
}
