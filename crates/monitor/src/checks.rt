// The tests of the monitor's calls: each passes, or gives the refusal.
ghost use Rattle.std.specs.Prelude.{◌≡◌, ◌^◌, ◌≤◌, ◌<◌, true, Ok, length};
ghost use Rattle.journals.specs.JournalState.{home_of};
ghost use Rattle.image.specs.Layout.{lawful_size};
ghost use Rattle.monitor.specs.Asking.{identified, own_note, may_enter, is_counted};
ghost use Rattle.monitor.specs.Calls.{own_slip};
ghost use Rattle.monitor.specs.Starting.{formattable};

use crate::slip_numbers::SlipNumbers;
use books::Book;
use drives::Drive;
use image::{Reader, is_lawful_size};
use notes::NoteNumbers;
use refusals::{FormatPlace, Reason, Refusal};
use rights::{Role, RowQuestion, first_uncovered};

/// Whether a drive of this size can be formatted so.
pub(crate) fn check_format<B: Book>(
    book: &B,
    size: u64,
    house: u64,
    roll: &[u8],
    opening: &[u64],
) -> Result<(), Refusal>
    ensures value { result ≡ formattable B.meaning size house roll.now opening.now }
    ensures house { result ≡ Ok tt → house < 2 ^ 32 }
    ensures roll { result ≡ Ok tt → length roll.now ≡ 128 }
    ensures opening { result ≡ Ok tt → length opening.now ≡ 64 }
    ensures size { result ≡ Ok tt → lawful_size size ≡ true }
{
    if house < 1 || house >= 1 << 32 {
        return Err(Refusal::at(Reason::BadFormat, FormatPlace::House.into()));
    }
    if roll.len() != 128 {
        return Err(Refusal::at(Reason::BadFormat, FormatPlace::Roll.into()));
    }
    if opening.len() != 64 {
        return Err(Refusal::at(Reason::BadFormat, FormatPlace::Opening.into()));
    }
    if !is_lawful_size(size) {
        return Err(Refusal::at(Reason::BadSize, size));
    }
    if !book.verify(opening) {
        return Err(Refusal::at(Reason::InvalidOpening, 0));
    }
    Ok(())
}

/// Whether a note is this book's.
pub(crate) fn check_kind<B: Book>(note: NoteNumbers) -> Result<(), Refusal>
    ensures value { result ≡ own_note B.meaning note }
{
    if note.kind != B::KIND {
        return Err(Refusal::at(Reason::Foreign, u64::from(note.kind)));
    }
    Ok(())
}

/// Whether a slip is of this book and house.
pub(crate) fn check_slip<B: Book>(house: u32, slip: SlipNumbers) -> Result<(), Refusal>
    ensures value { result ≡ own_slip B.meaning house slip }
{
    if slip.numbers.kind != B::KIND || slip.house != house {
        return Err(Refusal::at(Reason::Foreign, u64::from(slip.house)));
    }
    Ok(())
}

/// Whether it is that user's word.
pub(crate) fn identify<D: Drive>(reader: &Reader<D>, user: u64, word: &[u8]) -> Result<(), Refusal>
    ensures value { result ≡ identified (home_of reader.now) user word.now }
    ensures within { result ≡ Ok tt → user ≤ 15 }
{
    if !reader.is_word(user, word) {
        return Err(Refusal::at(Reason::BadWord, user));
    }
    Ok(())
}

/// Whether the user may enter a note.
pub(crate) fn check_enterer<D: Drive>(
    reader: &Reader<D>,
    user: u64,
    note: NoteNumbers,
) -> Result<(), Refusal>
    ensures value { result ≡ may_enter (home_of reader.now) user note }
{
    let enters = RowQuestion {
        user,
        procedure: u64::from(note.procedure),
        role: Role::Enter,
    };
    let (a, b) = (u64::from(note.a), u64::from(note.b));
    match first_uncovered(&reader.rows(), enters, a, b) {
        Some(item) => Err(Refusal::at(Reason::EntererNotEntitled, item)),
        None => Ok(()),
    }
}

/// Whether a record of this number is counted.
pub(crate) fn check_counted(number: u64, count: u32) -> Result<(), Refusal>
    ensures value { result ≡ is_counted number count }
    ensures within { result ≡ Ok tt → number ≤ count }
{
    if !(1..=u64::from(count)).contains(&number) {
        return Err(Refusal::at(Reason::NoSuchEntry, number));
    }
    Ok(())
}
