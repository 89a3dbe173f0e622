ghost use Rattle.std.specs.Prelude.{◌≡◌};
ghost use Rattle.std.specs.Option.{option_map};
ghost use Rattle.script.specs.LineValue.{command_value};
ghost use Rattle.script.specs.Grammar.{typed_procedure, typed_note as note_by_words, typed_row as row_by_words, note_form, format_form, attach_form, enter_form, countersign_form, withdraw_form, certify_form, strike_form, item_form, record_form};

use crate::command::Command;
use applying::RowDraft;
use books::Draft;
use calls::Plain;
use lexer::{Words, typed_number};
use registry::{BookName, TypedNote};

/// The procedure that a word names in the book, or else types as a number of 64 bits.
pub(crate) fn procedure_of(book: BookName, word: &[u8]) -> Option<u64>
    ensures value { result ≡ typed_procedure book word.now }
{
    book.procedure_named(word).or_else(|| typed_number(word))
}

/// The note that four words type.
fn typed_note(
    book: BookName,
    procedure: &[u8],
    a: &[u8],
    b: &[u8],
    amount: &[u8],
) -> Option<TypedNote>
    ensures value { result ≡ note_by_words book procedure.now a.now b.now amount.now }
{
    let draft = Draft {
        procedure: procedure_of(book, procedure)?,
        a: typed_number(a)?,
        b: typed_number(b)?,
        amount: typed_number(amount)?,
    };
    Some(TypedNote { book, draft })
}

/// What follows `note`.
pub(crate) fn note_of<'a>(book: BookName, mut words: Words) -> Option<Command<'a>>
    ensures value { option_map command_value result ≡ note_form book words.entry }
{
    let procedure = words.next()?;
    let a = words.next()?;
    let b = words.next()?;
    let amount = words.next()?;
    let None = words.next() else { return None };
    Some(Command::Note(typed_note(book, procedure, a, b, amount)?))
}

/// What follows `format`.
pub(crate) fn format_of<'a>(mut words: Words) -> Option<Command<'a>>
    ensures value { option_map command_value result ≡ format_form words.entry }
{
    let house = words.next()?;
    let None = words.next() else { return None };
    Some(Command::Format {
        house: typed_number(house)?,
    })
}

/// What follows `attach`: nothing.
pub(crate) fn attach_of<'a>(mut words: Words) -> Option<Command<'a>>
    ensures value { option_map command_value result ≡ attach_form words.entry }
{
    words
        .next()
        .is_none()
        .then_some(Command::Plain(Plain::Attach))
}

/// What follows `enter`.
pub(crate) fn enter_of<'a>(book: BookName, mut words: Words<'a>) -> Option<Command<'a>>
    ensures value { option_map command_value result ≡ enter_form book words.entry }
{
    let slip = words.next()?;
    let user = words.next()?;
    let word = words.next()?;
    let procedure = words.next()?;
    let a = words.next()?;
    let b = words.next()?;
    let amount = words.next()?;
    let None = words.next() else { return None };
    Some(Command::Enter {
        slip,
        user: typed_number(user)?,
        word,
        note: typed_note(book, procedure, a, b, amount)?,
    })
}

/// What follows `countersign`.
pub(crate) fn countersign_of<'a>(mut words: Words<'a>) -> Option<Command<'a>>
    ensures value { option_map command_value result ≡ countersign_form words.entry }
{
    let slip = words.next()?;
    let user = words.next()?;
    let word = words.next()?;
    let None = words.next() else { return None };
    Some(Command::Countersign {
        slip,
        user: typed_number(user)?,
        word,
    })
}

/// What follows `withdraw`.
pub(crate) fn withdraw_of<'a>(mut words: Words<'a>) -> Option<Command<'a>>
    ensures value { option_map command_value result ≡ withdraw_form words.entry }
{
    let slip = words.next()?;
    words.next().is_none().then_some(Command::Withdraw { slip })
}

/// The row that five words type.
fn typed_row(
    book: BookName,
    row: &[u8],
    user: &[u8],
    procedure: &[u8],
    role: &[u8],
    mask: &[u8],
) -> Option<RowDraft>
    ensures value { result ≡ row_by_words book row.now user.now procedure.now role.now mask.now }
{
    Some(RowDraft {
        row: typed_number(row)?,
        user: typed_number(user)?,
        procedure: procedure_of(book, procedure)?,
        role: typed_number(role)?,
        mask: typed_number(mask)?,
    })
}

/// What follows `certify`.
pub(crate) fn certify_of<'a>(book: BookName, mut words: Words<'a>) -> Option<Command<'a>>
    ensures value { option_map command_value result ≡ certify_form book words.entry }
{
    let word = words.next()?;
    let row = words.next()?;
    let user = words.next()?;
    let procedure = words.next()?;
    let role = words.next()?;
    let mask = words.next()?;
    let None = words.next() else { return None };
    let draft = typed_row(book, row, user, procedure, role, mask)?;
    Some(Command::Plain(Plain::Certify { word, draft }))
}

/// What follows `strike`.
pub(crate) fn strike_of<'a>(mut words: Words<'a>) -> Option<Command<'a>>
    ensures value { option_map command_value result ≡ strike_form words.entry }
{
    let word = words.next()?;
    let row = words.next()?;
    let None = words.next() else { return None };
    Some(Command::Plain(Plain::Strike {
        word,
        row: typed_number(row)?,
    }))
}

/// What follows `item`.
pub(crate) fn item_of<'a>(mut words: Words) -> Option<Command<'a>>
    ensures value { option_map command_value result ≡ item_form words.entry }
{
    let item = words.next()?;
    let None = words.next() else { return None };
    Some(Command::Plain(Plain::Item {
        item: typed_number(item)?,
    }))
}

/// What follows `record`.
pub(crate) fn record_of<'a>(mut words: Words) -> Option<Command<'a>>
    ensures value { option_map command_value result ≡ record_form words.entry }
{
    let number = words.next()?;
    let None = words.next() else { return None };
    Some(Command::Plain(Plain::Record {
        number: typed_number(number)?,
    }))
}
