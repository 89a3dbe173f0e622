ghost use Rattle.std.specs.Prelude.{◌≡◌, ◌∷◌, true, false, IfOk, MatchOption};
ghost use Rattle.std.specs.List.{list_all};
ghost use Rattle.lexer.specs.Pieces.{printable, uncommented, words};
ghost use Rattle.std.specs.Option.{option_map};
ghost use Rattle.script.specs.LineValue.{command_value, line_value};
ghost use Rattle.script.specs.Grammar.{command, command_line, line_said, understood};

use crate::command::Command;
use crate::forms::{
    attach_of, certify_of, countersign_of, enter_of, format_of, item_of, note_of, record_of,
    strike_of, withdraw_of,
};
use crate::line::Line;
use crate::setup_lines::{book_of, cuts_of, house_of, opening_of, roll_of};
use lexer::{Words, is_text, without_comment};
use registry::BookName;
use std::alloc::{AllocError, Global};

/// The command of this name, under the book that is chosen above it.
// Not a `match` on the name: it would compare byte by byte, and the check does not put that many
// cases together.
fn command_of<'a>(book: BookName, name: &[u8], words: Words<'a>) -> Option<Command<'a>>
    ensures value { option_map command_value result ≡ command book name.now words.entry }
{
    if name == b"note".as_slice() {
        note_of(book, words)
    } else if name == b"enter".as_slice() {
        enter_of(book, words)
    } else if name == b"countersign".as_slice() {
        countersign_of(words)
    } else if name == b"withdraw".as_slice() {
        withdraw_of(words)
    } else if name == b"certify".as_slice() {
        certify_of(book, words)
    } else if name == b"strike".as_slice() {
        strike_of(words)
    } else if name == b"item".as_slice() {
        item_of(words)
    } else if name == b"record".as_slice() {
        record_of(words)
    } else if name == b"format".as_slice() {
        format_of(words)
    } else if name == b"attach".as_slice() {
        attach_of(words)
    } else {
        None
    }
}

/// A line that asks for what its command says. It needs a book that was chosen above it.
fn asks_by<'a>(book: Option<BookName>, name: &[u8], words: Words<'a>) -> Option<Line<'a>>
    ensures value { option_map line_value result
        ≡ command_line book name.now words.entry }
{
    Some(Line::Asks(command_of(book?, name, words)?))
}

/// What a line says by its first word and the others, under the book that is chosen above it. It
/// fails only for want of memory.
pub(crate) fn said_by<'a>(
    heap: Global,
    book: Option<BookName>,
    name: &[u8],
    words: Words<'a>,
) -> Result<Option<Line<'a>>, AllocError>
    ensures value { IfOk result
        (λ l. option_map line_value l ≡ line_said book (name.now ∷ words.entry)) }
{
    if name == b"book".as_slice() {
        Ok(book_of(words))
    } else if name == b"house".as_slice() {
        Ok(house_of(words))
    } else if name == b"roll".as_slice() {
        roll_of(heap, words)
    } else if name == b"opening".as_slice() {
        opening_of(heap, words)
    } else if name == b"cuts".as_slice() {
        cuts_of(heap, words)
    } else {
        Ok(asks_by(book, name, words))
    }
}

/// The words of a line, up to its comment; none where a byte of the line is no text.
pub(crate) fn words_in(line: &[u8]) -> Option<Words>
    ensures value { MatchOption result (list_all printable line.now ≡ false)
        (λ ws. (list_all printable line.now ≡ true) × (ws ≡ words (uncommented line.now))) }
{
    if !is_text(line) {
        return None;
    }
    Some(Words::of(without_comment(line)))
}

/// What a line says, under the book that is chosen above it, or none where the line is bad. Bad are
/// a byte that is neither printable ASCII nor a tab or carriage return, a first word that names
/// no form, a word too many or too few, a word that is no number of 64 bits where one stands (of a
/// cut: none of 16 bits), a procedure that is no number and no word of the book, and a command
/// where no book is chosen. A comment, which begins at the first `#`, and a blank line say nothing.
///
/// It fails only for want of memory.
pub fn understand<'a>(
    heap: Global,
    book: Option<BookName>,
    line: &'a [u8],
) -> Result<Option<Line<'a>>, AllocError>
    ensures value { IfOk result (λ l. option_map line_value l ≡ understood book line.now) }
{
    let Some(mut words) = words_in(line) else {
        return Ok(None);
    };
    match words.next() {
        Some(name) => said_by(heap, book, name, words),
        None => Ok(Some(Line::Nothing)),
    }
}
