ghost use Rattle.std.specs.Prelude.{◌≡◌, IfOk};
ghost use Rattle.std.specs.Option.{option_map};
ghost use Rattle.script.specs.LineValue.{line_value};
ghost use Rattle.script.specs.Grammar.{cut_typed as cut_by_word, book_line, house_line, roll_line, opening_line, cuts_line};

use crate::line::Line;
use lexer::{Words, typed_number};
use registry::BookName;
use std::alloc::{AllocError, Global};

/// What follows `book`.
pub(crate) fn book_of<'a>(mut words: Words) -> Option<Line<'a>>
    ensures value { option_map line_value result ≡ book_line words.entry }
{
    let name = words.next()?;
    let None = words.next() else { return None };
    Some(Line::Book(BookName::named(name)?))
}

/// What follows `house`.
pub(crate) fn house_of<'a>(mut words: Words) -> Option<Line<'a>>
    ensures value { option_map line_value result ≡ house_line words.entry }
{
    let number = words.next()?;
    let None = words.next() else { return None };
    Some(Line::House(typed_number(number)?))
}

/// What follows `roll`. It fails only for want of memory.
pub(crate) fn roll_of<'a>(heap: Global, words: Words) -> Result<Option<Line<'a>>, AllocError>
    ensures value { IfOk result (λ l. option_map line_value l ≡ roll_line words.entry) }
{
    let mut roll = Vec::new(heap);
    for word in words {
        roll.extend_from_slice(word)?;
    }
    Ok(Some(Line::Roll(roll)))
}

/// What follows `opening`. It fails only for want of memory.
pub(crate) fn opening_of<'a>(heap: Global, words: Words) -> Result<Option<Line<'a>>, AllocError>
    ensures value { IfOk result
        (λ l. option_map line_value l ≡ opening_line words.entry) }
{
    let mut codes = Vec::new(heap);
    for word in words {
        let Some(code) = typed_number(word) else {
            return Ok(None);
        };
        codes.push(code)?;
    }
    Ok(Some(Line::Opening(codes)))
}

/// The cut number that a word types.
pub(crate) fn cut_typed(word: &[u8]) -> Option<u16>
    ensures value { result ≡ cut_by_word word.now }
{
    u16::try_from(typed_number(word)?).ok()
}

/// What follows `cuts`. It fails only for want of memory.
pub(crate) fn cuts_of<'a>(heap: Global, words: Words) -> Result<Option<Line<'a>>, AllocError>
    ensures value { IfOk result (λ l. option_map line_value l ≡ cuts_line words.entry) }
{
    let mut cuts = Vec::new(heap);
    for word in words {
        let Some(cut) = cut_typed(word) else {
            return Ok(None);
        };
        cuts.push(cut)?;
    }
    Ok(Some(Line::Cuts(cuts)))
}
