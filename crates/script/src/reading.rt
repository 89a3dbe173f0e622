ghost use Rattle.std.specs.Prelude.{◌≡◌, IfOk};
ghost use Rattle.script.specs.FaultValue.{fault_value};
ghost use Rattle.script.specs.Reading.{bad_line, script_reading, script_value};

use crate::bad_line::BadLine;
use crate::fault::Fault;
use crate::grammar::{said_by, words_in};
use crate::misfit::find_misfit;
use crate::script::Script;
use lexer::Lines;
use registry::BookName;
use std::alloc::{AllocError, Global};

/// The longest script, in bytes.
pub const LONGEST: usize = 65_536;

/// The fault of a bad line, under the book that is chosen above it.
fn fault_of<'a>(book: Option<BookName>, number: u64, line: &'a [u8]) -> Fault<'a>
    ensures value { fault_value result ≡ bad_line number book line.now }
{
    Fault::BadLine(BadLine {
        number,
        text: line,
        misfit: find_misfit(book, line),
    })
}

/// Reads a script, of any bytes, up to its first bad line: what it sets up, its commands with the
/// numbers of their lines, from 1, and why the reading ended before the end, if it did: no form
/// fits a line, and nothing is taken of it and of those below it; or the script is longer than
/// 65,536 bytes, and nothing of it is read.
///
/// It fails only for want of memory.
pub fn read_script<'a>(heap: Global, text: &'a [u8]) -> Result<Script<'a>, AllocError>
    ensures reads { IfOk result (λ s. script_value s ≡ script_reading text.now) }
{
    let mut script = Script::new(heap);
    if text.len() > LONGEST {
        script.fault = Some(Fault::TooLong);
        return Ok(script);
    }
    let mut book = None;
    for (number, line) in (1u64..).zip(Lines::of(text)) {
        let Some(mut words) = words_in(line) else {
            script.fault = Some(fault_of(book, number, line));
            return Ok(script);
        };
        // A line that says nothing is told here, before a value is made of what a line says.
        let Some(name) = words.next() else {
            continue;
        };
        let Some(said) = said_by(heap, book, name, words)? else {
            script.fault = Some(fault_of(book, number, line));
            return Ok(script);
        };
        book = said.book_below(book);
        script.add(number, said)?;
    }
    Ok(script)
}
