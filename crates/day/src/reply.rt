ghost use Rattle.std.specs.Prelude.{◌≡◌, Some, IfOk};
ghost use Rattle.day.specs.Replies.{replies_of};

use crate::plan::Expected;
use crate::said::{Said, refuse_line};
use crate::source::Source;
use desk::Told;
use registry::BookName;
use script::Fault;
use std::alloc::{AllocError, Global};
use std::fmt;

/// A reply: what was said, and to what.
#[derive(Clone, Copy, PartialEq, Eq, Debug)]
pub struct Reply {
    pub source: Source,
    pub said: Said,
}

impl Reply {
    ghost use Rattle.script.specs.FaultValue.{fault_value};
    ghost use Rattle.day.specs.Replies.{reply_to_fault};

    /// The reply to what ended the reading of a script: refusal 5, with the number of the bad line
    /// as its place, or 0 if the script is too long.
    pub(crate) fn to_fault(fault: &Fault) -> Reply
        ensures value { result ≡ reply_to_fault (fault_value fault.now) }
    {
        let refusal = refuse_line(fault.place());
        Reply {
            source: Source::Line(fault.place()),
            said: match fault {
                Fault::TooLong => Said::TooLong(refusal),
                Fault::BadLine(_) => Said::Refused(refusal),
            },
        }
    }
}

/// The replies in a book, in order: what was said before the desk was asked, and else what it told next.
/// Where the desk told too little, the replies end. It fails only for want of memory.
pub(crate) fn replies_to(
    heap: Global,
    book: BookName,
    expected: &[Expected],
    answers: &[Told],
) -> Result<Vec<Reply>, AllocError>
    ensures replies { IfOk result (λ v. v.items ≡ replies_of book expected.now answers.now) }
{
    let mut replies = Vec::new(heap);
    let mut left = answers;
    for next in expected {
        let said = match next.said {
            Some(said) => said,
            None => {
                let Some((told, later)) = left.split_first() else {
                    return Ok(replies);
                };
                left = later;
                Said::of_told(book, next.source, *told)
            }
        };
        replies.push(Reply {
            source: next.source,
            said,
        })?;
    }
    Ok(replies)
}

/// The line that says what became of a line of the script: `SOURCE: SAID`, with no line feed.
impl fmt::Display for Reply {
    ghost use Rattle.day.specs.Texts.{reply_text};

    ghost output = { λ x. Some (reply_text x) };

    fn fmt<W: fmt::Write>(&self, f: &mut fmt::Formatter<W>) -> fmt::Result {
        let source = self.source;
        let said = self.said;
        write!(f, "{source}: {said}")
    }
}
