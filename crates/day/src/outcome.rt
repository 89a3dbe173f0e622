ghost use Rattle.std.specs.Prelude.{◌≡◌, ◌++◌, map, Some, IfOk, IsSomeAnd};
ghost use Rattle.registry.specs.BookName.{meaning_of};
ghost use Rattle.script.specs.Reading.{setup_value, numbered_value, script_reading};
ghost use Rattle.day.specs.declared.start.Start.TheVariants.{Format};
ghost use Rattle.desk.specs.Serving.{request_value};
ghost use Rattle.day.specs.Replies.{replies_of};
ghost use Rattle.day.specs.Outcome.{new_drive, left_in, Shows, RanAndLeft, RunsOn, Runs};

use crate::audit::Audit;
use crate::day::Day;
use crate::day_visitor::DayVisitor;
use crate::left::Left;
use crate::plan::{Expected, plan_day};
use crate::reply::{Reply, replies_to};
use crate::start::Start;
use desk::Request;
use registry::BookName;
use script::{Fault, Script, Setup, read_script};
use std::alloc::{AllocError, Global};

/// The bytes of a new drive: 64 blocks.
pub const DRIVE: usize = 4096;

/// What a script came to.
#[derive(Drop)]
pub struct Outcome<'a> {
    /// The replies, in order.
    pub replies: Vec<Reply>,
    /// Why the reading of the script ended before its end, if it did.
    pub fault: Option<Fault<'a>>,
    /// The audit at the end, if the script chose a book.
    pub audit: Option<Audit>,
    /// The bytes of the drive at the end, with those behind its last block, if the script chose a
    /// book.
    pub drive: Option<Vec<u8>>,
}

/// What a day came to, by what was told and the bytes that it left. It fails only for want of memory.
fn outcome_of<'a>(
    heap: Global,
    book: BookName,
    expected: &[Expected],
    day: Day,
    drive: Vec<u8>,
) -> Result<Outcome<'a>, AllocError>
    ensures replies { IfOk result (λ o.
        o.replies.items ≡ replies_of book expected.now (day.firsts.items ++ day.told.items)) }
    ensures audit { IfOk result (λ o. IsSomeAnd o.audit (Shows book day.stage day.looks.items)) }
    ensures drive { IfOk result (λ o. left_in o ≡ Some drive.items) }
{
    let mut answers = day.firsts;
    answers.extend_from_slice(day.told.as_slice())?;
    Ok(Outcome {
        fault: None,
        replies: replies_to(heap, book, expected, answers.as_slice())?,
        audit: Some(Audit::of(heap, book, day.stage, day.looks.as_slice())?),
        drive: Some(drive),
    })
}

/// All bytes that a day left. It fails only for want of memory.
fn bytes_left(heap: Global, left: Left) -> Result<Vec<u8>, AllocError>
    ensures value { IfOk result (λ v. v.items ≡ left.entry.blocks.now ++ left.entry.behind.now) }
{
    let mut bytes = Vec::new(heap);
    bytes.extend_from_slice(left.blocks)?;
    bytes.extend_from_slice(left.behind)?;
    Ok(bytes)
}

/// Runs a day in the book of a name, on a drive over some bytes, by `run_day`: what was told, and all
/// bytes that it left. It fails only for want of memory.
fn run_in<'a>(
    heap: Global,
    book: BookName,
    start: Start,
    mut bytes: Vec<u8>,
    setup: &'a Setup,
    requests: Vec<Request<'a>>,
) -> Result<(Day, Vec<u8>), AllocError>
    ensures runs { IfOk result (λ r. RanAndLeft (meaning_of book) start bytes.items
        (setup_value setup.now) (map request_value requests.entry.items) r.0 r.1.items) }
{
    let visitor = DayVisitor {
        heap,
        start,
        bytes: bytes.as_mut_slice(),
        setup,
        requests,
    };
    let (left, day) = book.accept(visitor);
    Ok((day?, bytes_left(heap, left)?))
}

/// Runs a script that chose a book, on a drive of that book over some bytes. It fails only for want
/// of memory.
fn run_rig<'a>(
    heap: Global,
    book: BookName,
    start: Start,
    bytes: Vec<u8>,
    script: &Script,
) -> Result<Outcome<'a>, AllocError>
    ensures runs { IfOk result (λ o. RunsOn book start bytes.items
        (setup_value script.now.setup) (map numbered_value script.now.commands.items)
        o.replies.items o.audit (left_in o)) }
{
    let plan = plan_day(heap, start, &script.setup, script.commands.as_slice())?;
    let (day, drive) = run_in(heap, book, start, bytes, &script.setup, plan.requests)?;
    outcome_of(heap, book, plan.expected.as_slice(), day, drive)
}

/// Runs a script, of any bytes, on a drive over some bytes. Where it chooses a book, a day of its
/// first book is run with what the script asks: a new drive is formatted first, with what the
/// script sets up, and one that stands is taken as it stands, whatever it holds and however large it
/// is. The replies are, in order, those to the format of a new drive, to the attach and to each
/// command; the audit shows the records exactly if the monitor is open at the end, and else says
/// that it is shut or dark; and the drive is handed back, so that another day can go on from there.
/// A script that chooses no book asks for nothing, and has no audit and no drive. Last, what ended
/// the reading before the end is refused, if anything did: refusal 5, with the number of the bad
/// line as its place, or 0 if the script is too long.
///
/// It fails only for want of memory.
pub fn run_script_on<'a>(
    heap: Global,
    start: Start,
    bytes: Vec<u8>,
    text: &'a [u8],
) -> Result<Outcome<'a>, AllocError>
    ensures runs { IfOk result (Runs start bytes.items (script_reading text.now)) }
{
    let script = read_script(heap, text)?;
    let mut outcome = match script.setup.book {
        Some(book) => run_rig(heap, book, start, bytes, &script)?,
        None => Outcome {
            replies: Vec::new(heap),
            fault: None,
            audit: None,
            drive: None,
        },
    };
    outcome.fault = script.fault;
    if let Some(fault) = &script.fault {
        outcome.replies.push(Reply::to_fault(fault))?;
    }
    Ok(outcome)
}

/// Runs a script, of any bytes, on a new drive of 64 blocks, by `run_script_on`. It fails only for
/// want of memory.
pub fn run_script<'a>(heap: Global, text: &'a [u8]) -> Result<Outcome<'a>, AllocError>
    ensures runs { IfOk result (Runs Format new_drive (script_reading text.now)) }
{
    run_script_on(heap, Start::Format, vec![in heap; 0; DRIVE]?, text)
}
