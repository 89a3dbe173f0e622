ghost use Rattle.std.specs.Prelude.{◌≡◌, ◌∷◌, ◌++◌, [], None, map, IfOk, OnOk};
ghost use Rattle.registry.specs.TypedNote.{note_made};
ghost use Rattle.script.specs.LineValue.{command_value};
ghost use Rattle.script.specs.Reading.{setup_value, numbered_value};
ghost use Rattle.desk.specs.Serving.{request_value};
ghost use Rattle.day.specs.declared.source.Source.TheVariants.{Line};
ghost use Rattle.day.specs.Plan.{note_said, entering_of, planned as plan_by, plan_of, asks, expected_by, format_asked, first_requests as first_asked, first_expected as first_replies, requests_in, expected_in, requests_of, all_expected};

use crate::said::Said;
use crate::source::Source;
use crate::start::Start;
use calls::Plain;
use desk::Request;
use registry::TypedNote;
use script::{Command, Numbered, Setup};
use std::alloc::{AllocError, Global};

/// What is said of a note that is only to be made.
fn said_of_note(typed: TypedNote) -> Said
    ensures value { result ≡ note_said (note_made typed) }
{
    match typed.make() {
        Ok(note) => Said::Note(note.numbers()),
        Err(refusal) => Said::Refused(refusal),
    }
}

/// The request to enter a note, or what is said where there is none.
fn plan_entering<'a>(
    name: &'a [u8],
    user: u64,
    word: &'a [u8],
    typed: TypedNote,
) -> Result<Request<'a>, Said>
    ensures value { plan_of result ≡ entering_of name.now user word.now (note_made typed) }
{
    match typed.make() {
        Ok(note) => Ok(Request::Enter {
            name,
            user,
            word,
            note,
        }),
        Err(refusal) => Err(Said::Refused(refusal)),
    }
}

/// The request to format under a house number, with the roll and opening that the script sets up.
fn ask_format<'a>(setup: &'a Setup, house: u64) -> Request<'a>
    ensures value { request_value result ≡ format_asked (setup_value setup.now) house }
{
    Request::Plain(Plain::Format {
        house,
        roll: setup.roll.as_slice(),
        opening: setup.opening.as_slice(),
    })
}

/// The request to the desk that a command comes to, or what is said in reply at once, and nothing
/// is asked: of a note that is only to be made, its numbers or the refusal that it earns (1 to 4);
/// of a note to be entered, that refusal. Of the setup only the roll and the opening are read, for
/// a format.
pub fn plan_command<'a>(setup: &'a Setup, command: Command<'a>) -> Result<Request<'a>, Said>
    ensures value { plan_of result ≡ plan_by (setup_value setup.now) (command_value command.entry) }
{
    match command {
        Command::Note(typed) => Err(said_of_note(typed)),
        Command::Format { house } => Ok(ask_format(setup, house)),
        Command::Enter {
            slip,
            user,
            word,
            note,
        } => plan_entering(slip, user, word, note),
        Command::Countersign { slip, user, word } => Ok(Request::Countersign {
            name: slip,
            user,
            word,
        }),
        Command::Withdraw { slip } => Ok(Request::Withdraw { name: slip }),
        Command::Plain(call) => Ok(Request::Plain(call)),
    }
}

/// A reply that a script is to have, as far as it is known before the desk is asked.
#[derive(Clone, Copy)]
pub struct Expected {
    /// What it answers.
    pub source: Source,
    /// What is said at once; none where the desk's next answer is the reply.
    pub said: Option<Said>,
}

/// What is to be done on a day, and the replies that the script is to have.
#[derive(Drop)]
pub struct Plan<'a> {
    /// What the desk is asked for, from the attach on, in order.
    pub requests: Vec<Request<'a>>,
    /// The replies to the format of a new drive, to the attach and to each command, in order.
    pub expected: Vec<Expected>,
}

impl<'a> Plan<'a> {
    /// Adds what the command of a line comes to. It fails only for want of memory.
    fn add(&mut self, line: u64, planned: Result<Request<'a>, Said>) -> Result<(), AllocError>
        ensures requests { OnOk result
            (requests_in self.new ≡ requests_in self.old ++ asks (plan_of planned.entry)) }
        ensures expected { OnOk result (expected_in self.new
            ≡ expected_in self.old ++ expected_by line (plan_of planned.entry) ∷ []) }
    {
        let source = Source::Line(line);
        match planned {
            Ok(request) => {
                self.requests.push(request)?;
                self.expected.push(awaited(source))?;
            }
            Err(said) => self.expected.push(Expected {
                source,
                said: Some(said),
            })?,
        }
        Ok(())
    }
}

/// What is asked before the attach: a new drive is formatted with what the script sets up, and of
/// one that stands nothing is asked.
pub(crate) fn first_requests<'a>(
    heap: Global,
    start: Start,
    setup: &'a Setup,
) -> Result<Vec<Request<'a>>, AllocError>
    ensures asks { IfOk result (λ v.
        map request_value v.items ≡ first_asked start (setup_value setup.now)) }
{
    match start {
        Start::Format => Ok(vec![in heap; ask_format(setup, setup.house)]?),
        Start::Attach => Ok(Vec::new(heap)),
    }
}

/// A reply that is one of the desk's answers.
fn awaited(source: Source) -> Expected
    ensures value { result ≡ record { source = source; said = None } }
{
    Expected { source, said: None }
}

/// The replies that are awaited before the attach's.
fn first_expected(heap: Global, start: Start) -> Result<Vec<Expected>, AllocError>
    ensures value { IfOk result (λ v. v.items ≡ first_replies start) }
{
    match start {
        Start::Format => Ok(vec![in heap; awaited(Source::Format)]?),
        Start::Attach => Ok(Vec::new(heap)),
    }
}

/// The plan of a day: the drive is attached, once it is formatted if it is new, and then the
/// commands ask, in their order. For the format, the attach and each command it says whether the
/// reply is what the desk tells next, or else what is said at once. It fails only for want of
/// memory.
pub fn plan_day<'a>(
    heap: Global,
    start: Start,
    setup: &'a Setup,
    commands: &[Numbered<'a>],
) -> Result<Plan<'a>, AllocError>
    ensures requests { IfOk result (λ p. requests_in p
        ≡ requests_of (setup_value setup.now) (map numbered_value commands.now)) }
    ensures expected { IfOk result (λ p. expected_in p
        ≡ all_expected start (setup_value setup.now) (map numbered_value commands.now)) }
{
    let mut plan = Plan {
        requests: vec![in heap; Request::Plain(Plain::Attach)]?,
        expected: first_expected(heap, start)?,
    };
    plan.expected.push(awaited(Source::Attach))?;
    for numbered in commands {
        plan.add(numbered.line, plan_command(setup, numbered.command))?;
    }
    Ok(plan)
}
