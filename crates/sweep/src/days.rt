// A day, run with its cut numbers: what stood at its end, compared with the tally.
use crate::tally::Tally;
use books::Book;
use calls::Plain;
use day::{Expected, Plan, Start, plan_day, run_day};
use desk::{Request, Told};
use records::Record;
use refusals::Reason;
use script::{Script, Setup};
use std::alloc::{AllocError, Global};

/// What stood at the end of a day.
#[derive(Clone, Copy, PartialEq, Eq)]
pub enum Stood {
    /// What the tally holds.
    AsTallied,
    /// A format lost power, so that there is no tally.
    NoTally,
    /// Something else.
    Otherwise,
}

/// What became of a day.
#[derive(Clone, Copy, PartialEq, Eq)]
pub struct End {
    /// The place at which power was lost first, if it was lost.
    pub lost: Option<u64>,
    /// Whether it was lost in an attach or a format.
    pub in_start: bool,
    pub stood: Stood,
}

/// The place at which power was lost in a call, if it was; 0 is no loss, but a call of a dark
/// monitor.
fn place_lost(answer: &Told) -> Option<u64> {
    match answer {
        Told::Count(Err(refusal)) if refusal.reason == Reason::PowerLost && refusal.place != 0 => {
            Some(refusal.place)
        }
        _ => None,
    }
}

/// The requests of a day, then an attach, another if that one was cut, and a look at every item.
fn and_looks(mut requests: Vec<Request<'_>>) -> Result<Vec<Request<'_>>, AllocError> {
    requests.push(Request::Plain(Plain::Attach))?;
    requests.push(Request::Plain(Plain::Attach))?;
    for item in 0..64 {
        requests.push(Request::Plain(Plain::Item { item }))?;
    }
    Ok(requests)
}

/// What a script sets up, with other cut numbers.
fn setup_with(heap: Global, setup: &Setup, cuts: &[u16]) -> Result<Setup, AllocError> {
    let mut others = Vec::with_capacity(heap, cuts.len())?;
    others.extend_from_slice(cuts)?;
    Ok(Setup {
        book: setup.book,
        house: setup.house,
        roll: setup.roll.clone()?,
        opening: setup.opening.clone()?,
        cuts: others,
    })
}

/// Whether the items and records that were looked at are those of the tally.
fn agrees(tally: &Tally, items: &[Told], audit: &[Told]) -> bool {
    let items_agree = items.len() == 64
        && items
            .iter()
            .zip(&tally.state.items)
            .all(|(answer, code)| *answer == Told::Code(Ok(*code)));
    let records_agree = audit
        .iter()
        .zip(tally.records.as_slice())
        .all(|(answer, entry)| *answer == Told::Record(Ok(*entry)));
    let standing = audit
        .iter()
        .filter(|answer| matches!(**answer, Told::Record(Ok(_))))
        .count();
    items_agree && records_agree && standing == tally.records.len()
}

/// The tally of a day's commands and answers, and the answers after them.
fn tally_of<'a, B: Book>(
    heap: Global,
    book: &B,
    script: &'a Script<'a>,
    expected: &[Expected],
    answers: &'a [Told],
) -> Result<(Tally<'a>, &'a [Told]), AllocError> {
    let mut tally = Tally::opened(heap, script.setup.opening.as_slice());
    let mut left = answers;
    // The first answer is the attach's; the format's and its own are the first two that are
    // expected.
    if let Some((attached, later)) = left.split_first() {
        tally.attach(book, *attached)?;
        left = later;
    }
    for (numbered, expected) in script.commands.iter().zip(expected.iter().skip(2)) {
        if expected.said.is_some() {
            continue;
        }
        let Some((answer, later)) = left.split_first() else {
            break;
        };
        tally.feed(book, numbered.command, *answer)?;
        left = later;
    }
    for _ in 0..2 {
        if let Some((attached, later)) = left.split_first() {
            tally.attach(book, *attached)?;
            left = later;
        }
    }
    Ok((tally, left))
}

/// Runs the day of a script with a setup, and compares what stands at its end with the tally.
fn run_set_up<'a, B: Book + Copy + Drop>(
    heap: Global,
    book: B,
    script: &'a Script<'a>,
    setup: &'a Setup,
    bytes: &'a mut [u8],
) -> Result<End, AllocError> {
    let start = Start::Format;
    let Plan { requests, expected } = plan_day(heap, start, setup, script.commands.as_slice())?;
    let (_, day) = run_day(heap, book, start, bytes, setup, and_looks(requests)?);
    let day = day?;
    let answers = day.told.as_slice();
    let (tally, items) = tally_of(heap, &book, script, expected.as_slice(), answers)?;
    let stood = if !tally.known {
        Stood::NoTally
    } else if agrees(&tally, items, day.looks.as_slice()) {
        Stood::AsTallied
    } else {
        Stood::Otherwise
    };
    Ok(End {
        lost: answers.iter().find_map(place_lost),
        in_start: answers.iter().any(|answer| place_lost(answer) == Some(4)),
        stood,
    })
}

/// Runs the day of a script on a new drive over some bytes: its power calls take these cut numbers,
/// in their order.
pub(crate) fn run_cut<B: Book + Copy + Drop>(
    heap: Global,
    book: B,
    script: &Script,
    bytes: &mut [u8],
    cuts: &[u16],
) -> Result<End, AllocError> {
    bytes.fill(0);
    let setup = setup_with(heap, &script.setup, cuts)?;
    run_set_up(heap, book, &*script, &setup, bytes)
}
