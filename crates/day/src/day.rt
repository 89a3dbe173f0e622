ghost use Rattle.std.specs.Prelude.{◌≡◌, ◌*◌, ◌/◌, map, IfOk, OnErr};
ghost use Rattle.script.specs.Reading.{setup_value};
ghost use Rattle.trial.specs.Bytes.{blocks_of, in_blocks};
ghost use Rattle.trial.specs.TrialState.{disk};
ghost use Rattle.monitor.specs.MonitorState.{monitor_with};
ghost use Rattle.monitor.specs.declared.stage.Stage.TheVariants.{Shut};
ghost use Rattle.desk.specs.Serving.{request_value};
ghost use Rattle.day.specs.DayRun.{looked_at, every_look, DayRanOr, RunsDay};
ghost use Rattle.day.specs.Parts.{Begun, ServesDay, ServedDay};

use crate::left::Left;
use crate::plan::first_requests;
use crate::rig::{CutDrive, SteadyDrive};
use crate::start::Start;
use books::Book;
use calls::Plain;
use desk::{Request, Told, serve};
use drives::Drive;
use image::{is_lawful_size, room_on};
use monitor::{Monitor, Stage};
use script::Setup;
use std::alloc::{AllocError, Global};

/// What was told on a day, and the stage of the monitor at its end.
#[derive(Drop)]
pub struct Day {
    /// What was told of the first part: of the format of a new drive.
    pub firsts: Vec<Told>,
    /// What was told of the day's requests, one for each, in their order.
    pub told: Vec<Told>,
    /// What was told of the last part: of a look at each record that has room, in their order.
    pub looks: Vec<Told>,
    /// Whether the monitor is shut, open or dark at the end.
    pub stage: Stage,
}

/// How many records are to be looked at on a drive of so many blocks: all for which it has room.
fn records_to_look_at(blocks: u64) -> u32
    ensures value { result ≡ looked_at blocks }
{
    if is_lawful_size(blocks) {
        room_on(blocks) as u32
    } else {
        0
    }
}

/// A look at each of so many records.
fn look_at_every_record<'a>(heap: Global, count: u32) -> Result<Vec<Request<'a>>, AllocError>
    ensures asks { IfOk result (λ v. v.items ≡ every_look count) }
{
    (1..u64::from(count) + 1)
        .map(|number| Request::Plain(Plain::Record { number }))
        .collect(heap)
}

/// The first part of a day, on a drive that never loses power: a new one is formatted, and of one
/// that stands nothing is asked. It fails only for want of memory, before anything is done.
fn begin<'a, B: Book>(
    heap: Global,
    book: B,
    start: Start,
    bytes: &'a mut [u8],
    setup: &'a Setup,
) -> (&'a mut [u8], B, Result<Vec<Told>, AllocError>)
    ensures begun { IfOk result.2 (λ firsts. Begun B.meaning start bytes.old
        (setup_value setup.now) firsts.items result.0.now) }
    ensures unbegun { OnErr result.2 (blocks_of result.0.now ≡ blocks_of bytes.old) }
{
    let first = match first_requests(heap, start, setup) {
        Ok(first) => first,
        Err(error) => return (bytes, book, Err(error)),
    };
    let mut monitor = Monitor::over(SteadyDrive::over(bytes).drive, book);
    let firsts = serve(&mut monitor, heap, first);
    let (drive, book) = monitor.into_parts();
    (drive.into_bytes(), book, firsts)
}

/// The day's requests, and last a look at each of so many records, on a monitor. It fails only for
/// want of memory, before the requests or before the looks.
fn serve_day<'a, D: Drive, B: Book>(
    monitor: &mut Monitor<D, B>,
    heap: Global,
    requests: Vec<Request<'a>>,
    records: u32,
    firsts: Vec<Told>,
) -> Result<Day, AllocError>
    ensures serves_day { ServesDay B.meaning monitor.old (map request_value requests.entry.items)
        records firsts.items result monitor.new }
{
    let told = serve(monitor, heap, requests)?;
    let looks = serve(monitor, heap, look_at_every_record(heap, records)?)?;
    Ok(Day {
        firsts,
        told,
        looks,
        stage: monitor.stage(),
    })
}

/// The second and third part of a day, on the drive of the day. It fails only for want of memory,
/// before the one or the other.
fn serve_cut<'a, B: Book + Drop>(
    heap: Global,
    book: B,
    drive: CutDrive<'a>,
    requests: Vec<Request<'a>>,
    records: u32,
    firsts: Vec<Told>,
) -> (&'a mut [u8], Result<Day, AllocError>)
    ensures served_day { ServedDay B.meaning (monitor_with Shut (disk drive.entry.drive))
        (map request_value requests.entry.items) records firsts.items result.1 result.0.now }
{
    let mut monitor = Monitor::over(drive.drive, book);
    let day = serve_day(&mut monitor, heap, requests, records, firsts);
    let (drive, _) = monitor.into_parts();
    (drive.into_bytes(), day)
}

/// All parts of a day, one after another, each on what the one before it left.
fn run_parts<'a, B: Book + Drop>(
    heap: Global,
    book: B,
    start: Start,
    bytes: &'a mut [u8],
    setup: &'a Setup,
    requests: Vec<Request<'a>>,
) -> (&'a mut [u8], Result<Day, AllocError>)
    ensures ran { DayRanOr B.meaning start (blocks_of bytes.old) (setup_value setup.now)
        (map request_value requests.entry.items) result.1 (blocks_of result.0.now) }
{
    let records = records_to_look_at(bytes.len() as u64 / 64);
    let (bytes, book, firsts) = begin(heap, book, start, bytes, setup);
    match firsts {
        Ok(firsts) => {
            let drive = CutDrive::over(bytes, setup);
            serve_cut(heap, book, drive, requests, records, firsts)
        }
        Err(error) => (bytes, Err(error)),
    }
}

/// How many of so many bytes stand in blocks.
fn bytes_in_blocks(count: usize) -> usize
    ensures value { result ≡ 64 * (count / 64) }
{
    count / 64 * 64
}

/// The bytes that stand in blocks.
fn whole_blocks(bytes: &[u8]) -> &[u8]
    ensures value { result.now ≡ in_blocks bytes.now }
{
    &bytes[..bytes_in_blocks(bytes.len())]
}

/// Runs a day of a book on some bytes, in three parts. A drive that is new is formatted with what
/// the script sets up, as a trial drive over the whole blocks of the bytes, which never loses
/// power; of one that stands nothing is asked yet. Then the requests are done in their order, on a
/// fresh trial drive over what that left, which loses power by the script's cut numbers. Last, each
/// record for which such a drive has room is looked at. The day goes on from any history that led
/// to the drive: what happened is the events of its three parts, one after another, and the law
/// holds of that history and of them at every moment.
///
/// It hands the bytes back, with what was told: the blocks of the last drive, and the bytes behind
/// the last whole block, which are untouched. Another day can go on from there. It fails only for
/// want of memory, before one of the parts; then the bytes that it hands back are the blocks of the
/// drive at that moment, and those behind them, untouched.
pub fn run_day<'a, B: Book + Drop>(
    heap: Global,
    book: B,
    start: Start,
    bytes: &'a mut [u8],
    setup: &'a Setup,
    requests: Vec<Request<'a>>,
) -> (Left<'a>, Result<Day, AllocError>)
    ensures runs { RunsDay B.meaning start bytes.old (setup_value setup.now)
        (map request_value requests.entry.items) result.1 result.0 }
{
    let whole = bytes_in_blocks(bytes.len());
    let (blocks, behind) = bytes.split_at_mut(whole);
    let (blocks, day) = run_parts(heap, book, start, blocks, setup, requests);
    let left = Left {
        blocks: whole_blocks(blocks),
        behind,
    };
    (left, day)
}
