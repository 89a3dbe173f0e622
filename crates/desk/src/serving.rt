ghost use Rattle.std.specs.Prelude.{◌≡◌, ◌<◌, ◌≤◌, ◌+◌, map, vec_len, vec_capacity, IfOk, OnErr};
ghost use Rattle.histories.specs.Events.{call_value};
ghost use Rattle.desk.specs.Serving.{request_value, ServesOn, MakesCallOn, Served};

use crate::making::make_call;
use crate::request::Request;
use crate::told::Told;
use crate::tray::{WaitingSlip, insert_slip, take_slip, withdraw_all};
use books::Book;
use drives::Drive;
use histories::{Call, every_history_is_lawful};
use monitor::Monitor;
use std::alloc::{AllocError, Global};

/// Makes a call. The slip that its answer hands out, if it does, waits under the name.
fn make<'a, D: Drive, B: Book>(
    monitor: &mut Monitor<D, B>,
    tray: &mut Vec<WaitingSlip<'a>>,
    name: &'a [u8],
    call: Call<'_>,
) -> Told
    requires room { vec_len tray.old < vec_capacity tray.old }
    ensures makes { MakesCallOn B.meaning monitor.old tray.old.items name.now
        (call_value call.entry) result monitor.new tray.new.items }
    ensures longer { vec_len tray.new ≤ vec_len tray.old + 1 }
    ensures capacity { vec_capacity tray.new ≡ vec_capacity tray.old }
{
    insert_slip(tray, name, make_call(monitor, call))
}

/// Does what one request asks.
fn answer<'a, D: Drive, B: Book>(
    monitor: &mut Monitor<D, B>,
    tray: &mut Vec<WaitingSlip<'a>>,
    request: Request<'a>,
) -> Told
    requires room { vec_len tray.old < vec_capacity tray.old }
    ensures asks { ServesOn B.meaning monitor.old tray.old.items (request_value request.entry)
        result monitor.new tray.new.items }
    ensures longer { vec_len tray.new ≤ vec_len tray.old + 1 }
    ensures capacity { vec_capacity tray.new ≡ vec_capacity tray.old }
{
    match request {
        Request::Enter {
            name,
            user,
            word,
            note,
        } => make(monitor, tray, name, Call::Enter { user, word, note }),
        Request::Countersign { name, user, word } => match take_slip(tray, name) {
            Some(slip) => make(monitor, tray, name, Call::Countersign { user, word, slip }),
            None => Told::NoSuchSlip,
        },
        Request::Withdraw { name } => match take_slip(tray, name) {
            Some(slip) => Told::Withdrawn(slip.withdraw()),
            None => Told::NoSuchSlip,
        },
        // No other call hands out a slip, so no name is needed.
        Request::Plain(call) => make(monitor, tray, &[], Call::Plain(call)),
    }
}

/// Does what is asked, one request after another, and tells the answer to each. A slip that enter
/// hands out waits under the name of its request, until a countersign or withdraw of that name
/// takes the one that was entered first; slips that still wait at the end are withdrawn.
///
/// It fails only for want of memory, before the first request, and then the monitor is as it was.
/// Else what was told is what each request came to, in its order, and what happened extends
/// whatever history led to the monitor before, with the law at every moment.
pub fn serve<'a, D: Drive, B: Book>(
    monitor: &mut Monitor<D, B>,
    heap: Global,
    requests: Vec<Request<'a>>,
) -> Result<Vec<Told>, AllocError>
    ensures served { IfOk result (λ told. Served B.meaning monitor.old
        (map request_value requests.entry.items) told.items monitor.new) }
    ensures untouched { OnErr result (monitor.new ≡ monitor.old) }
{
    // The law holds of every history: what is promised of this one rests on it.
    every_history_is_lawful();
    let mut told = Vec::with_capacity(heap, requests.len())?;
    let mut tray: Vec<WaitingSlip<'a>> = Vec::with_capacity(heap, requests.len())?;
    for request in requests {
        told.push_reserved(answer(monitor, &mut tray, request));
    }
    withdraw_all(tray);
    Ok(told)
}
