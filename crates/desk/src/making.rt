ghost use Rattle.std.specs.Prelude.{◌∷◌, []};
ghost use Rattle.calls.specs.PlainValue.{plain_value};
ghost use Rattle.histories.specs.Events.{call_value, event, Happens, PlainCall};
ghost use Rattle.histories.specs.Law.{Extends};

use books::Book;
use calls::Plain;
use drives::Drive;
use histories::{Answer, Call, every_history_is_lawful};
use monitor::Monitor;

/// Makes a call that needs no slip.
fn make_plain<D: Drive, B: Book>(monitor: &mut Monitor<D, B>, call: Plain<'_>) -> Answer
    ensures happens { Happens B.meaning monitor.old
        (event (PlainCall (plain_value call.entry)) result) monitor.new }
{
    match call {
        Plain::Format {
            house,
            roll,
            opening,
        } => Answer::Count(monitor.format(house, roll, opening)),
        Plain::Attach => Answer::Count(monitor.attach()),
        Plain::Certify { word, draft } => Answer::Count(monitor.certify(word, draft)),
        Plain::Strike { word, row } => Answer::Count(monitor.strike(word, row)),
        Plain::Item { item } => Answer::Code(monitor.item(item)),
        Plain::Record { number } => Answer::Record(monitor.record(number)),
    }
}

/// Makes a call by the monitor's own method.
fn perform<D: Drive, B: Book>(monitor: &mut Monitor<D, B>, call: Call<'_>) -> Answer
    ensures happens { Happens B.meaning monitor.old
        (event (call_value call.entry) result) monitor.new }
{
    match call {
        Call::Enter { user, word, note } => Answer::Slip(monitor.enter(user, word, note)),
        Call::Countersign { user, word, slip } => {
            Answer::Count(monitor.countersign(user, word, slip))
        }
        Call::Plain(call) => make_plain(monitor, call),
    }
}

/// Makes any one call on a monitor, and answers it. It asks for no memory.
///
/// The answer, the drive and the stage are what the call's own promise says (`happens`). Whatever
/// history of calls led to the monitor before, this call and its answer extend it to the monitor
/// after, and the law of every history holds of it at every moment (`law`).
pub fn make_call<D: Drive, B: Book>(monitor: &mut Monitor<D, B>, call: Call<'_>) -> Answer
    ensures happens { Happens B.meaning monitor.old
        (event (call_value call.entry) result) monitor.new }
    ensures law { Extends B.meaning monitor.old
        (event (call_value call.entry) result ∷ []) monitor.new }
{
    // The law holds of every history: what is promised of this one rests on it.
    every_history_is_lawful();
    perform(monitor, call)
}
