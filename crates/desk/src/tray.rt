ghost use Rattle.std.specs.Prelude.{◌≡◌, ◌<◌, ◌≤◌, ◌+◌, vec_len, vec_capacity};
ghost use Rattle.std.specs.Option.{option_map};
ghost use Rattle.desk.specs.Serving.{waiting_values, slip_waiting, without_slip, with_slip, told};

use crate::told::Told;
use histories::Answer;
use monitor::Slip;

/// A slip that waits at the desk, under the name that it was entered under.
pub struct WaitingSlip<'a> {
    pub(crate) name: &'a [u8],
    pub(crate) slip: Slip,
}

/// Takes the first slip that waits under a name off the tray, if one does.
pub(crate) fn take_slip<'a>(tray: &mut Vec<WaitingSlip<'a>>, name: &[u8]) -> Option<Slip>
    ensures slip { option_map (λ slip. slip.entered) result ≡
        slip_waiting (waiting_values tray.old.items) name.now }
    ensures rest { waiting_values tray.new.items ≡
        without_slip (waiting_values tray.old.items) name.now }
    ensures no_longer { vec_len tray.new ≤ vec_len tray.old }
    ensures capacity { vec_capacity tray.new ≡ vec_capacity tray.old }
{
    let place = tray.iter().position(|waiting| waiting.name == name)?;
    let WaitingSlip { name: _, slip } = tray.remove(place);
    Some(slip)
}

/// Lays the slip that an answer hands out on the tray, under a name, and tells the answer.
pub(crate) fn insert_slip<'a>(
    tray: &mut Vec<WaitingSlip<'a>>,
    name: &'a [u8],
    answer: Answer,
) -> Told
    requires room { vec_len tray.old < vec_capacity tray.old }
    ensures tells { result ≡ told answer }
    ensures slip { waiting_values tray.new.items ≡
        with_slip (waiting_values tray.old.items) name.now answer }
    ensures longer { vec_len tray.new ≤ vec_len tray.old + 1 }
    ensures capacity { vec_capacity tray.new ≡ vec_capacity tray.old }
{
    match answer {
        Answer::Slip(Ok(slip)) => {
            let entered = slip.entered();
            tray.push_reserved(WaitingSlip { name, slip });
            Told::Slip(Ok(entered))
        }
        Answer::Slip(Err(refusal)) => Told::Slip(Err(refusal)),
        Answer::Count(count) => Told::Count(count),
        Answer::Code(code) => Told::Code(code),
        Answer::Record(entry) => Told::Record(entry),
    }
}

/// Withdraws every slip that waits.
pub(crate) fn withdraw_all(mut tray: Vec<WaitingSlip<'_>>) {
    while let Some(WaitingSlip { name: _, slip }) = tray.pop() {
        let _ = slip.withdraw();
    }
    tray.destroy_empty();
}
