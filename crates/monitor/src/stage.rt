ghost use Rattle.std.specs.Prelude.{◌≡◌, Err, OnOk};
ghost use Rattle.monitor.specs.Stages.{admitted};
ghost use Rattle.monitor.specs.Starting.{stage_after};
ghost use Rattle.monitor.specs.declared.stage.Stage.TheVariants.{Open};
ghost use Rattle.monitor.specs.declared.stage.CallKind.TheVariants.{Working};

use refusals::{PowerPlace, Reason, Refusal};

/// How far a monitor has come: shut until a format or an attach is accepted, open while it works,
/// dark once power was lost.
#[derive(Clone, Copy)]
pub enum Stage {
    Shut,
    Open,
    Dark,
}

/// What kind of call is made: format and attach start the monitor, all others work with it.
#[derive(Clone, Copy)]
pub(crate) enum CallKind {
    Starting,
    Working,
}

/// The first test of every call: whether a call of this kind is admitted at this stage.
pub(crate) fn admit(stage: Stage, kind: CallKind) -> Result<(), Refusal>
    ensures value { result ≡ admitted stage kind }
    ensures open { kind ≡ Working → OnOk result (stage ≡ Open) }
{
    match (stage, kind) {
        (_, CallKind::Starting) => Ok(()),
        (Stage::Open, CallKind::Working) => Ok(()),
        (Stage::Shut, CallKind::Working) => Err(Refusal::at(Reason::Shut, 0)),
        (Stage::Dark, CallKind::Working) => Err(Refusal::power_lost(PowerPlace::Dark)),
    }
}

/// The stage that a refusal of attach leaves.
pub(crate) fn stage_for(refusal: Refusal) -> Stage
    ensures value { result ≡ stage_after (Err refusal) }
{
    if refusal.reason == Reason::PowerLost {
        Stage::Dark
    } else {
        Stage::Shut
    }
}
