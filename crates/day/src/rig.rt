// The two drives of a day. Each has a type of its own, which only the function beside it makes:
// neither is taken for the other.
ghost use Rattle.std.specs.Prelude.{◌≡◌, []};
ghost use Rattle.script.specs.Reading.{setup_value};
ghost use Rattle.trial.specs.TrialState.{fresh};

use script::Setup;
use trial::TrialDrive;

/// The drive of a rig that is to be formatted: it never loses power.
#[derive(Drop)]
pub(crate) struct SteadyDrive<'a> {
    pub(crate) drive: TrialDrive<'a>,
}

/// The drive of the day: it loses power by the cut numbers that the script sets up.
#[derive(Drop)]
pub(crate) struct CutDrive<'a> {
    pub(crate) drive: TrialDrive<'a>,
}

impl<'a> SteadyDrive<'a> {
    /// A fresh trial drive over some bytes, with no cut numbers.
    pub(crate) fn over(bytes: &'a mut [u8]) -> SteadyDrive<'a>
        ensures fresh { result.drive ≡ fresh bytes.old [] }
    {
        SteadyDrive {
            drive: TrialDrive::over(bytes, &[]),
        }
    }
}

impl<'a> CutDrive<'a> {
    /// A fresh trial drive over some bytes, with the script's cut numbers.
    pub(crate) fn over(bytes: &'a mut [u8], setup: &'a Setup) -> CutDrive<'a>
        ensures fresh { result.drive ≡ fresh bytes.old (setup_value setup.now).cuts }
    {
        CutDrive {
            drive: TrialDrive::over(bytes, setup.cuts.as_slice()),
        }
    }
}
