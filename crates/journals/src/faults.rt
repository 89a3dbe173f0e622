ghost use Rattle.std.specs.Prelude.{◌≡◌};
ghost use Rattle.journals.specs.Reported.{fault_reason, finish_fault_reason};
ghost use Rattle.journals.specs.declared.faults.ChangeFault.TheVariants as change-fault;

use crate::cut_place::CutPlace;
use drives::DriveFault;
use refusals::Reason;

/// Why a journal did not read a block, turn power on or initialize its drive. People see it as the
/// refusal of this number.
#[derive(Clone, Copy, PartialEq, Eq, Debug)]
pub enum JournalFault {
    /// There is no power: 7. Nothing was touched.
    Off,
    /// A block is beyond the drive: 17. Nothing was touched.
    Beyond,
    /// Power was lost: 7.
    PowerLost,
}

/// The reason that people see where a journal did not read, turn power on or initialize: 7 for no
/// power and for lost power, 17 for a block beyond the drive.
impl From<JournalFault> for Reason {
    ghost from_gives = { λ fault reason. reason ≡ fault_reason fault };

    fn from(fault: JournalFault) -> Reason {
        match fault {
            JournalFault::Off | JournalFault::PowerLost => Reason::PowerLost,
            JournalFault::Beyond => Reason::BadSize,
        }
    }
}

// A drive's lost power, which becomes a journal's, bears the same number.
const _: () = prove!(DriveFault::PowerLost as u8 == Reason::PowerLost as u8);

/// Why a change was not made.
#[derive(Clone, Copy, PartialEq, Eq, Debug)]
pub enum ChangeFault {
    /// There is no power. Nothing was touched.
    Off,
    /// A block of the change is beyond the drive. Nothing was touched.
    Beyond,
    /// Power was lost, at a place that says what may stand. People see it as refusal 7 with the
    /// place's number.
    Cut(CutPlace),
}

/// A change that lost power at a place was cut there.
impl From<CutPlace> for ChangeFault {
    ghost from_gives = { λ place fault. fault ≡ change-fault.Cut place };

    fn from(place: CutPlace) -> Self {
        ChangeFault::Cut(place)
    }
}

/// Why finishing did not end. People see it as the refusal of this number.
#[derive(Clone, Copy, PartialEq, Eq, Debug)]
pub enum FinishFault {
    /// There is no power: 7. Nothing was touched.
    Off,
    /// The commit block is not lawful: 19. Nothing was touched.
    Unlawful,
    /// Power was lost: 7.
    PowerLost,
}

/// The reason that people see where finishing did not end: 7 for no power and for lost power, 19
/// for a commit block that is not lawful.
impl From<FinishFault> for Reason {
    ghost from_gives = { λ fault reason. reason ≡ finish_fault_reason fault };

    fn from(fault: FinishFault) -> Reason {
        match fault {
            FinishFault::Off | FinishFault::PowerLost => Reason::PowerLost,
            FinishFault::Unlawful => Reason::BadCommitBlock,
        }
    }
}
