ghost use Rattle.std.specs.Prelude.{◌≡◌, true};
ghost use Rattle.journals.specs.JournalState.{IsCertain, size as size-of};
ghost use Rattle.image.specs.Layout.{lawful_size};
ghost use Rattle.image.specs.Inspects.{Inspects, PoweredOn, unpowered_for, unfinished_for};

use crate::block_numbers::is_lawful_size;
use crate::reader::Reader;
use crate::verdict::judge_home;
use books::Book;
use drives::Drive;
use journals::{FinishFault, Journal, JournalFault};
use refusals::{PowerPlace, Reason, Refusal};

/// The refusal where power was not turned on.
fn unpowered(fault: JournalFault) -> Refusal
    ensures value { result ≡ unpowered_for fault }
{
    Refusal::at(fault.into(), PowerPlace::Starting.into())
}

/// The refusal where finishing did not end.
fn unfinished(fault: FinishFault) -> Refusal
    ensures value { result ≡ unfinished_for fault }
{
    let place = match fault {
        FinishFault::Unlawful => 0,
        FinishFault::Off | FinishFault::PowerLost => PowerPlace::Starting.into(),
    };
    Refusal::at(fault.into(), place)
}

/// Turns power on, finishes what was cut, and judges what stands then: the record count, or the
/// first refusal that the image earns.
///
/// A size that is not lawful is refused with 17, and the drive is untouched. Where power was lost
/// the answer is 7, place 4: lost in the power call, nothing was added to what may stand; lost in
/// finishing, nothing may stand but what finishing would have left. A commit block that is not
/// lawful is refused with 19, and nothing was finished. Else the answer is the verdict on what the
/// power call left, which is finished now. Of a drive that is certain to power up it is promised
/// that power was turned on; of any other, a lost answer may come without a power call.
pub fn inspect<D: Drive, B: Book>(journal: &mut Journal<D>, book: &B) -> Result<u64, Refusal>
    ensures inspects { Inspects B.meaning journal.old result journal.new }
    ensures powers_up { IsCertain journal.old → lawful_size (size-of journal.old) ≡ true →
        PoweredOn B.meaning journal.old result journal.new }
{
    let size = journal.size();
    if !is_lawful_size(size) {
        return Err(Refusal::at(Reason::BadSize, size));
    }
    journal.power().map_err(unpowered)?;
    journal.finish().map_err(unfinished)?;
    judge_home(&Reader { journal }, book)
}
