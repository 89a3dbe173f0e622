// The eight steps of a change, on a drive that is on and wide enough for them. That it is on is
// asked for by each function, and is no invariant of a type: the call in which power is lost ends
// it, and a token that each step took and gave back would be no plainer.
ghost use Rattle.std.specs.Prelude.{◌≡◌, ◌<◌, ◌≤◌, true, length};
ghost use Rattle.drives.specs.Disk.{size};
ghost use Rattle.changes.specs.Homes.{last, IsChange};
ghost use Rattle.journals.specs.Redo.{slot_blocks};
ghost use Rattle.journals.specs.Steps.{AreWithin, WritesBlocks, StoresBlocks, StoresCommitBlock, Installs, MakesSteps};

use crate::cut_place::CutPlace;
use changes::{Change, Home};
use drives::{Drive, DriveFault};

/// Fills the slots, which are blocks 1 to 6: step 1.
fn fill_slots<D: Drive>(drive: &mut D, homes: &[Home]) -> Result<(), DriveFault>
    requires on { (D.disk drive.old).on ≡ true }
    requires few { length homes.now ≤ 6 }
    requires wide { 7 ≤ size (D.disk drive.old) }
    ensures writes { WritesBlocks (slot_blocks homes.now)
        (D.disk drive.old) result (D.disk drive.new) }
{
    for (place, home) in homes.iter().enumerate() {
        drive.write(1 + place as u64, &home.content)?; // step 1
    }
    Ok(())
}

/// Fills the slots, and flushes: steps 1 and 2.
fn stage<D: Drive>(drive: &mut D, homes: &[Home]) -> Result<(), DriveFault>
    requires on { (D.disk drive.old).on ≡ true }
    requires few { length homes.now ≤ 6 }
    requires wide { 7 ≤ size (D.disk drive.old) }
    ensures stages { StoresBlocks (slot_blocks homes.now)
        (D.disk drive.old) result (D.disk drive.new) }
{
    fill_slots(drive, homes)?;
    drive.flush() // step 2
}

/// Writes the commit block, and flushes: steps 3 and 4, or 7 and 8.
fn store_commit_block<D: Drive>(drive: &mut D, commit: &[u8; 64]) -> Result<(), DriveFault>
    requires on { (D.disk drive.old).on ≡ true }
    requires some { 0 < size (D.disk drive.old) }
    ensures stores { StoresCommitBlock commit.now (D.disk drive.old) result (D.disk drive.new) }
{
    drive.write(0, commit)?; // step 3 or 7
    drive.flush() // step 4 or 8
}

/// Writes the home blocks: step 5.
fn write_homes<D: Drive>(drive: &mut D, homes: &[Home]) -> Result<(), DriveFault>
    requires on { (D.disk drive.old).on ≡ true }
    requires within { AreWithin homes.now (D.disk drive.old) }
    ensures writes { WritesBlocks homes.now (D.disk drive.old) result (D.disk drive.new) }
    ensures same_size { size (D.disk drive.new) ≡ size (D.disk drive.old) }
{
    for home in homes {
        drive.write(u64::from(home.number), &home.content)?; // step 5
    }
    Ok(())
}

/// Installs a change: writes the home blocks, flushes, zeroes the commit block and flushes. Steps 5
/// to 8.
pub(crate) fn install<D: Drive>(drive: &mut D, homes: &[Home]) -> Result<(), DriveFault>
    requires on { (D.disk drive.old).on ≡ true }
    requires some { 0 < size (D.disk drive.old) }
    requires within { AreWithin homes.now (D.disk drive.old) }
    ensures installs { Installs homes.now (D.disk drive.old) result (D.disk drive.new) }
{
    write_homes(drive, homes)?;
    drive.flush()?; // step 6
    store_commit_block(drive, &[0; 64])
}

/// All eight steps of a change, or the place where power was lost.
pub(crate) fn make_steps<D: Drive>(drive: &mut D, change: &Change) -> Result<(), CutPlace>
    requires on { (D.disk drive.old).on ≡ true }
    requires within { last change.now < size (D.disk drive.old) }
    ensures steps { MakesSteps change.now (D.disk drive.old) result (D.disk drive.new) }
    ensures change { IsChange change.now }
{
    stage(drive, change.homes()).map_err(|_| CutPlace::Staging)?;
    store_commit_block(drive, &change.commit_block()).map_err(|_| CutPlace::Committing)?;
    install(drive, change.homes()).map_err(|_| CutPlace::Installing)
}
