// Writing the journal's own blocks and the first home blocks of a drive that is to begin anew.
ghost use Rattle.std.specs.Prelude.{◌≡◌, ◌+◌, ◌≤◌, true, length};
ghost use Rattle.drives.specs.Disk.{size};
ghost use Rattle.journals.specs.Redo.{blocks_from};
ghost use Rattle.journals.specs.Steps.{WritesBlocks};
ghost use Rattle.journals.specs.Initializing.{MakesInitialSteps};

use drives::{Drive, DriveFault};

/// Writes contents to one block after another, the first to block `first`.
fn write_run<D: Drive>(drive: &mut D, first: u64, contents: &[[u8; 64]]) -> Result<(), DriveFault>
    requires on { (D.disk drive.old).on ≡ true }
    requires few { first + length contents.now ≤ 64 }
    requires within { first + length contents.now ≤ size (D.disk drive.old) }
    ensures writes { WritesBlocks (blocks_from first contents.now)
        (D.disk drive.old) result (D.disk drive.new) }
{
    for (i, content) in contents.iter().enumerate() {
        drive.write(first + i as u64, content)?;
    }
    Ok(())
}

/// Zeroes the journal's own blocks and writes the first home blocks, block 7 last and alone between
/// two flushes.
pub(crate) fn initialize_blocks<D: Drive>(
    drive: &mut D,
    home: &[[u8; 64]; 27],
) -> Result<(), DriveFault>
    requires on { (D.disk drive.old).on ≡ true }
    requires wide { 34 ≤ size (D.disk drive.old) }
    ensures steps { MakesInitialSteps home.now (D.disk drive.old) result (D.disk drive.new) }
{
    write_run(drive, 0, &[[0; 64]; 7])?;
    write_run(drive, 8, &home[1..27])?;
    drive.flush()?;
    drive.write(7, &home[0])?;
    drive.flush()
}
