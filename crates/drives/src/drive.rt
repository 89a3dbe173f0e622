ghost use Rattle.std.specs.Prelude.{◌≡◌, true, IsOk};
ghost use Rattle.drives.specs.Disk.{Disk, size as type_size};
ghost use Rattle.drives.specs.Calls.{Reads, Writes, Flushes, Powers};

use crate::drive_fault::DriveFault;

/// A drive of blocks of 64 bytes, numbered from 0. Power may fail in a write, a flush or a power
/// call. Each call's promise is in terms of `disk`, the drive's meaning.
pub trait Drive {
    /// What the drive means: whether there is power, what each block holds, what may stand in each
    /// block after power fails, and whether it is certain that a power call is done.
    ghost disk: { Self → Disk };

    /// How many blocks the drive has. No call changes it.
    fn size(&self) -> u64
        ensures value { result ≡ type_size (disk self.now) };

    /// Whether there is power.
    fn is_on(&self) -> bool
        ensures value { result ≡ (disk self.now).on };

    /// Fills a buffer of 64 bytes with what a block holds.
    ///
    /// Refused in this order, and the buffer is untouched: `Off` without power, `NoSuchBlock` for a
    /// block number that is not below the size, `BadBuffer` for a buffer that is not 64 bytes. What
    /// is not refused is done: a read loses no power, and changes nothing but the buffer.
    fn read(&self, block: u64, buffer: &mut [u8]) -> Result<(), DriveFault>
        ensures reads { Reads (disk self.now) block buffer.old result buffer.new };

    /// Writes 64 bytes to a block.
    ///
    /// Refused in this order, and nothing changes: `Off` without power, `NoSuchBlock` for a block
    /// number that is not below the size, `BadBuffer` for a content that is not 64 bytes. When
    /// it is done, power is on, the block holds the content and each other block what it held. On
    /// `PowerLost` power is off. Either way, what may stand after power fails is what could stand
    /// before and, in this block alone, the content.
    fn write(&mut self, block: u64, content: &[u8]) -> Result<(), DriveFault>
        ensures writes { Writes (disk self.old) block content.now result (disk self.new) };

    /// Makes what each block holds the only content that may stand in it after power fails.
    ///
    /// Refused without power (`Off`), and nothing changes. When it is done, power is on and each
    /// block holds what it held. On `PowerLost` power is off, and nothing may stand that could not
    /// stand before.
    fn flush(&mut self) -> Result<(), DriveFault>
        ensures flushes { Flushes (disk self.old) result (disk self.new) };

    /// Turns power off and on again. It is never refused.
    ///
    /// When it is done, power is on, each block holds a content that could stand in it, and nothing
    /// else may stand in it now. On `PowerLost` power is off, and nothing may stand that could not
    /// stand before. A drive that is certain of the call (`certain` of `Disk`) does it.
    fn power(&mut self) -> Result<(), DriveFault>
        ensures powers { Powers (disk self.old) result (disk self.new) }
        ensures done { (disk self.old).certain ≡ true → IsOk result };
}
