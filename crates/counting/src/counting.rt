ghost use Rattle.std.specs.Prelude.{◌≡◌, true, IsOk};
ghost use Rattle.drives.specs.Calls.{Writes, Flushes, Powers};
ghost use Rattle.counting.specs.CountingState.{CountingState, no_counts, write_counted, flush_counted, power_counted};

use crate::counts::Counts;
use drives::{Drive, DriveFault};
use std::array;
use std::cell::Cell;
use std::marker::Model;

/// How many blocks have a count of reads of their own: those with the lowest numbers.
pub const BLOCKS: usize = 1024;

/// A drive that counts the calls which it hands on to the drive below.
#[derive(Drop)]
pub struct Counting<D: Drive> {
    drive: D,
    // A read takes the drive by `&`, so its counts are cells. What a cell holds is beyond a
    // contract: reads are tested, not proved.
    reads: [Cell<u64>; BLOCKS],
    writes: u64,
    flushes: u64,
    powers: u64,
}

/// A counting drive is seen as what the drive below means, and its counts but for those of reads.
impl<D: Drive> Model for Counting<D> {
    ghost use Rattle.counting.specs.CountingState.{CountingState};
    ghost use Rattle.counting.specs.declared.counts.Counts.{Counts};

    ghost Value = { CountingState };

    ghost view = { λ c. record {
      disk = D.disk c.drive;
      counts = record { writes = c.writes; flushes = c.flushes; powers = c.powers };
    } };
}

impl<D: Drive> Counting<D> {
    /// A counting drive that means what this drive means, and counts from zero.
    pub fn over(drive: D) -> Counting<D>
        ensures holds { result.disk ≡ D.disk drive }
        ensures counts { result.counts ≡ no_counts }
    {
        Counting {
            drive,
            reads: array::from_fn(|_| Cell::new(0)),
            writes: 0,
            flushes: 0,
            powers: 0,
        }
    }

    /// How many writes, flushes and power calls were made so far.
    pub fn counts(&self) -> Counts
        ensures value { result ≡ self.now.counts }
    {
        Counts {
            writes: self.writes,
            flushes: self.flushes,
            powers: self.powers,
        }
    }

    /// How often each of the first 1,024 blocks was read so far, refused reads among the others. It
    /// is tested, not proved.
    pub fn reads(&self) -> [u64; BLOCKS] {
        let mut reads = [0; BLOCKS];
        for (count, cell) in reads.iter_mut().zip(&self.reads) {
            *count = cell.get();
        }
        reads
    }
}

/// Every call is handed on to the drive below and answered as that answers it, so a counting drive
/// keeps the meaning of the drive below. Each write, flush and power call raises its own count by
/// one and no other.
impl<D: Drive> Drive for Counting<D> {
    ghost disk = { λ c. c.disk };

    /// How many blocks the drive below has.
    fn size(&self) -> u64 {
        self.drive.size()
    }

    /// Whether the drive below has power.
    fn is_on(&self) -> bool {
        self.drive.is_on()
    }

    /// Reads from the drive below, and counts the read of a block that has a count.
    fn read(&self, block: u64, buffer: &mut [u8]) -> Result<(), DriveFault> {
        if let Some(count) = self.reads.get(block as usize) {
            count.set(count.get().saturating_add(1));
        }
        self.drive.read(block, buffer)
    }

    /// Writes to the drive below, and counts the write, also where it is refused or loses power.
    fn write(&mut self, block: u64, content: &[u8]) -> Result<(), DriveFault>
        ensures writes { Writes self.old.disk block content.now result self.new.disk }
        ensures counted { self.new.counts ≡ write_counted self.old.counts }
    {
        self.writes = self.writes.saturating_add(1);
        self.drive.write(block, content)
    }

    /// Flushes the drive below, and counts the flush, also where it is refused or loses power.
    fn flush(&mut self) -> Result<(), DriveFault>
        ensures flushes { Flushes self.old.disk result self.new.disk }
        ensures counted { self.new.counts ≡ flush_counted self.old.counts }
    {
        self.flushes = self.flushes.saturating_add(1);
        self.drive.flush()
    }

    /// Turns power of the drive below off and on again, and counts the power call, also where it
    /// loses power.
    fn power(&mut self) -> Result<(), DriveFault>
        ensures powers { Powers self.old.disk result self.new.disk }
        ensures done { self.old.disk.certain ≡ true → IsOk result }
        ensures counted { self.new.counts ≡ power_counted self.old.counts }
    {
        self.powers = self.powers.saturating_add(1);
        self.drive.power()
    }
}
