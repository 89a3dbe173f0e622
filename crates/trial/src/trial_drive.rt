ghost use Rattle.std.specs.Prelude.{◌≡◌, ◌/◌, true, Ok, length, IsOk};
ghost use Rattle.drives.specs.Disk.{size as type_size};
ghost use Rattle.drives.specs.Calls.{Reads, Writes, Flushes, Powers};
ghost use Rattle.trial.specs.Schedule.{turn, fuse_left};
ghost use Rattle.trial.specs.TrialState.{TrialState, disk, fresh, fault, read_answer, read_buffer, write, flush, power};

use crate::contents::{fetch, store};
use crate::fuse::Fuse;
use crate::turn::Turn;
use drives::{Drive, DriveFault};
use std::marker::Model;

/// How many cut numbers a trial drive keeps.
const MOST_CUTS: usize = 16;

/// A drive over handed bytes: block k is the 64 bytes from 64 * k on. The bytes past the last whole
/// block are never touched. What a block holds is always the only content that may stand in it.
#[derive(Drop)]
pub struct TrialDrive<'a> {
    bytes: &'a mut [u8],
    /// Whether there is power.
    on: bool,
    /// The cut numbers that no power call has taken yet.
    cuts: &'a [u16],
    fuse: Fuse,
}

/// A trial drive is seen as its state: the bytes, power, the cut numbers that no power call has
/// taken yet, and the fuse.
impl<'a> Model for TrialDrive<'a> {
    ghost use Rattle.trial.specs.TrialState.{TrialState};

    ghost Value = { TrialState };

    ghost view = { λ t. record {
      bytes = t.bytes.now;
      on = t.on;
      cuts = t.cuts.now;
      fuse = t.fuse;
    } };
}

impl<'a> TrialDrive<'a> {
    /// A drive over the bytes that is off, keeps the first 16 of the cut numbers for its power
    /// calls, and passes over the others.
    pub fn over(bytes: &'a mut [u8], cuts: &'a [u16]) -> TrialDrive<'a>
        ensures state { result ≡ fresh bytes.old cuts.now }
    {
        TrialDrive {
            bytes,
            on: false,
            cuts: &cuts[..cuts.len().min(MOST_CUTS)],
            fuse: Fuse::Never,
        }
    }

    /// The bytes as the drive leaves them, for a fresh drive.
    pub fn into_bytes(self) -> &'a mut [u8]
        ensures bytes { result.now ≡ self.entry.bytes }
    {
        self.bytes
    }

    /// Turns power off and on again, which never fails, and takes the next cut number: that says
    /// when power fails next. With none left, it never fails again. No block changes.
    pub fn turn_on(&mut self)
        ensures state { self.new ≡ power self.old }
    {
        self.on = true;
        self.fuse = match self.cuts.split_first() {
            Some((cut, later)) => {
                self.cuts = later;
                Fuse::from(*cut)
            }
            None => Fuse::Never,
        };
    }

    /// Makes the tests of read and write, in their order: power, block number, buffer. Answers the
    /// first that fails.
    fn check(&self, block: u64, buffer_length: usize) -> Result<(), DriveFault>
        ensures value { result ≡ read_answer (fault self.now block buffer_length) }
    {
        if !self.on {
            Err(DriveFault::Off)
        } else if block >= self.size() {
            Err(DriveFault::NoSuchBlock)
        } else if buffer_length != 64 {
            Err(DriveFault::BadBuffer)
        } else {
            Ok(())
        }
    }

    /// How the next write or flush goes, which leaves one fewer until power fails. The rest of the
    /// state is untouched.
    fn take_turn(&mut self) -> Turn
        ensures value { result ≡ turn self.old.fuse }
        ensures state { self.new ≡ record self.old { fuse = fuse_left self.old.fuse } }
    {
        match self.fuse {
            Fuse::Never => Turn::Done,
            Fuse::After { left: 0, lands } => Turn::Lost { lands },
            Fuse::After { left, lands } => {
                self.fuse = Fuse::After {
                    left: left - 1,
                    lands,
                };
                Turn::Done
            }
        }
    }
}

/// The trial drive keeps the meaning of a drive, and each call answers and leaves exactly what its
/// definition in `specs/TrialState.antt` says.
impl<'a> Drive for TrialDrive<'a> {
    ghost disk = { disk };

    /// How many whole blocks the handed bytes have: their number divided by 64, rounded down.
    fn size(&self) -> u64
        ensures value { result ≡ type_size (disk self.now) }
        ensures whole_blocks { result ≡ length self.now.bytes / 64 }
    {
        (self.bytes.len() / 64) as u64
    }

    fn is_on(&self) -> bool {
        self.on
    }

    /// Fills a buffer of 64 bytes with what a block holds.
    ///
    /// Refused in this order, and the buffer is untouched: `Off` without power, `NoSuchBlock` for a
    /// block number that is not below the size, `BadBuffer` for a buffer that is not 64 bytes.
    fn read(&self, block: u64, buffer: &mut [u8]) -> Result<(), DriveFault>
        ensures reads { Reads (disk self.now) block buffer.old result buffer.new }
        ensures answer { result ≡ read_answer (fault self.now block (length buffer.old)) }
        ensures buffer { buffer.new ≡ read_buffer self.now block buffer.old }
    {
        self.check(block, buffer.len())?;
        fetch(self.bytes, block as usize, buffer);
        Ok(())
    }

    /// Writes 64 bytes to a block, or loses power where the fuse says so.
    ///
    /// Refused in this order, and nothing changes: `Off` without power, `NoSuchBlock` for a block
    /// number that is not below the size, `BadBuffer` for a content that is not 64 bytes. When it
    /// is done, the block holds the content, and one write or flush fewer is left until power
    /// fails. On `PowerLost` power is off, and the block holds the content exactly if the write
    /// lands.
    fn write(&mut self, block: u64, content: &[u8]) -> Result<(), DriveFault>
        ensures writes { Writes (disk self.old) block content.now result (disk self.new) }
        ensures answer { result ≡ (write self.old block content.now).answer }
        ensures state { self.new ≡ (write self.old block content.now).state }
    {
        self.check(block, content.len())?;
        match self.take_turn() {
            Turn::Done => {
                store(self.bytes, block as usize, content);
                Ok(())
            }
            Turn::Lost { lands } => {
                if lands {
                    store(self.bytes, block as usize, content);
                }
                self.on = false;
                Err(DriveFault::PowerLost)
            }
        }
    }

    /// Does nothing to the blocks, or loses power where the fuse says so.
    ///
    /// Refused without power (`Off`), and nothing changes. When it is done, one write or flush
    /// fewer is left until power fails. On `PowerLost` power is off. Each block holds what it held.
    fn flush(&mut self) -> Result<(), DriveFault>
        ensures flushes { Flushes (disk self.old) result (disk self.new) }
        ensures answer { result ≡ (flush self.old).answer }
        ensures state { self.new ≡ (flush self.old).state }
    {
        if !self.on {
            return Err(DriveFault::Off);
        }
        match self.take_turn() {
            Turn::Done => Ok(()),
            Turn::Lost { .. } => {
                self.on = false;
                Err(DriveFault::PowerLost)
            }
        }
    }

    /// Turns power off and on again, as `turn_on` does, and is always done.
    fn power(&mut self) -> Result<(), DriveFault>
        ensures powers { Powers (disk self.old) result (disk self.new) }
        ensures done { IsOk result }
        ensures answer { result ≡ Ok tt }
        ensures state { self.new ≡ power self.old }
    {
        self.turn_on();
        Ok(())
    }
}
