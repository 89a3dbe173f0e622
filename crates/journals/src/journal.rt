ghost use Rattle.std.specs.Prelude.{◌≡◌, ◌≤◌, IsOk, IfOk};
ghost use Rattle.changes.specs.CommitBlock.{count_of};
ghost use Rattle.journals.specs.Redo.{commit_block, named_homes};
ghost use Rattle.journals.specs.JournalState.{size as type_size, IsOn, IsCertain};
ghost use Rattle.journals.specs.Outcomes.{ReadsBlock, PowersOn, Changes, Finishes};
ghost use Rattle.journals.specs.Initializing.{Initializes};

use crate::faults::{ChangeFault, FinishFault, JournalFault};
use crate::initializing::initialize_blocks;
use crate::steps::{install, make_steps};
use arrayvec::ArrayVec;
use changes::{Change, Home, is_lawful, named_block};
use drives::Drive;
use std::marker::Model;

/// A journal, which owns its drive. Block 0 is the commit block, 1 to 6 are the slots, the rest
/// home blocks.
#[derive(Drop)]
pub struct Journal<D: Drive> {
    drive: D,
}

/// A journal is seen as its state, which is what its drive means.
impl<D: Drive> Model for Journal<D> {
    ghost use Rattle.journals.specs.JournalState.{JournalState};

    ghost Value = { JournalState };

    ghost view = { λ j. D.disk j.drive };
}

impl<D: Drive> Journal<D> {
    /// A journal over a drive, whose state is what the drive means. No block is touched.
    pub fn over(drive: D) -> Journal<D>
        ensures holds { result ≡ D.disk drive }
    {
        Journal { drive }
    }

    /// The drive, to look at. It means what the journal's drive means.
    pub fn drive(&self) -> &D
        ensures value { D.disk result.now ≡ self.now }
    {
        &self.drive
    }

    /// The drive, without its journal. It means what the journal's drive meant.
    pub fn into_drive(self) -> D
        ensures value { D.disk result ≡ self }
    {
        self.drive
    }

    /// How many blocks the drive has.
    pub fn size(&self) -> u64
        ensures value { result ≡ type_size self.now }
    {
        self.drive.size()
    }

    /// Whether there is power.
    pub fn is_on(&self) -> bool
        ensures value { result ≡ self.now.on }
    {
        self.drive.is_on()
    }

    /// The 64 bytes that a block holds.
    ///
    /// Refused in this order: `Off` without power, `Beyond` for a block number that is not below
    /// the size. A read loses no power.
    pub fn read(&self, block: u64) -> Result<[u8; 64], JournalFault>
        ensures reads { ReadsBlock self.now block result }
    {
        if !self.is_on() {
            return Err(JournalFault::Off);
        }
        if block >= self.size() {
            return Err(JournalFault::Beyond);
        }
        let mut buffer = [0; 64];
        match self.drive.read(block, &mut buffer) {
            Ok(()) => Ok(buffer),
            // A drive that is on reads each of its blocks.
            Err(_) => unreachable!(),
        }
    }

    /// Turns power off and on again. It is never refused.
    ///
    /// When it is done, power is on, and nothing is in flight: what each block holds is all that
    /// may stand in it. If the commit block is lawful then, what finishing will leave is among what
    /// could stand before; and it is lawful, if it was so in whatever way power might have failed.
    /// On `PowerLost` power is off, and nothing may stand that could not stand before. A call that
    /// is certain to be done (`IsCertain`) is done.
    pub fn power(&mut self) -> Result<(), JournalFault>
        ensures powers { PowersOn self.old result self.new }
        ensures done { IsCertain self.old → IsOk result }
    {
        self.drive.power().map_err(|_| JournalFault::PowerLost)
    }

    /// Makes a change, whole or not at all.
    ///
    /// Refused in this order, and nothing changes: `Off` without power, `Beyond` for a change with
    /// a block that is not below the size. When it is done, the journal is ready for the next
    /// change, the home blocks of the change hold its contents, the others what they held, and
    /// nothing else may stand. On `Cut` power is off, and the place says how far the steps had come
    /// and, if the journal was ready before, what may stand: at `Staging` only the old home
    /// contents, at `Committing` the old or the new, at `Installing` only the new.
    pub fn change(&mut self, change: &Change) -> Result<(), ChangeFault>
        ensures changes { Changes self.old change.now result self.new }
    {
        if !self.is_on() {
            return Err(ChangeFault::Off);
        }
        if change.last() >= self.size() {
            return Err(ChangeFault::Beyond);
        }
        make_steps(&mut self.drive, change)?;
        Ok(())
    }

    /// Finishes what was cut: installs the change that the commit block names, from the slots, and
    /// does nothing where it names none.
    ///
    /// Refused in this order, and nothing changes: `Off` without power, `Unlawful` where the commit
    /// block is not lawful. When it is done, the blocks that it named hold what the slots hold, the
    /// slots what they held, and the commit block is zero; if nothing was in flight before, the
    /// journal is ready and nothing else may stand. On `PowerLost` power is off, and if nothing was
    /// in flight before, nothing may stand but what finishing would have left.
    pub fn finish(&mut self) -> Result<(), FinishFault>
        ensures finishes { Finishes self.old result self.new }
    {
        if !self.is_on() {
            return Err(FinishFault::Off);
        }
        // A drive that is on reads block 0, but for one without blocks, which has nothing to
        // finish.
        let Ok(commit) = self.read(0) else {
            return Ok(());
        };
        if !is_lawful(&commit, self.size()) {
            return Err(FinishFault::Unlawful);
        }
        if commit[0] == 0 {
            return Ok(());
        }
        let homes = self
            .read_named(&commit)
            .map_err(|_| FinishFault::PowerLost)?;
        install(&mut self.drive, &homes).map_err(|_| FinishFault::PowerLost)
    }

    /// Initializes a drive that is to begin anew: zeroes the journal's own blocks, 0 to 6, and
    /// writes the first home blocks, 7 to 33, block 7 last, when the others are flushed.
    ///
    /// Refused in this order, and nothing changes: `Off` without power, `Beyond` on a drive of
    /// fewer than 34 blocks. When it is done, the journal is ready, these contents stand at home
    /// before what stood there from block 34 on, and nothing else may stand. On `PowerLost` power
    /// is off, and the promise says how far it had come.
    pub fn initialize(&mut self, home: &[[u8; 64]; 27]) -> Result<(), JournalFault>
        ensures initializes { Initializes self.old home.now result self.new }
    {
        if !self.is_on() {
            return Err(JournalFault::Off);
        }
        if self.size() < 34 {
            return Err(JournalFault::Beyond);
        }
        initialize_blocks(&mut self.drive, home).map_err(|_| JournalFault::PowerLost)
    }

    /// The home blocks that a lawful commit block names, each with what its slot holds.
    fn read_named(&self, commit: &[u8; 64]) -> Result<ArrayVec<Home, 6>, JournalFault>
        requires on { IsOn self.now }
        requires wide { 7 ≤ type_size self.now }
        requires commit { commit.now ≡ commit_block self.now.blocks }
        requires few { count_of commit.now ≤ 6 }
        ensures reads { IsOk result }
        ensures named { IfOk result (λ homes. homes.items ≡ named_homes self.now.blocks) }
    {
        let mut homes = ArrayVec::new();
        // A `for` with `?`: of a `collect` into a `Result` the check does not learn when it fails.
        for place in 0..usize::from(commit[0]) {
            homes.push(Home {
                number: named_block(commit, place),
                content: self.read(1 + place as u64)?,
            });
        }
        Ok(homes)
    }
}
