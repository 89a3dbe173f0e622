// `drill`: makes one change of four blocks on a trial drive that loses power at each cut number in
// turn, once with the write that loses power not landing and once landing. Then it finishes on a
// fresh drive over the same bytes, and prints where the change was cut and whether it stands.
#![tactic(auto)]

use changes::Change;
use drives::Drive;
use journals::{ChangeFault, CutPlace, Journal};
use std::fmt;
use trial::TrialDrive;

/// A drive of sixteen blocks.
const BYTES: usize = 1024;

/// The blocks of the change, each to be filled with its number.
const BLOCKS: [u8; 4] = [7, 8, 9, 12];

/// The change of the four blocks.
fn four_blocks() -> Option<Change> {
    let (first, others) = BLOCKS.split_first()?;
    let mut change = Change::of(u64::from(*first), &[*first; 64])?;
    for block in others {
        change.add(u64::from(*block), &[*block; 64]).ok()?;
    }
    Some(change)
}

// What the drill prints is its own words: a `Display` in `journals` would be for this program
// alone.
/// What became of the change.
#[derive(Clone, Copy)]
enum ChangeOutcome {
    /// It was made.
    Done,
    /// Power was lost at this place.
    Cut(CutPlace),
    /// It was not begun, and why.
    Trouble(&'static str),
}

impl fmt::Display for ChangeOutcome {
    fn fmt<W: fmt::Write>(&self, f: &mut fmt::Formatter<W>) -> fmt::Result {
        match *self {
            ChangeOutcome::Done => f.write_str("done"),
            ChangeOutcome::Cut(place) => write!(f, "place {}", u64::from(place)),
            ChangeOutcome::Trouble(trouble) => f.write_str(trouble),
        }
    }
}

/// Makes the change with one cut number.
fn change_cut_at(bytes: &mut [u8], cut: u16) -> ChangeOutcome {
    let cuts = [cut];
    let mut journal = Journal::over(TrialDrive::over(bytes, &cuts));
    if journal.power().is_err() {
        return ChangeOutcome::Trouble("no power");
    }
    let Some(change) = four_blocks() else {
        return ChangeOutcome::Trouble("no change");
    };
    match journal.change(&change) {
        Ok(()) => ChangeOutcome::Done,
        Err(ChangeFault::Cut(place)) => ChangeOutcome::Cut(place),
        Err(ChangeFault::Off) => ChangeOutcome::Trouble("off"),
        Err(ChangeFault::Beyond) => ChangeOutcome::Trouble("beyond the drive"),
    }
}

// The faults of finishing are the words that the drill prints.
/// Finishes on a fresh drive over the same bytes, and counts the blocks of the change that stand.
fn count_standing(bytes: &mut [u8]) -> Result<usize, &'static str> {
    let mut journal = Journal::over(TrialDrive::over(bytes, &[]));
    journal.power().map_err(|_| "no power")?;
    journal.finish().map_err(|_| "cannot be finished")?;
    let mut standing = 0;
    for block in BLOCKS {
        let content = journal
            .read(u64::from(block))
            .map_err(|_| "cannot be read")?;
        if content == [block; 64] {
            standing += 1;
        }
    }
    Ok(standing)
}

/// One line of the drill.
fn drill(rt: &HostRuntime, cut: u16) -> anyhow::Result<()> {
    let mut bytes = [0; BYTES];
    let outcome = change_cut_at(&mut bytes, cut);
    let standing = match count_standing(&mut bytes) {
        Ok(0) => "does not stand",
        Ok(count) if count == BLOCKS.len() => "stands",
        Ok(_) => "STANDS IN PART",
        Err(trouble) => trouble,
    };
    println!(rt; "cut number {cut}: {outcome}, the change {standing}")?;
    Ok(())
}

fn main(rt: HostRuntime) -> anyhow::Result<()> {
    for cut in (0..15).chain(32_768..32_783) {
        drill(&rt, cut)?;
    }
    Ok(())
}
