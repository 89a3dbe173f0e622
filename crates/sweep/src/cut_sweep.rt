// The sweep of a day over its cut numbers: power is lost at each point of it.
use crate::days::{End, Stood, run_cut};
use crate::ends::Ends;
use books::Book;
use day::DRIVE;
use script::Script;
use std::alloc::{AllocError, Global};

/// From here on a write that loses power lands.
const LANDING: u16 = 32_768;

/// A cut number that no day reaches.
const NEVER: u16 = 32_767;

/// So many power calls of a day are cut after: the attach that it begins with, and those that the
/// script makes.
const POWER_CALLS: usize = 4;

/// A script's day in a book, which is run again and again with other cut numbers.
#[derive(Drop)]
pub(crate) struct CutSweep<'a, B> {
    heap: Global,
    book: B,
    script: &'a Script<'a>,
    /// The bytes of the drive. They hold what the last day left.
    bytes: Vec<u8>,
    /// Whether the write that loses power lands.
    lands: bool,
    /// How the days ended in which power was lost.
    ends: Ends,
}

impl<'a, B: Book + Copy + Drop> CutSweep<'a, B> {
    /// The sweep of a script's day in a book, before the first run.
    pub(crate) fn new(
        heap: Global,
        book: B,
        script: &'a Script<'a>,
    ) -> Result<CutSweep<'a, B>, AllocError> {
        Ok(CutSweep {
            heap,
            book,
            script,
            bytes: vec![in heap; 0; DRIVE]?,
            lands: false,
            ends: Ends::default(),
        })
    }

    /// The bytes that the last day left.
    pub(crate) fn bytes(&self) -> &[u8] {
        self.bytes.as_slice()
    }

    /// Runs the day once, on a new drive: the power calls take these cut numbers, in their order.
    pub(crate) fn run(&mut self, cuts: &[u16]) -> Result<End, AllocError> {
        let bytes = self.bytes.as_mut_slice();
        run_cut(self.heap, self.book, self.script, bytes, cuts)
    }

    /// Cut numbers with one more behind them.
    fn with_cut(&self, cuts: &[u16], cut: u16) -> Result<Vec<u16>, AllocError> {
        let first = if self.lands { LANDING } else { 0 };
        let mut all = Vec::new(self.heap);
        all.extend_from_slice(cuts)?;
        all.push(first.saturating_add(cut))?;
        Ok(all)
    }

    /// Runs the day with these cut numbers, where power is lost at place 3, and one more behind
    /// them: each in turn that falls inside the attach which finishes the change.
    fn run_again(&mut self, cuts: &[u16]) -> Result<(), AllocError> {
        for cut in 0..NEVER {
            let both = self.with_cut(cuts, cut)?;
            let end = self.run(both.as_slice())?;
            // A format that is cut leaves no tally to compare with: once is enough.
            if !end.in_start || end.stood == Stood::NoTally {
                break;
            }
            self.ends.add(4, end);
        }
        Ok(())
    }

    /// Runs the day where the power call after `calls` others takes a cut number, each in turn that
    /// falls inside the day; and where power is lost at place 3 then, again with the attach cut.
    fn run_after(&mut self, calls: usize) -> Result<(), AllocError> {
        let before = vec![in self.heap; NEVER; calls]?;
        for cut in 0..NEVER {
            let cuts = self.with_cut(before.as_slice(), cut)?;
            let end = self.run(cuts.as_slice())?;
            let Some(place) = end.lost else {
                break;
            };
            self.ends.add(place, end);
            if place == 3 {
                self.run_again(cuts.as_slice())?;
            }
        }
        Ok(())
    }

    /// Runs the day with every cut number that falls inside it, where the write that loses power
    /// lands, or does not, and counts how the days ended.
    pub(crate) fn run_all(&mut self, lands: bool) -> Result<Ends, AllocError> {
        self.lands = lands;
        self.ends = Ends::default();
        for calls in 0..POWER_CALLS {
            self.run_after(calls)?;
        }
        Ok(self.ends)
    }
}
