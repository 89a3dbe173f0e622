// A redo journal over any drive: a change of up to six home blocks stands whole or not at all,
// whatever power does and in whatever order the drive keeps its writes. Block 0 is the commit
// block, 1 to 6 are slots, the rest home blocks.
#![tactic(auto)]

mod cut_place;
mod faults;
mod initializing;
mod journal;
mod steps;

pub use cut_place::CutPlace;
pub use faults::{ChangeFault, FinishFault, JournalFault};
pub use journal::Journal;
