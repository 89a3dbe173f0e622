// A change: one to six home blocks and what they are to hold, in strictly rising number, in fixed
// memory; and the commit block that names them.
#![tactic(auto)]

mod change;
mod commit_block;
mod home;

pub use change::{Change, DoesNotFit};
pub use commit_block::{commit_blocks_round_trip, is_lawful, named_block};
pub use home::Home;
