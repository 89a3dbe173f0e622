// The monitor: every call on a drive and a book, and slips, which are notes that one person
// entered and that wait for a second. Only this crate can make a slip. Each call asks nothing of
// its caller, and its promise is a definition of specs/.
#![tactic(auto)]

mod applied;
mod checks;
mod first_blocks;
mod monitor;
mod slip;
mod slip_numbers;
mod stage;

pub use monitor::Monitor;
pub use slip::Slip;
pub use slip_numbers::SlipNumbers;
pub use stage::Stage;
