// The stock book: reels held and the most that each shelf takes, with their sums in item 0.
// `docs/BOOKS.md` has its rules.
#![tactic(auto)]

mod procedure;
mod reels;
mod stock;

pub use reels::Reels;
pub use stock::{Stock, refuses_amounts_outside_ceiling};
