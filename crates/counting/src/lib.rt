// A drive that counts: it hands every call on to a drive below, keeps that drive's meaning, and
// counts the calls.
#![tactic(auto)]

mod counting;
mod counts;

pub use counting::{BLOCKS, Counting};
pub use counts::Counts;
