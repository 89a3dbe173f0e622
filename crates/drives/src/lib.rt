// A block drive, by what it means: blocks of 64 bytes, power that may fail in a write, a flush or a
// power call, and writes that may or may not have reached the blocks when it does. Everything above
// is proved for every drive that keeps this meaning.
#![tactic(auto)]

mod drive;
mod drive_fault;

pub use drive::Drive;
pub use drive_fault::DriveFault;
