// The trial drive: a drive over handed bytes that loses power exactly where its cut numbers say.
// What each call does is a definition, in specs/TrialState.antt; that it keeps the meaning of a
// drive follows from that.
#![tactic(auto)]

mod contents;
mod fuse;
mod trial_drive;
mod turn;

pub use fuse::Fuse;
pub use trial_drive::TrialDrive;
