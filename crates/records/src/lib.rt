// Audit records: what was done, each in one form of 64 bytes, and read back from it.
#![tactic(auto)]

mod codec;
mod fields;
mod kind;
mod record;

pub use codec::{decode, encode, records_are_read_back, records_have_one_form};
pub use record::{Certification, Posting, Record};
