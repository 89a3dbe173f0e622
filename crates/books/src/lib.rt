// Books: what the monitor keeps. A book says which lists of 64 codes are valid, and what its
// procedures do to two of them. The trait states what every book means; each book is a crate of its
// own above.
#![tactic(auto)]

mod book;
mod draft;
mod procedures;

pub use book::Book;
pub use draft::Draft;
pub use procedures::{has_procedure, procedure_named};
