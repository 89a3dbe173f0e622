// Notes: typed numbers that passed their tests. Only this crate can make one.
#![tactic(auto)]

mod note;
mod note_numbers;

pub use note::{Note, make_note};
pub use note_numbers::NoteNumbers;
