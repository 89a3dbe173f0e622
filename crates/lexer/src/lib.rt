// The pieces of a script: its lines, the words of a line, and the numbers that words type.
// Every function takes any bytes.
#![tactic(auto)]

mod lines;
mod numerals;
mod text;
mod words;

pub use lines::Lines;
pub use numerals::typed_number;
pub use text::{is_text, without_comment};
pub use words::Words;
