// What the programs share of the world outside: the words of their command line, the files that
// these name, and a file that keeps a drive. What a file holds, no promise says.
#![tactic(auto)]

mod arguments;
mod image_file;
mod reading;

pub use arguments::Arguments;
pub use image_file::ImageFile;
pub use reading::{read_file, told};
