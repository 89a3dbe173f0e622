// The script of `house`: a text that sets a rig up and asks for what is to be done on it, line by
// line. It is read up to its first bad line.
#![tactic(auto)]

mod bad_line;
mod command;
mod fault;
mod forms;
mod grammar;
mod line;
mod misfit;
mod numbered;
mod quoted;
mod reading;
mod script;
mod setup;
mod setup_lines;
mod slot;
mod slots;

pub use bad_line::BadLine;
pub use command::Command;
pub use fault::Fault;
pub use grammar::understand;
pub use line::Line;
pub use misfit::{Misfit, find_misfit};
pub use numbered::Numbered;
pub use reading::{LONGEST, read_script};
pub use script::Script;
pub use setup::Setup;
