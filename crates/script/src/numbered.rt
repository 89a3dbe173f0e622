use crate::command::Command;

/// A command with the number of its line; the first line of a script is 1.
#[derive(Clone, Copy, PartialEq, Eq, Debug)]
pub struct Numbered<'a> {
    pub line: u64,
    pub command: Command<'a>,
}
