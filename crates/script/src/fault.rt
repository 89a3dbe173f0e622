ghost use Rattle.std.specs.Prelude.{◌≡◌};

use crate::bad_line::BadLine;

/// Why the reading of a script ended before its end.
#[derive(Clone, Copy, PartialEq, Eq, Debug)]
pub enum Fault<'a> {
    /// The script is longer than 65,536 bytes: nothing of it was read.
    TooLong,
    /// No form fits a line: nothing was taken of it and of those below it.
    BadLine(BadLine<'a>),
}

impl Fault<'_> {
    ghost use Rattle.script.specs.FaultValue.{fault_value, place_of};

    /// Where it is: the number of the bad line, or 0 for a script that is too long.
    pub fn place(&self) -> u64
        ensures value { result ≡ place_of (fault_value self.now) }
    {
        match self {
            Fault::TooLong => 0,
            Fault::BadLine(bad_line) => bad_line.number,
        }
    }
}
