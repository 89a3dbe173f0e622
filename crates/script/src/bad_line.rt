ghost use Rattle.std.specs.Prelude.{Some};

use crate::misfit::Misfit;
use crate::quoted::Quoted;
use std::fmt;

/// A line that no form fits.
#[derive(Clone, Copy, PartialEq, Eq, Debug)]
pub struct BadLine<'a> {
    /// Its number; the first line of a script is 1.
    pub number: u64,
    /// Its bytes, without the line feed.
    pub text: &'a [u8],
    /// What did not fit.
    pub misfit: Misfit<'a>,
}

/// The line, quoted, and what did not fit, behind two blanks.
impl fmt::Display for BadLine<'_> {
    ghost use Rattle.script.specs.FaultValue.{bad_line_value};
    ghost use Rattle.script.specs.Texts.{bad_line_text};

    ghost output = { λ x. Some (bad_line_text (bad_line_value x)) };

    fn fmt<W: fmt::Write>(&self, f: &mut fmt::Formatter<W>) -> fmt::Result {
        write!(f, "  {}: {}", Quoted(self.text), self.misfit)
    }
}
