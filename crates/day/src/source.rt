ghost use Rattle.std.specs.Prelude.{◌≡◌, Some};

use std::fmt;

/// What a reply answers.
#[derive(Clone, Copy, PartialEq, Eq, Debug)]
pub enum Source {
    /// The format that the rig begins with.
    Format,
    /// The attach before the first command.
    Attach,
    /// The line of this number; the first line of a script is 1.
    Line(u64),
}

impl Source {
    ghost use Rattle.day.specs.Replies.{line_of};

    /// The number of its line; 0 where it has none.
    pub(crate) fn line(self) -> u64
        ensures value { result ≡ line_of self }
    {
        match self {
            Source::Format | Source::Attach => 0,
            Source::Line(line) => line,
        }
    }
}

/// What stands before the colon of a reply's line: `format`, `attach`, or `line` and its number.
impl fmt::Display for Source {
    ghost use Rattle.day.specs.Texts.{source_text};

    ghost output = { λ x. Some (source_text x) };

    fn fmt<W: fmt::Write>(&self, f: &mut fmt::Formatter<W>) -> fmt::Result {
        match *self {
            Source::Format => f.write_str("format"),
            Source::Attach => f.write_str("attach"),
            Source::Line(line) => write!(f, "line {line}"),
        }
    }
}
