ghost use Rattle.std.specs.Prelude.{◌≡◌, Some};
ghost use Rattle.refusals.specs.Texts.{rule_name};

use std::fmt;

/// The rule of Clark and Wilson that a refusal guards: certification rules C1 to C5, enforcement
/// rules E1 to E4.
#[derive(Clone, Copy, PartialEq, Eq, Debug)]
pub enum Rule {
    C1,
    C2,
    C3,
    C4,
    C5,
    E1,
    E2,
    E3,
    E4,
}

impl Rule {
    /// The rule's name as it is printed.
    pub fn name(self) -> &'static str
        ensures value { result.now ≡ rule_name self }
    {
        match self {
            Rule::C1 => "C1",
            Rule::C2 => "C2",
            Rule::C3 => "C3",
            Rule::C4 => "C4",
            Rule::C5 => "C5",
            Rule::E1 => "E1",
            Rule::E2 => "E2",
            Rule::E3 => "E3",
            Rule::E4 => "E4",
        }
    }
}

/// The rule's name.
impl fmt::Display for Rule {
    ghost output = { λ x. Some (rule_name x) };

    fn fmt<W: fmt::Write>(&self, f: &mut fmt::Formatter<W>) -> fmt::Result {
        f.write_str(self.name())
    }
}
