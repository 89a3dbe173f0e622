ghost use Rattle.std.specs.Prelude.{◌≡◌, Some};
ghost use Rattle.refusals.specs.Refused.{lost_at};
ghost use Rattle.refusals.specs.Texts.{rule_text, heading_text, refusal_text};

use crate::entry::entry_of;
use crate::places::PowerPlace;
use crate::reason::Reason;
use crate::rule::Rule;
use std::fmt;

/// A refusal: why, and a place whose meaning stands at the reason.
#[derive(Clone, Copy, PartialEq, Eq, Debug)]
pub struct Refusal {
    pub reason: Reason,
    pub place: u64,
}

impl Refusal {
    /// The refusal for a reason, at a place.
    pub fn at(reason: Reason, place: u64) -> Refusal
        ensures names_reason { result.reason ≡ reason }
        ensures names_place { result.place ≡ place }
    {
        Refusal { reason, place }
    }

    /// Power was lost, at a place.
    pub fn power_lost(place: PowerPlace) -> Refusal
        ensures value { result ≡ lost_at place }
    {
        Refusal::at(Reason::PowerLost, place.into())
    }
}

/// The rule that a refusal guards, if it guards one, as it is printed.
#[derive(Clone, Copy, PartialEq, Eq, Debug)]
struct Guarded(Option<Rule>);

impl fmt::Display for Guarded {
    ghost output = { λ g. Some (rule_text g.0) };

    fn fmt<W: fmt::Write>(&self, f: &mut fmt::Formatter<W>) -> fmt::Result {
        match self.0 {
            Some(rule) => write!(f, "{rule}"),
            None => f.write_str("no rule"),
        }
    }
}

/// The part of a refusal's line that stands before its words: number, layer, rule and place. Where
/// a refusal is told in other words than its reason's, these follow a heading.
#[derive(Clone, Copy, PartialEq, Eq, Debug)]
pub struct Heading(pub Refusal);

impl fmt::Display for Heading {
    ghost output = { λ h. Some (heading_text h.0) };

    fn fmt<W: fmt::Write>(&self, f: &mut fmt::Formatter<W>) -> fmt::Result {
        let row = entry_of(self.0.reason);
        let rule = Guarded(row.rule);
        let place = self.0.place;
        write!(
            f,
            "refusal {} ({}, {rule}), place {place}",
            row.number, row.layer
        )
    }
}

/// One line that can be read out on the telephone.
impl fmt::Display for Refusal {
    ghost output = { λ r. Some (refusal_text r) };

    fn fmt<W: fmt::Write>(&self, f: &mut fmt::Formatter<W>) -> fmt::Result {
        let heading = Heading(*self);
        let reason = self.reason;
        write!(f, "{heading}: {reason}")
    }
}
