// Histories: what happened to a monitor, call by call; the tally of what its books should hold, by
// the calls' arguments and answers alone; and the law that every history obeys, for every drive and
// every book.
#![tactic(auto)]

mod answer;
mod call;

ghost use Rattle.histories.specs.Law.{LawHolds};

pub use answer::Answer;
pub use call::Call;

/// A theorem: every history obeys the law at every moment, wherever power was lost in it.
pub fn every_history_is_lawful() -> bool
    ensures holds { LawHolds }
{
    true
}
