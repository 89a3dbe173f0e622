ghost use Rattle.std.specs.Prelude.{◌≡◌, Some};
ghost use Rattle.books.specs.Words.{word_of};
ghost use Rattle.ledger.specs.Ledger.{ledger, ledger_takes, own, depositor};

use books::Draft;
use refusals::StepPlace;

/// What a note does, by its number. Each procedure adds the amount to item a and takes it from item
/// b.
#[derive(Clone, Copy, PartialEq, Eq, Debug)]
pub(crate) enum Procedure {
    /// Item a is a depositor's account, item b the house's own.
    Charge = 1,
    /// Item a is the house's own account, item b a depositor's.
    Receipt = 2,
    /// Two different accounts of one side.
    Shift = 3,
}

/// How many procedures there are.
pub(crate) const PROCEDURES: u64 = Procedure::Shift as u64;

// Each book has an enum and a `TryFrom` of its own: a trait over both would be as long as the two.
/// The procedure of a number. The step refuses any other number as it refuses items that a
/// procedure does not take.
impl TryFrom<u64> for Procedure {
    ghost use Rattle.ledger.specs.ProcedureNumbered.{ProcedureNumbered};

    type Error = StepPlace;

    ghost try_from_gives = { ProcedureNumbered };

    fn try_from(number: u64) -> Result<Procedure, StepPlace> {
        match number {
            1 => Ok(Procedure::Charge),
            2 => Ok(Procedure::Receipt),
            3 => Ok(Procedure::Shift),
            _ => Err(StepPlace::Items),
        }
    }
}

/// Whether an item is an account of the house's own.
fn is_own(item: u64) -> bool
    ensures value { result ≡ own item }
{
    item < 8
}

/// Whether an item is a depositor's account.
fn is_depositor(item: u64) -> bool
    ensures value { result ≡ depositor item }
{
    (8..64).contains(&item)
}

impl Procedure {
    ghost use Rattle.ledger.specs.Procedures.{procedure_number};

    /// The word that names it.
    pub(crate) fn word(self) -> &'static str
        ensures value { Some result.now ≡ word_of ledger.words (procedure_number self) }
    {
        match self {
            Procedure::Charge => "charge",
            Procedure::Receipt => "receipt",
            Procedure::Shift => "shift",
        }
    }

    /// Whether it takes the items of a draft, which is a draft of this procedure.
    pub(crate) fn takes(self, draft: Draft) -> bool
        requires procedure { draft.procedure ≡ procedure_number self }
        ensures value { result ≡ ledger_takes draft }
    {
        let a = draft.a;
        let b = draft.b;
        match self {
            Procedure::Charge => is_depositor(a) && is_own(b),
            Procedure::Receipt => is_own(a) && is_depositor(b),
            Procedure::Shift => {
                a != b && (is_own(a) && is_own(b) || is_depositor(a) && is_depositor(b))
            }
        }
    }
}
