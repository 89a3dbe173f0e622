ghost use Rattle.std.specs.Prelude.{◌≡◌, Some};
ghost use Rattle.books.specs.Words.{word_of};
ghost use Rattle.stock.specs.Stock.{stock, stock_takes};

use crate::reels::Reels;
use books::Draft;
use refusals::StepPlace;

/// What a note does to a shelf and to the sums in item 0, by its number.
#[derive(Clone, Copy, PartialEq, Eq, Debug)]
pub(crate) enum Procedure {
    /// Adds the amount to the most.
    Build = 1,
    /// Adds the amount to the held.
    Take = 2,
    /// Takes the amount from the held.
    Give = 3,
}

/// How many procedures there are.
pub(crate) const PROCEDURES: u64 = Procedure::Give as u64;

// Each book has an enum and a `TryFrom` of its own: a trait over both would be as long as the two.
/// The procedure of a number. The step refuses any other number as it refuses items that no
/// procedure takes.
impl TryFrom<u64> for Procedure {
    ghost use Rattle.stock.specs.ProcedureNumbered.{ProcedureNumbered};

    type Error = StepPlace;

    ghost try_from_gives = { ProcedureNumbered };

    fn try_from(number: u64) -> Result<Procedure, StepPlace> {
        match number {
            1 => Ok(Procedure::Build),
            2 => Ok(Procedure::Take),
            3 => Ok(Procedure::Give),
            _ => Err(StepPlace::Items),
        }
    }
}

impl Procedure {
    ghost use Rattle.stock.specs.Procedures.{procedure_number};
    ghost use Rattle.stock.specs.Shelf.{pair_after};

    /// The word that names it.
    pub(crate) fn word(self) -> &'static str
        ensures value { Some result.now ≡ word_of stock.words (procedure_number self) }
    {
        match self {
            Procedure::Build => "build",
            Procedure::Take => "take",
            Procedure::Give => "give",
        }
    }

    /// Whether it takes the items of a draft, which is a draft of this procedure. Each takes a
    /// shelf and item 0.
    pub(crate) fn takes(self, draft: Draft) -> bool
        requires procedure { draft.procedure ≡ procedure_number self }
        ensures value { result ≡ stock_takes draft }
    {
        (1..=63).contains(&draft.a) && draft.b == 0
    }

    /// What it leaves of a pair, unless a half would leave its 32 bits.
    pub(crate) fn work(self, reels: Reels, amount: u32) -> Option<Reels>
        ensures value { result ≡ pair_after (procedure_number self) reels.held reels.most amount }
    {
        Some(match self {
            Procedure::Build => Reels {
                most: reels.most.checked_add(amount)?,
                ..reels
            },
            Procedure::Take => Reels {
                held: reels.held.checked_add(amount)?,
                ..reels
            },
            Procedure::Give => Reels {
                held: reels.held.checked_sub(amount)?,
                ..reels
            },
        })
    }
}
