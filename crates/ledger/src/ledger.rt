ghost use Rattle.std.proofs.Common.{rules};
ghost use Rattle.books.specs.Meaning.{AmountTestIsCeiling};
ghost use Rattle.ledger.specs.Ledger.{ledger, balance};
ghost use Rattle.ledger.specs.StepKeepsValid.{ledger_has_64_codes, ledger_keeps};
ghost use Rattle.ledger.specs.StepTestsInOrder.{ledger_tests, ledger_gives_codes};

use crate::balance::{Balance, changed_code, is_within};
use crate::procedure::{PROCEDURES, Procedure};
use books::{Book, Draft};
use refusals::StepPlace;

/// The book of money.
#[derive(Clone, Copy, PartialEq, Eq, Debug)]
pub struct Ledger;

/// A theorem: where it takes the items, the step refuses at place 2 exactly the amounts outside 1
/// to the ceiling.
pub fn refuses_amounts_outside_ceiling() -> bool
    ensures holds { AmountTestIsCeiling ledger }
{
    true
}

impl Book for Ledger {
    const KIND: u8 = 1;

    const CEILING: u64 = 1_000_000_000;

    type Item = Balance;

    ghost KIND = { 1 };

    ghost CEILING = { 1000000000 };

    ghost meaning = { ledger };

    ghost item = { λ c. record { pence = balance c } };

    ghost kind_is = { Prim.search rules };

    ghost ceiling_is = { Prim.search rules };

    ghost kind_in_range = { Prim.search rules };

    ghost ceiling_in_range = { Prim.search rules };

    ghost few_words = { Prim.search rules };

    ghost proper_words = { Prim.search rules };

    ghost valid_has_64_codes = { ledger_has_64_codes };

    ghost step_tests = { ledger_tests };

    ghost step_gives_codes = { ledger_gives_codes };

    ghost step_keeps_valid = { ledger_keeps };

    ghost one_code_each = { Prim.search rules };

    fn procedures(&self) -> u64 {
        PROCEDURES
    }

    fn word(&self, procedure: u64) -> Option<&str> {
        Procedure::try_from(procedure).ok().map(Procedure::word)
    }

    fn decode(&self, code: u64) -> Balance {
        Balance {
            pence: code.cast_signed(),
        }
    }

    fn encode(&self, entry: Balance) -> u64 {
        entry.pence.cast_unsigned()
    }

    fn verify(&self, codes: &[u64]) -> bool {
        if codes.len() != 64 {
            return false;
        }
        // Each balance is tested before it is added, so that the sum fits.
        let mut sum: i64 = 0;
        for code in codes {
            let pence = code.cast_signed();
            if !is_within(pence) {
                return false;
            }
            sum += pence;
        }
        sum == 0
    }

    fn step(&self, draft: Draft, codes: (u64, u64)) -> Result<(u64, u64), StepPlace> {
        if !Procedure::try_from(draft.procedure)?.takes(draft) {
            return Err(StepPlace::Items);
        }
        if !(1..=Self::CEILING).contains(&draft.amount) {
            return Err(StepPlace::Amount);
        }
        let change = draft.amount as i64;
        let (code_a, code_b) = codes;
        let more = changed_code(code_a, change).ok_or(StepPlace::Values)?;
        let less = changed_code(code_b, -change).ok_or(StepPlace::Values)?;
        Ok((more, less))
    }
}
