ghost use Rattle.std.proofs.Common.{rules};
ghost use Rattle.books.specs.Meaning.{AmountTestIsCeiling};
ghost use Rattle.stock.specs.Stock.{stock, held, most};
ghost use Rattle.stock.specs.StepKeepsValid.{stock_has_64_codes, stock_keeps};
ghost use Rattle.stock.specs.StepTestsInOrder.{stock_tests, stock_gives_codes};

use crate::procedure::{PROCEDURES, Procedure};
use crate::reels::Reels;
use books::{Book, Draft};
use refusals::StepPlace;

/// The book of reels in hand.
#[derive(Clone, Copy, PartialEq, Eq, Debug)]
pub struct Stock;

/// A theorem: where it takes the items, the step refuses at place 2 exactly the amounts outside 1
/// to the ceiling.
pub fn refuses_amounts_outside_ceiling() -> bool
    ensures holds { AmountTestIsCeiling stock }
{
    true
}

impl Book for Stock {
    const KIND: u8 = 2;

    const CEILING: u64 = 10_000;

    type Item = Reels;

    ghost KIND = { 2 };

    ghost CEILING = { 10000 };

    ghost meaning = { stock };

    ghost item = { λ c. record { held = held c; most = most c } };

    ghost kind_is = { Prim.search rules };

    ghost ceiling_is = { Prim.search rules };

    ghost kind_in_range = { Prim.search rules };

    ghost ceiling_in_range = { Prim.search rules };

    ghost few_words = { Prim.search rules };

    ghost proper_words = { Prim.search rules };

    ghost valid_has_64_codes = { stock_has_64_codes };

    ghost step_tests = { stock_tests };

    ghost step_gives_codes = { stock_gives_codes };

    ghost step_keeps_valid = { stock_keeps };

    ghost one_code_each = { Prim.search rules };

    fn procedures(&self) -> u64 {
        PROCEDURES
    }

    fn word(&self, procedure: u64) -> Option<&str> {
        Procedure::try_from(procedure).ok().map(Procedure::word)
    }

    fn decode(&self, code: u64) -> Reels {
        Reels::from(code)
    }

    fn encode(&self, entry: Reels) -> u64 {
        u64::from(entry)
    }

    fn verify(&self, codes: &[u64]) -> bool {
        if codes.len() != 64 {
            return false;
        }
        // Each shelf is tested before its halves are added, so that the sums fit.
        let mut held = 0;
        let mut most = 0;
        for code in &codes[1..] {
            let reels = Reels::from(*code);
            if !reels.is_in_order() {
                return false;
            }
            held += reels.held;
            most += reels.most;
        }
        Reels::from(codes[0]) == Reels { held, most }
    }

    fn step(&self, draft: Draft, codes: (u64, u64)) -> Result<(u64, u64), StepPlace> {
        let procedure = Procedure::try_from(draft.procedure)?;
        if !procedure.takes(draft) {
            return Err(StepPlace::Items);
        }
        if !(1..=Self::CEILING).contains(&draft.amount) {
            return Err(StepPlace::Amount);
        }
        let amount = draft.amount as u32;
        let (code_a, code_b) = codes;
        let shelf = procedure
            .work(Reels::from(code_a), amount)
            .ok_or(StepPlace::Values)?;
        let sums = procedure
            .work(Reels::from(code_b), amount)
            .ok_or(StepPlace::Values)?;
        if !shelf.is_in_order() {
            return Err(StepPlace::Values);
        }
        Ok((u64::from(shelf), u64::from(sums)))
    }
}
