ghost use Rattle.std.specs.Prelude.{◌≡◌, ℕ, ◌^◌, ◌<◌, length};
ghost use Rattle.std.specs.Option.{option_map};
ghost use Rattle.books.specs.Meaning.{Meaning, KindInRange, CeilingInRange, ValidHas64Codes, StepTests, StepGivesCodes, StepKeepsValid};
ghost use Rattle.books.specs.Words.{FewWords, ProperWords, word_of};

use crate::draft::Draft;
use refusals::StepPlace;

/// A book of 64 items, each held as a 64-bit code.
pub trait Book {
    /// The book's number, from 1 to 255.
    const KIND: u8;
    /// The largest amount of one note, at most 1,000,000,000.
    const CEILING: u64;
    /// What a code stands for.
    type Item;

    ghost KIND: { ℕ };

    ghost CEILING: { ℕ };

    /// What the book means.
    ghost meaning: { Meaning };
    /// The item that a code stands for.
    ghost item: { ℕ → Self.Item };

    /// How many procedures have a word.
    fn procedures(&self) -> u64
        ensures value { result ≡ length meaning.words };

    /// The word of a procedure, if it has one.
    fn word(&self, procedure: u64) -> Option<&str>
        ensures value { option_map (λ x. x.now) result ≡ word_of meaning.words procedure };

    /// The item that a code stands for.
    fn decode(&self, code: u64) -> Self::Item
        ensures value { result ≡ item code };

    /// The code of an item: decoding it gives the item back.
    fn encode(&self, entry: Self::Item) -> u64
        ensures decodes_back { item result ≡ entry };

    /// Verification: whether the codes are a valid list.
    fn verify(&self, codes: &[u64]) -> bool
        ensures value { result ≡ meaning.valid codes.now };

    /// The step: the new codes of items a and b, from their codes, or where it refuses.
    fn step(&self, draft: Draft, codes: (u64, u64)) -> Result<(u64, u64), StepPlace>
        ensures value { result ≡ meaning.step draft codes };

    ghost kind_is: { KIND ≡ meaning.kind };

    ghost ceiling_is: { CEILING ≡ meaning.ceiling };

    ghost kind_in_range: { KindInRange meaning };

    ghost ceiling_in_range: { CeilingInRange meaning };

    ghost few_words: { FewWords meaning };

    ghost proper_words: { ProperWords meaning };

    ghost valid_has_64_codes: { ValidHas64Codes meaning };

    ghost step_tests: { StepTests meaning };

    ghost step_gives_codes: { StepGivesCodes meaning };

    ghost step_keeps_valid: { StepKeepsValid meaning };

    ghost one_code_each: { (c d : ℕ) → c < 2 ^ 64 → d < 2 ^ 64 → item c ≡ item d → c ≡ d };
}
