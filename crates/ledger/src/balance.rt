ghost use Rattle.std.specs.Prelude.{◌≡◌, Some};
ghost use Rattle.ledger.specs.Ledger.{within, code_changed};
ghost use Rattle.ledger.specs.Texts.{balance_text};

use std::fmt;

/// A balance in pence.
#[derive(Clone, Copy, PartialEq, Eq, Debug)]
pub struct Balance {
    pub pence: i64,
}

/// A balance in pounds and pence, for people: `45.00`, or `-0.05`.
impl fmt::Display for Balance {
    ghost output = { λ x. Some (balance_text x.pence) };

    fn fmt<W: fmt::Write>(&self, f: &mut fmt::Formatter<W>) -> fmt::Result {
        let sign = if self.pence < 0 { "-" } else { "" };
        let pence = self.pence.unsigned_abs();
        write!(f, "{sign}{}.{:02}", pence / 100, pence % 100)
    }
}

/// The furthest that a balance may lie from zero, in pence.
const FURTHEST: i64 = 1_000_000_000_000;

/// Whether a balance lies within its bounds.
pub(crate) fn is_within(pence: i64) -> bool
    ensures value { result ≡ within pence }
{
    (-FURTHEST..=FURTHEST).contains(&pence)
}

/// The code of a balance after a change, unless it lies outside its bounds before or after.
pub(crate) fn changed_code(code: u64, change: i64) -> Option<u64>
    ensures value { result ≡ code_changed code change }
{
    let before = code.cast_signed();
    let after = before.checked_add(change)?;
    (is_within(before) && is_within(after)).then_some(after.cast_unsigned())
}
