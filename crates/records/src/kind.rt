ghost use Rattle.std.specs.Prelude.{◌≡◌, false, MatchResult};
ghost use Rattle.records.specs.Form.{kind_number, is_kind};

/// The kind of a record, by the number in its first byte.
#[derive(Clone, Copy, PartialEq, Eq, Debug)]
pub enum Kind {
    Posting = 1,
    Certification = 2,
    Strike = 3,
}

/// A number that is no kind's.
#[derive(Clone, Copy, PartialEq, Eq, Debug)]
pub struct NoSuchKind;

/// The number in the first byte.
impl From<Kind> for u8 {
    ghost from_gives = { λ k n. n ≡ kind_number k };

    fn from(kind: Kind) -> u8 {
        kind as u8
    }
}

/// The kind of a number, if it is one's.
impl TryFrom<u8> for Kind {
    type Error = NoSuchKind;

    ghost try_from_gives = { λ n r.
        MatchResult r (λ k. kind_number k ≡ n) (λ _. is_kind n ≡ false) };

    fn try_from(number: u8) -> Result<Kind, NoSuchKind> {
        match number {
            1 => Ok(Kind::Posting),
            2 => Ok(Kind::Certification),
            3 => Ok(Kind::Strike),
            _ => Err(NoSuchKind),
        }
    }
}
