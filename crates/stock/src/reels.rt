ghost use Rattle.std.specs.Prelude.{◌≡◌, Some};
ghost use Rattle.stock.specs.Stock.{shelf_ok, held, most, reels_code};
ghost use Rattle.stock.specs.Texts.{reels_text};

use std::fmt;

/// The reels held and the most that may be held.
#[derive(Clone, Copy, PartialEq, Eq, Debug)]
pub struct Reels {
    pub held: u32,
    pub most: u32,
}

/// The pair in words, for people: `4 held of 10`.
impl fmt::Display for Reels {
    ghost output = { λ x. Some (reels_text x.held x.most) };

    fn fmt<W: fmt::Write>(&self, f: &mut fmt::Formatter<W>) -> fmt::Result {
        write!(f, "{} held of {}", self.held, self.most)
    }
}

/// The most reels that one shelf may be built for.
const LARGEST: u32 = 10_000;

/// The pair that a code stands for.
impl From<u64> for Reels {
    ghost from_gives = { λ code reels. reels ≡ record { held = held code; most = most code } };

    fn from(code: u64) -> Reels {
        Reels {
            held: (code % (1 << 32)) as u32,
            most: (code / (1 << 32)) as u32,
        }
    }
}

/// The code of a pair.
impl From<Reels> for u64 {
    ghost from_gives = { λ reels code. code ≡ reels_code reels.held reels.most };

    fn from(reels: Reels) -> u64 {
        u64::from(reels.held) + u64::from(reels.most) * (1 << 32)
    }
}

impl Reels {
    /// Whether a shelf holds no more than its most, and that is no more than any shelf may have.
    pub(crate) fn is_in_order(self) -> bool
        ensures value { result ≡ shelf_ok self.held self.most }
    {
        self.held <= self.most && self.most <= LARGEST
    }
}
