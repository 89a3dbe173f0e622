ghost use Rattle.std.specs.Prelude.{◌≡◌, true, false, [], ◌∷◌, ◌++◌, length, MatchOption, OnOk, OnErr};
ghost use Rattle.std.specs.Result.{is_ok};
ghost use Rattle.changes.specs.CommitBlock.{commit_block_of};
ghost use Rattle.changes.specs.Homes.{home_at, numbers, last, home_number, fits_behind, IsChange};

use crate::home::Home;
use arrayvec::ArrayVec;
use std::marker::Model;

/// One to six home blocks with new contents, in strictly rising number, each number from 7 on and
/// of two bytes. It takes fixed memory.
#[derive(Drop)]
pub struct Change {
    homes: ArrayVec<Home, 6>,
}

/// A change is seen as its list of homes, and is known to be one.
impl Model for Change {
    ghost use Rattle.std.specs.Prelude.{List};
    ghost use Rattle.changes.specs.declared.home.Home.{Home};
    ghost use Rattle.changes.specs.Homes.{IsChange};

    ghost Value = { List Home };

    ghost view = { λ c. c.homes.items };

    ghost invariant = { λ c. IsChange c.homes.items };
}

/// Why a block was not added: there are six already, or its number is not above the others, or two
/// bytes do not hold it.
#[derive(Clone, Copy, PartialEq, Eq, Debug)]
pub struct DoesNotFit;

impl Change {
    /// A change of one block, which is to hold this content; none where the number is no home
    /// block's, which is below 7 or more than two bytes hold.
    pub fn of(block: u64, content: &[u8; 64]) -> Option<Change>
        ensures value { MatchOption result
            (home_number block ≡ false)
            (λ c. (home_number block ≡ true) × (c ≡ home_at block content.now ∷ [])) }
    {
        if block < 7 {
            return None;
        }
        let number = u16::try_from(block).ok()?;
        let mut homes = ArrayVec::new();
        homes.push(Home {
            number,
            content: *content,
        });
        Some(Change { homes })
    }

    /// Adds a block behind the others, which is to hold this content. Refused, and the change is as
    /// it was, where it does not fit there: there are six already, or its number is not above the
    /// last, or two bytes do not hold it.
    pub fn add(&mut self, block: u64, content: &[u8; 64]) -> Result<(), DoesNotFit>
        ensures value { is_ok result ≡ fits_behind self.old block }
        ensures added { OnOk result (self.new ≡ self.old ++ home_at block content.now ∷ []) }
        ensures kept { OnErr result (self.new ≡ self.old) }
    {
        if self.homes.is_full() || block <= self.last() {
            return Err(DoesNotFit);
        }
        let number = u16::try_from(block).map_err(|_| DoesNotFit)?;
        self.homes.push(Home {
            number,
            content: *content,
        });
        Ok(())
    }

    /// How many blocks the change has, from 1 to 6.
    pub fn len(&self) -> usize
        ensures value { result ≡ length self.now }
    {
        self.homes.len()
    }

    /// The number of its last block, which is the highest.
    pub fn last(&self) -> u64
        ensures value { result ≡ last self.now }
    {
        u64::from(self.homes[self.len() - 1].number)
    }

    /// Its blocks in rising number, each with what it is to hold.
    pub fn homes(&self) -> &[Home]
        ensures value { result.now ≡ self.now }
        ensures change { IsChange result.now }
    {
        self.homes.as_slice()
    }

    /// The commit block that names the change's blocks: how many there are, a zero, their numbers
    /// of two bytes each, the low byte first, and zeros to the end.
    pub fn commit_block(&self) -> [u8; 64]
        ensures value { result ≡ commit_block_of (numbers self.now) }
    {
        let mut block = [0; 64];
        block[0] = self.homes.len() as u8;
        for (place, home) in self.homes.iter().enumerate() {
            let bytes = home.number.to_le_bytes();
            // `copy_from_slice` of both is not proved: the lemmas on this block set single bytes.
            block[2 + 2 * place] = bytes[0];
            block[3 + 2 * place] = bytes[1];
        }
        block
    }
}
