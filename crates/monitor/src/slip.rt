ghost use Rattle.std.specs.Prelude.{◌≡◌, ◌<◌, true, OnOk};
ghost use Rattle.notes.specs.Notes.{IsNote};
ghost use Rattle.applying.specs.Applied.{posted};
ghost use Rattle.applying.specs.Results.{Leaves};
ghost use Rattle.applying.specs.BookState.{state_of};
ghost use Rattle.monitor.specs.Slips.{SlipValue, unspent, posting_by};

use crate::slip_numbers::SlipNumbers;
use applying::{BookState, posting_of};
use books::Book;
use notes::Note;
use records::Posting;
use refusals::Refusal;
use std::marker::Model;

/// A slip: a note that one person entered at a house, waiting for another to countersign it.
/// It cannot be let fall: it ends in countersign or in withdraw.
pub struct Slip {
    note: Note,
    enterer: u8,
    house: u32,
    // A type without `Drop` would need no flag. docs/DECISIONS.md says why a slip has one.
    spent: bool,
}

/// A slip is seen as its numbers, and whether it is spent.
impl Model for Slip {
    ghost use Rattle.monitor.specs.Slips.{SlipValue};

    ghost Value = { SlipValue };

    ghost view = { λ s. record {
      entered = record { numbers = s.note; enterer = s.enterer; house = s.house };
      spent = s.spent;
    } };
}

impl Drop for Slip {
    fn drop(self)
        requires is_spent { self.spent ≡ true }
    {
        let Slip {
            note: _,
            enterer: _,
            house: _,
            spent: _,
        } = self;
    }
}

impl Slip {
    /// The slip of a note that a user entered at a house.
    pub(crate) fn of(note: Note, enterer: u8, house: u32) -> Slip
        ensures value { result ≡
            unspent (record { numbers = note; enterer = enterer; house = house }) }
    {
        Slip {
            note,
            enterer,
            house,
            spent: false,
        }
    }

    /// The numbers that the slip holds.
    pub fn entered(&self) -> SlipNumbers
        ensures value { result ≡ self.now.entered }
        ensures is_note { IsNote result.numbers }
    {
        SlipNumbers {
            numbers: self.note.numbers(),
            enterer: self.enterer,
            house: self.house,
        }
    }

    /// What the record of the slip says that a user countersigns.
    pub(crate) fn posting(&self, countersigner: u8) -> Posting
        ensures value { result ≡ posting_by self.now.entered countersigner }
    {
        posting_of(&self.note, self.enterer, countersigner)
    }

    /// Posts the slip's note on a state of the books, countersigned by a second user, or refuses it
    /// and changes nothing.
    pub(crate) fn post<B: Book>(
        &self,
        book: &B,
        state: &mut BookState,
        countersigner: u8,
    ) -> Result<(), Refusal>
        ensures leaves { Leaves (posted B.meaning state.old.room (state_of state.old)
            (posting_by self.now.entered countersigner))
            state.old result state.new }
        ensures had_room { OnOk result (state.old.count < state.old.room) }
    {
        state.post(book, &self.note, self.enterer, countersigner)
    }

    /// Marks the slip as spent, so that it may be let fall.
    pub(crate) fn spend(&mut self)
        ensures spent { self.new ≡ record self.old { spent = true } }
    {
        self.spent = true;
    }

    /// Ends the slip without a posting, and hands out its numbers.
    pub fn withdraw(mut self) -> SlipNumbers
        ensures value { result ≡ self.entered }
    {
        self.spend();
        self.entered()
    }
}
