ghost use Rattle.std.specs.Prelude.{◌≡◌, ◌<◌, ◌≤◌};
ghost use Rattle.journals.specs.JournalState.{size, home_of};
ghost use Rattle.applying.specs.BookState.{state_of};
ghost use Rattle.image.specs.Home.{block_at, part_on, head_on, opening_on, rows_on, state_with};
ghost use Rattle.image.specs.Layout.{head_block, room};
ghost use Rattle.image.specs.Reading.{code_on, is_word_on, record_within};

use crate::block_numbers::{HEAD, item_block, record_block, roll_block, room_on};
use crate::part::Part;
use crate::parts::{codes_in, rows_in};
use applying::BookState;
use drives::Drive;
use journals::Journal;
use layout::{Head, head_fields, is_word_at, read_code};
use records::{Record, decode};
use rights::Row;
use std::marker::Model;

/// What is read of the home blocks of a drive that is on and has a lawful size, so that no read of
/// a block of the image fails. It keeps nothing: each call reads the blocks that it needs, each
/// once.
#[derive(Drop)]
pub struct Reader<'a, D: Drive> {
    pub journal: &'a Journal<D>,
}

/// A reader is seen as the state of its journal.
impl<'a, D: Drive> Model for Reader<'a, D> {
    ghost use Rattle.journals.specs.JournalState.{JournalState};
    ghost use Rattle.image.specs.Reading.{Readable};

    ghost Value = { JournalState };

    ghost view = { λ r. r.journal.now };

    ghost invariant = { λ r. Readable r.journal.now };
}

impl<'a, D: Drive> Reader<'a, D> {
    /// What a home block holds.
    fn block(&self, block: u64) -> [u8; 64]
        requires low { head_block ≤ block }
        requires within { block < size self.now }
        ensures value { result ≡ block_at (home_of self.now) block }
    {
        match self.journal.read(block) {
            Ok(content) => content,
            Err(_) => unreachable!(),
        }
    }

    /// For how many records there is room.
    pub fn room(&self) -> u64
        ensures value { result ≡ room (size self.now) }
    {
        room_on(self.journal.size())
    }

    /// What the head's block holds.
    pub fn head_block(&self) -> [u8; 64]
        ensures value { result ≡ block_at (home_of self.now) head_block }
    {
        let _ = &self.journal;
        self.block(HEAD)
    }

    /// The head, whatever else its block holds.
    pub fn head(&self) -> Head
        ensures value { result ≡ head_on (home_of self.now) }
    {
        head_fields(&self.head_block())
    }

    /// The eight blocks of a part of the image.
    pub fn part(&self, part: Part) -> [[u8; 64]; 8]
        ensures value { result ≡ part_on (home_of self.now) part }
    {
        let _ = &self.journal;
        let first = part.first();
        let mut found = [[0; 64]; 8];
        // A loop over the index: what `array::try_from_fn` promises says nothing of the journal
        // that its closure borrows.
        for i in 0..8 {
            found[i] = self.block(first + i as u64);
        }
        found
    }

    /// The codes of the opening items.
    pub fn opening(&self) -> [u64; 64]
        ensures value { result ≡ opening_on (home_of self.now) }
    {
        codes_in(&self.part(Part::Opening))
    }

    /// The 32 rows of the rights.
    pub fn rows(&self) -> [Row; 32]
        ensures value { result ≡ rows_on (home_of self.now) }
    {
        rows_in(&self.part(Part::Rows))
    }

    /// The code of an item, if there is such an item.
    pub fn code(&self, item: u64) -> Option<u64>
        ensures value { result ≡ code_on (home_of self.now) item }
    {
        let _ = &self.journal;
        if item >= 64 {
            return None;
        }
        Some(read_code(&self.block(item_block(item)), item as usize % 8))
    }

    /// Whether the user is one of 0 to 15 and this is that user's word.
    pub fn is_word(&self, user: u64, word: &[u8]) -> bool
        ensures value { result ≡ is_word_on (home_of self.now) user word.now }
    {
        let _ = &self.journal;
        user <= 15 && is_word_at(&self.block(roll_block(user)), user as usize % 8, word)
    }

    /// A record of the audit, by its number, from 1 on: none where there is no room for so many,
    /// and where its block is not a record's exact form with that number.
    pub fn record(&self, number: u32) -> Option<Record>
        ensures value { result ≡ record_within (room (size self.now)) (home_of self.now) number }
    {
        let _ = &self.journal;
        if u64::from(number) > self.room() {
            return None;
        }
        decode(&self.block(record_block(number)), number)
    }

    /// What the books hold, under this head.
    pub fn state(&self, head: Head) -> BookState
        ensures value { state_of result ≡ state_with (home_of self.now) head.count }
        ensures room { result.room ≡ room (size self.now) }
    {
        BookState {
            items: codes_in(&self.part(Part::Items)),
            rows: self.rows(),
            count: u64::from(head.count),
            room: self.room(),
        }
    }
}
