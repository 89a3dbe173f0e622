ghost use Rattle.std.specs.Prelude.{◌≡◌, length};

use crate::posting::{draft_of, posting_of};
use crate::row_draft::{RowDraft, bad_row, check_row};
use books::Book;
use notes::{Note, make_note};
use records::{Posting, Record};
use refusals::{Reason, Refusal, RowPlace};
use rights::{Role, Row, RowQuestion, first_uncovered};

/// What the books hold: the codes of the 64 items, the 32 rows of the rights, how many records
/// stand, and for how many there is room.
#[derive(Drop)]
pub struct BookState {
    pub items: [u64; 64],
    pub rows: [Row; 32],
    pub count: u64,
    pub room: u64,
    ghost all_items: { length items ≡ 64 },
    ghost all_rows: { length rows ≡ 32 },
}

impl BookState {
    ghost use Rattle.std.specs.Prelude.{◌+◌, ◌<◌, ◌≤◌, OnOk};
    ghost use Rattle.records.specs.declared.record.Record.TheVariants.{Posting as OfPosting};
    ghost use Rattle.rights.specs.Covers.{uncovered};
    ghost use Rattle.applying.specs.Applied.{applied, if_valid, none_uncovered, posted, posting_of as posting_of_note};
    ghost use Rattle.applying.specs.BookState.{state_of, with_codes};
    ghost use Rattle.applying.specs.Results.{Leaves};
    ghost use Rattle.applying.specs.Rows.{had_room, row_set, row_filled, certified, struck, InBytes};

    /// Applies one record, or refuses it and changes nothing: a posting after the tests of its note
    /// (refusals 1 to 4) by those of a posting, a certification or a strike by its own.
    pub fn apply<B: Book>(&mut self, book: &B, entry: Record) -> Result<(), Refusal>
        ensures leaves { Leaves (applied B.meaning self.old.room (state_of self.old) entry)
            self.old result self.new }
    {
        match entry {
            Record::Posting(posting) => self.post_record(book, posting),
            Record::Certification(certification) => self.certify(book, certification.into()),
            Record::Strike { row } => self.strike(u64::from(row)),
        }
    }

    /// Refuses for a reason at the first of a posting's items that no row covers.
    fn check_covered(
        &self,
        asked: RowQuestion,
        posting: Posting,
        why: Reason,
    ) -> Result<(), Refusal>
        ensures value { result
            ≡ none_uncovered why (uncovered self.now.rows asked posting.a posting.b) }
    {
        match first_uncovered(&self.rows, asked, posting.a.into(), posting.b.into()) {
            Some(item) => Err(Refusal::at(why, item)),
            None => Ok(()),
        }
    }

    /// Replaces the codes of a note's two items, unless the list would not be valid then.
    fn take_codes<B: Book>(
        &mut self,
        book: &B,
        note: &Note,
        code_a: u64,
        code_b: u64,
    ) -> Result<(), Refusal>
        requires room { self.old.count + 1 < 18446744073709551616 }
        ensures leaves { Leaves (if_valid B.meaning
            (with_codes (state_of self.old) note.now.a note.now.b (code_a, code_b)))
            self.old result self.new }
    {
        let numbers = note.numbers();
        let mut after = self.items;
        after[usize::from(numbers.a)] = code_a;
        after[usize::from(numbers.b)] = code_b;
        if !book.verify(&after) {
            return Err(Refusal::at(Reason::InvalidAfter, 0));
        }
        self.items = after;
        self.count += 1;
        Ok(())
    }

    /// Posts a note that one user entered and another countersigns: two new codes and one record
    /// more. Or it refuses and changes nothing, by the first test that fails: two different users
    /// (else refusal 11), the enterer's rights (9), the countersigner's (12), room in the audit
    /// (13), the book's step (14), a valid list after it (15).
    pub fn post<B: Book>(
        &mut self,
        book: &B,
        note: &Note,
        enterer: u8,
        countersigner: u8,
    ) -> Result<(), Refusal>
        ensures leaves { Leaves (posted B.meaning self.old.room (state_of self.old)
            (posting_of_note note.now enterer countersigner)) self.old result self.new }
        ensures had_room { OnOk result (self.old.count < self.old.room) }
    {
        let numbers = note.numbers();
        let posting = posting_of(note, enterer, countersigner);
        if countersigner == enterer {
            return Err(Refusal::at(Reason::SamePerson, countersigner.into()));
        }
        let enters = RowQuestion {
            user: enterer.into(),
            procedure: numbers.procedure.into(),
            role: Role::Enter,
        };
        self.check_covered(enters, posting, Reason::EntererNotEntitled)?;
        let countersigns = RowQuestion {
            user: countersigner.into(),
            procedure: numbers.procedure.into(),
            role: Role::Countersign,
        };
        self.check_covered(countersigns, posting, Reason::CountersignerNotEntitled)?;
        self.check_room()?;
        let codes = (
            self.items[usize::from(numbers.a)],
            self.items[usize::from(numbers.b)],
        );
        let (code_a, code_b) = book
            .step(draft_of(posting), codes)
            .map_err(|place| Refusal::at(Reason::StepRefused, place.into()))?;
        self.take_codes(book, note, code_a, code_b)
    }

    /// Posts what a record says, after the four tests of its note.
    fn post_record<B: Book>(&mut self, book: &B, posting: Posting) -> Result<(), Refusal>
        ensures leaves { Leaves
            (applied B.meaning self.old.room (state_of self.old) (OfPosting posting))
            self.old result self.new }
    {
        let note = make_note(book, draft_of(posting))?;
        self.post(book, &note, posting.enterer, posting.countersigner)
    }

    /// Replaces a row, if there is room for the record.
    fn set_row(&mut self, place: u64, row: Row) -> Result<(), Refusal>
        requires within { place ≤ 31 }
        ensures leaves { Leaves (row_set self.old.room (state_of self.old) place row)
            self.old result self.new }
        ensures had_room { OnOk result (self.old.count < self.old.room) }
    {
        self.check_room()?;
        self.rows[place as usize] = row;
        self.count += 1;
        Ok(())
    }

    /// Fills a free row, if there is room for the record.
    fn fill(&mut self, place: u64, row: Row) -> Result<(), Refusal>
        requires within { place ≤ 31 }
        ensures leaves { Leaves (row_filled self.old.room (state_of self.old) place row)
            self.old result self.new }
        ensures had_room { OnOk result (self.old.count < self.old.room) }
    {
        if !self.rows[place as usize].is_free() {
            return Err(Refusal::at(Reason::RowTaken, place));
        }
        self.set_row(place, row)
    }

    /// Fills a row, if what is asked for is a row (else refusal 23), it is free (24), and there is
    /// room for the record (13). A refusal changes nothing.
    pub fn certify<B: Book>(&mut self, book: &B, draft: RowDraft) -> Result<(), Refusal>
        ensures leaves { Leaves (certified B.meaning self.old.room (state_of self.old) draft)
            self.old result self.new }
        ensures had_room { OnOk result (self.old.count < self.old.room) }
        ensures in_bytes { OnOk result (InBytes draft) }
    {
        let row = check_row(book, draft)?;
        self.fill(draft.row, row)
    }

    /// Frees a row, if it is at most 31 (else refusal 23), it is taken (24), and there is room for
    /// the record (13). A refusal changes nothing.
    pub fn strike(&mut self, place: u64) -> Result<(), Refusal>
        ensures leaves { Leaves (struck self.old.room (state_of self.old) place)
            self.old result self.new }
        ensures had_room { OnOk result (self.old.count < self.old.room) }
        ensures within { OnOk result (place ≤ 31) }
    {
        if place > 31 {
            return Err(bad_row(RowPlace::Row));
        }
        let before = self.rows[place as usize];
        if before.is_free() {
            return Err(Refusal::at(Reason::RowTaken, place));
        }
        self.set_row(place, Row::FREE)
    }

    /// Whether there is room for one record more, or the audit is full.
    fn check_room(&self) -> Result<(), Refusal>
        ensures value { result ≡ had_room self.now.room (state_of self.now) }
    {
        if self.count >= self.room {
            return Err(Refusal::at(Reason::AuditFull, self.count));
        }
        Ok(())
    }
}
