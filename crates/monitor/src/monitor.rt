ghost use Rattle.std.specs.Prelude.{◌≡◌, ◌<◌, true, Ok, Err, IfOk, IfErr};
ghost use Rattle.journals.specs.JournalState.{IsCertain};
ghost use Rattle.applying.specs.BookState.{state_of};
ghost use Rattle.image.specs.Home.{head_on};
ghost use Rattle.image.specs.Inspects.{PoweredOn};
ghost use Rattle.image.specs.Layout.{lawful_size};
ghost use Rattle.updates.specs.Update.{update_of, Within};
ghost use Rattle.monitor.specs.declared.stage.Stage.TheVariants.{Shut, Open};
ghost use Rattle.monitor.specs.Asking.{entered, item_found, record_found};
ghost use Rattle.monitor.specs.Calls.{MakesChange, Countersigns, Certifies, Strikes};
ghost use Rattle.monitor.specs.MonitorState.{monitor_with, home_of, room_of, size_of, IsOpenOn};
ghost use Rattle.monitor.specs.Slips.{handed_out};
ghost use Rattle.monitor.specs.Stages.{may_work};
ghost use Rattle.monitor.specs.Starting.{first_home, formattable};
ghost use Rattle.monitor.specs.Starting.{Formats, InitializesPowered, Attaches};

use crate::applied::{certification_of, certified, posted, struck};
use crate::checks::{check_counted, check_enterer, check_format, check_kind, check_slip, identify};
use crate::first_blocks::first_blocks;
use crate::slip::Slip;
use crate::stage::{CallKind, Stage, admit, stage_for};
use applying::{BookState, RowDraft};
use books::Book;
use drives::Drive;
use image::{Reader, inspect};
use journals::{ChangeFault, Journal};
use layout::Head;
use notes::Note;
use records::Record;
use refusals::{PowerPlace, Reason, Refusal};
use std::marker::Model;
use updates::update_for;

/// The user who certifies and strikes rows, and never executes.
const CUSTODIAN: u64 = 0;

/// A monitor over a drive, which it owns through the journal, and a book. It keeps nothing of the
/// books in memory: what they hold is what the drive holds.
#[derive(Drop)]
pub struct Monitor<D: Drive, B: Book> {
    journal: Journal<D>,
    book: B,
    stage: Stage,
}

/// A monitor is seen as its stage and the state of its journal.
impl<D: Drive, B: Book> Model for Monitor<D, B> {
    ghost use Rattle.std.specs.Prelude.{◌≡◌};
    ghost use Rattle.monitor.specs.MonitorState.{MonitorState, Steady};
    ghost use Rattle.monitor.specs.declared.stage.Stage.TheVariants.{Open};

    ghost Value = { MonitorState };

    ghost view = { λ m. record { stage = m.stage; disk = m.journal } };

    ghost invariant = { λ m. m.stage ≡ Open → Steady m.journal };
}

impl<D: Drive, B: Book> Monitor<D, B> {
    /// A monitor over a drive and a book, at first shut. No block is touched.
    pub fn over(drive: D, book: B) -> Monitor<D, B>
        ensures shut { result ≡ monitor_with Shut (D.disk drive) }
    {
        Monitor {
            journal: Journal::over(drive),
            book,
            stage: Stage::Shut,
        }
    }

    /// The drive, to look at. It means what the monitor's drive means.
    pub fn drive(&self) -> &D
        ensures value { D.disk result.now ≡ self.now.disk }
    {
        self.journal.drive()
    }

    /// The drive and the book, without their monitor. The drive means what the monitor's drive
    /// meant.
    pub fn into_parts(self) -> (D, B)
        ensures drive { D.disk result.0 ≡ self.disk }
    {
        let Monitor {
            journal,
            book,
            stage: _,
        } = self;
        (journal.into_drive(), book)
    }

    /// The stage that the monitor has come to.
    pub fn stage(&self) -> Stage
        ensures value { result ≡ self.now.stage }
    {
        self.stage
    }

    /// Begins the books anew: this house, this roll of 16 words of 8 bytes, these 64 opening items,
    /// no rows and no records. At every stage.
    ///
    /// Refused in this order, and nothing changes: 16 for a house number that is 0 or that four
    /// bytes do not hold (place 1), a roll that is not 128 bytes (2) or an opening that is not 64
    /// codes (3), 17 for a size that is not lawful, 18 for an opening that is not valid. Accepted,
    /// power was turned on, blocks 0 to 33 were written and nothing else may stand, the monitor is
    /// open, and the answer is 0 records. On lost power (7, place 4) it is dark, and the promise
    /// says how far it had come. Of a drive that is certain to power up, power was turned on.
    pub fn format(&mut self, house: u64, roll: &[u8], opening: &[u64]) -> Result<u64, Refusal>
        ensures formats { Formats B.meaning self.old house roll.now opening.now result self.new }
        ensures powers_up { IsCertain self.old.disk →
            Ok tt ≡ formattable B.meaning (size_of self.old) house roll.now opening.now →
            InitializesPowered (first_home B.meaning house roll.now opening.now)
            self.old result self.new }
    {
        admit(self.stage, CallKind::Starting)?;
        check_format(&self.book, self.journal.size(), house, roll, opening)?;
        let home = first_blocks::<B>(house as u32, roll, opening);
        if self.journal.power().is_err() || self.journal.initialize(&home).is_err() {
            self.stage = Stage::Dark;
            return Err(Refusal::power_lost(PowerPlace::Starting));
        }
        self.stage = Stage::Open;
        Ok(0)
    }

    /// Turns power on, finishes what was cut, and opens the monitor if what stands then is a lawful
    /// image of its book: the answer is its record count. At every stage.
    ///
    /// Refused in this order: 17 for a size that is not lawful, and the drive is untouched; 7,
    /// place 4, where power was lost, and then the monitor is dark; 19 for a commit block that is
    /// not lawful, and nothing was finished; and, finished, 20 for the head, 18 for the opening, 21
    /// for a record and 22 for a block that is not what the records give. Refused but for 7, it is
    /// shut. Of a drive that is certain to power up, power was turned on.
    pub fn attach(&mut self) -> Result<u64, Refusal>
        ensures attaches { Attaches B.meaning self.old result self.new }
        ensures powers_up { IsCertain self.old.disk → lawful_size (size_of self.old) ≡ true →
            PoweredOn B.meaning self.old.disk result self.new.disk }
    {
        admit(self.stage, CallKind::Starting)?;
        match inspect(&mut self.journal, &self.book) {
            Ok(count) => {
                self.stage = Stage::Open;
                Ok(count)
            }
            Err(refusal) => {
                self.stage = stage_for(refusal);
                Err(refusal)
            }
        }
    }

    /// Enters a note: a slip, for another person to countersign, with the user and the house. It
    /// changes nothing.
    ///
    /// Refused in this order, and the note is void: 6 when the monitor is shut, 7 (place 0) when it
    /// is dark, 10 for a note of another book, 8 for what is not that user's word, 9 for a user who
    /// is not entitled to the procedure on both items.
    pub fn enter(&self, user: u64, word: &[u8], note: Note) -> Result<Slip, Refusal>
        ensures answer { result ≡ handed_out (entered B.meaning self.now user word.now note) }
    {
        let reader = self.reader()?;
        let numbers = note.numbers();
        check_kind::<B>(numbers)?;
        identify(&reader, user, word)?;
        check_enterer(&reader, user, numbers)?;
        Ok(Slip::of(note, user as u8, reader.head().house))
    }

    /// Posts a slip, countersigned by a second person: two codes and one record, in one change. The
    /// answer is the record count with it.
    ///
    /// Refused in this order, and nothing changes, but that the slip is void: 6 or 7 (place 0) when
    /// the monitor is shut or dark, 10 for a slip of another book or house, 8 for what is not that
    /// user's word, 11 for the enterer, 9 and 12 where enterer or countersigner is not entitled by
    /// the rows that stand now, 13 for a full audit, 14 where the step refuses, 15 for a list that
    /// would not be valid. On lost power (7, places 1 to 3) the monitor is dark, and the place says
    /// what may stand: the old books, the old or the new, or the new.
    pub fn countersign(&mut self, user: u64, word: &[u8], mut slip: Slip) -> Result<u64, Refusal>
        ensures countersigns { Countersigns B.meaning self.old user word.now slip.entered
            result self.new }
    {
        slip.spend();
        self.post(user, word, &slip)
    }

    /// Fills a free row of the rights, at the custodian's word. The answer is the record count with
    /// its record.
    ///
    /// Refused in this order, and nothing changes: 6 or 7 (place 0) when the monitor is shut or
    /// dark, 8 for what is not the custodian's word, 23 for a row, user, procedure, role or mask
    /// that cannot be, 24 for a row that is taken, 13 for a full audit. Lost power is as for
    /// `countersign`.
    pub fn certify(&mut self, word: &[u8], draft: RowDraft) -> Result<u64, Refusal>
        ensures certifies { Certifies B.meaning self.old word.now draft result self.new }
    {
        let reader = self.reader()?;
        let head = reader.head();
        identify(&reader, CUSTODIAN, word)?;
        let state = certified(&reader, self.book(), head, draft)?;
        let entry = Record::Certification(certification_of(draft));
        self.make_update(head, entry, &state)
    }

    /// Frees a row of the rights that is taken, at the custodian's word. The answer is the record
    /// count with its record.
    ///
    /// Refused in this order, and nothing changes: 6 or 7 (place 0) when the monitor is shut or
    /// dark, 8 for what is not the custodian's word, 23 (place 1) for a row above 31, 24 for a row
    /// that is free, 13 for a full audit. Lost power is as for `countersign`.
    pub fn strike(&mut self, word: &[u8], row: u64) -> Result<u64, Refusal>
        ensures strikes { Strikes self.old word.now row result self.new }
    {
        let reader = self.reader()?;
        let head = reader.head();
        identify(&reader, CUSTODIAN, word)?;
        let state = struck(&reader, head, row)?;
        self.make_update(head, Record::Strike { row: row as u8 }, &state)
    }

    /// The code of an item, from 0 to 63. It changes nothing.
    ///
    /// Refused in this order: 6 or 7 (place 0) when the monitor is shut or dark, 26 where there is
    /// no such item.
    pub fn item(&self, item: u64) -> Result<u64, Refusal>
        ensures answer { result ≡ item_found self.now item }
    {
        let reader = self.reader()?;
        let none = Refusal::at(Reason::NoSuchEntry, item);
        reader.code(item).ok_or(none)
    }

    /// A record of the audit, by its number, from 1 to the record count. It changes nothing.
    ///
    /// Refused in this order: 6 or 7 (place 0) when the monitor is shut or dark, 26 where there is
    /// no such record.
    pub fn record(&self, number: u64) -> Result<Record, Refusal>
        ensures answer { result ≡ record_found self.now number }
    {
        let reader = self.reader()?;
        check_counted(number, reader.head().count)?;
        let none = Refusal::at(Reason::NoSuchEntry, number);
        reader.record(number as u32).ok_or(none)
    }

    /// The book.
    fn book(&self) -> &B {
        &self.book
    }

    /// The reader of the drive, for a call that works with the books: only an open monitor has one.
    fn reader(&self) -> Result<Reader<'_, D>, Refusal>
        ensures open { IfOk result (IsOpenOn self.now) }
        ensures refused { IfErr result (λ e. may_work self.now.stage ≡ Err e) }
    {
        admit(self.stage, CallKind::Working)?;
        Ok(Reader {
            journal: &self.journal,
        })
    }

    /// Posts what a slip holds, countersigned by a second person.
    fn post(&mut self, user: u64, word: &[u8], slip: &Slip) -> Result<u64, Refusal>
        ensures countersigns { Countersigns B.meaning self.old user word.now slip.now.entered
            result self.new }
    {
        let entered = slip.entered();
        let reader = self.reader()?;
        let head = reader.head();
        check_slip::<B>(head.house, entered)?;
        identify(&reader, user, word)?;
        let state = posted(&reader, self.book(), head, slip, user as u8)?;
        self.make_update(head, Record::Posting(slip.posting(user as u8)), &state)
    }

    /// Makes the update of a record, of an open monitor with this head, where the record leaves the
    /// books like this.
    fn make_update(&mut self, head: Head, entry: Record, state: &BookState) -> Result<u64, Refusal>
        requires open { self.old.stage ≡ Open }
        requires head { head ≡ head_on (home_of self.old) }
        requires room { head.count < room_of self.old }
        requires within { Within entry }
        ensures makes { MakesChange (update_of head entry (state_of state.now))
            self.old result self.new }
    {
        let _ = &self.journal;
        let Some(update) = update_for(head, entry, state) else {
            // There is room for the record, and each test passed.
            unreachable!()
        };
        match self.journal.change(&update) {
            Ok(()) => Ok(u64::from(head.count) + 1),
            Err(ChangeFault::Cut(place)) => {
                self.stage = Stage::Dark;
                Err(Refusal::at(Reason::PowerLost, place.into()))
            }
            // Power is on, and the drive has every block for which there is room.
            Err(ChangeFault::Off | ChangeFault::Beyond) => unreachable!(),
        }
    }
}
