// The tally of a day by its calls and answers, kept by hand: an oracle for the sweep, written apart
// from the monitor.
use crate::tray::Tray;
use applying::BookState;
use books::Book;
use calls::Plain;
use desk::Told;
use records::Record;
use refusals::Reason;
use rights::Row;
use script::Command;
use std::alloc::{AllocError, Global};

/// How many records a drive of 64 blocks has room for.
const ROOM: u64 = 30;

/// What the books should hold, and the change, if there is one, of which power left open whether it
/// stands. After a format that was cut nothing is known, until one is accepted.
#[derive(Drop)]
pub struct Tally<'a> {
    heap: Global,
    /// The codes that a format begins with.
    opening: &'a [u64],
    pub state: BookState,
    pub records: Vec<Record>,
    pub known: bool,
    doubt: Option<Record>,
    /// The slips that wait at the desk.
    tray: Tray<'a>,
}

/// The state of the books at format: the opening, free rows and no records.
fn opened_with(opening: &[u64]) -> BookState {
    let mut items = [0; 64];
    for (item, code) in items.iter_mut().zip(opening) {
        *item = *code;
    }
    BookState {
        items,
        rows: [Row::FREE; 32],
        count: 0,
        room: ROOM,
    }
}

impl<'a> Tally<'a> {
    /// At format: the opening, free rows and no records.
    pub(crate) fn opened(heap: Global, opening: &'a [u64]) -> Tally<'a> {
        Tally {
            heap,
            opening,
            state: opened_with(opening),
            records: Vec::new(heap),
            known: true,
            doubt: None,
            tray: Tray::new(heap),
        }
    }

    /// A format begins anew, or leaves nothing known. Slips that wait stay.
    fn format(&mut self, answer: Told) {
        match answer {
            Told::Count(Ok(_)) => {
                self.state = opened_with(self.opening);
                self.records = Vec::new(self.heap);
                self.known = true;
                self.doubt = None;
            }
            Told::Count(Err(refusal)) if refusal.reason == Reason::PowerLost => {
                self.known = false;
            }
            _ => {}
        }
    }

    /// A change is made.
    fn make<B: Book>(&mut self, book: &B, entry: Record) -> Result<(), AllocError> {
        if self.state.apply(book, entry).is_ok() {
            self.records.push(entry)?;
        }
        Ok(())
    }

    /// An accepted attach settles the change in doubt.
    pub(crate) fn attach<B: Book>(&mut self, book: &B, answer: Told) -> Result<(), AllocError> {
        if let Told::Count(Ok(count)) = answer {
            let one_more = count == (self.records.len() as u64).saturating_add(1);
            if let Some(entry) = self.doubt.take().filter(|_| one_more) {
                self.make(book, entry)?;
            }
        }
        Ok(())
    }

    /// Takes in a command and its answer.
    pub(crate) fn feed<B: Book>(
        &mut self,
        book: &B,
        command: Command<'a>,
        answer: Told,
    ) -> Result<(), AllocError> {
        if let Command::Plain(Plain::Attach) = command {
            return self.attach(book, answer);
        }
        if let Command::Format { .. } = command {
            self.format(answer);
            return Ok(());
        }
        let Some(entry) = self.tray.record_of(command, answer)? else {
            return Ok(());
        };
        match answer {
            Told::Count(Ok(_)) => self.make(book, entry)?,
            Told::Count(Err(refusal)) if refusal.reason == Reason::PowerLost => {
                if refusal.place == 3 {
                    self.make(book, entry)?;
                } else if refusal.place == 2 {
                    self.doubt = Some(entry);
                }
            }
            _ => {}
        }
        Ok(())
    }
}
