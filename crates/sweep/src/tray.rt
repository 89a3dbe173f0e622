use calls::Plain;
use desk::Told;
use monitor::SlipNumbers;
use records::{Certification, Posting, Record};
use script::Command;
use std::alloc::{AllocError, Global};

/// A slip that waits, under the name that it was entered under.
#[derive(Clone, Copy)]
struct WaitingSlip<'a> {
    name: &'a [u8],
    slip: SlipNumbers,
}

/// The slips that wait at the desk, by the commands and answers: a part of the oracle.
#[derive(Drop)]
pub struct Tray<'a> {
    slips: Vec<WaitingSlip<'a>>,
}

impl<'a> Tray<'a> {
    /// No slip waits.
    pub(crate) fn new(heap: Global) -> Tray<'a> {
        Tray {
            slips: Vec::new(heap),
        }
    }

    /// Takes the first slip of a name.
    fn take(&mut self, name: &[u8]) -> Option<SlipNumbers> {
        let place = self.slips.iter().position(|waiting| waiting.name == name)?;
        Some(self.slips.remove(place).slip)
    }

    /// The record that a command asks for, if it asks for one: the slip is taken off the tray, or
    /// laid on it.
    pub(crate) fn record_of(
        &mut self,
        command: Command<'a>,
        answer: Told,
    ) -> Result<Option<Record>, AllocError> {
        match command {
            Command::Enter { slip: name, .. } => {
                if let Told::Slip(Ok(slip)) = answer {
                    self.slips.push(WaitingSlip { name, slip })?;
                }
                Ok(None)
            }
            Command::Withdraw { slip } => {
                let _ = self.take(slip);
                Ok(None)
            }
            Command::Countersign { slip, user, .. } => {
                Ok(self.take(slip).map(|slip| posting_of(slip, user)))
            }
            Command::Plain(Plain::Certify { draft: row, .. }) => Ok(Some(Record::Certification(
                Certification {
                    user: (row.user % 256) as u8,
                    procedure: (row.procedure % 256) as u8,
                    role: (row.role % 256) as u8,
                    row: (row.row % 256) as u8,
                    mask: row.mask,
                },
            ))),
            Command::Plain(Plain::Strike { row, .. }) => Ok(Some(Record::Strike {
                row: (row % 256) as u8,
            })),
            _ => Ok(None),
        }
    }
}

/// The posting of a slip that this user countersigns.
fn posting_of(slip: SlipNumbers, user: u64) -> Record {
    Record::Posting(Posting {
        enterer: slip.enterer,
        countersigner: (user % 256) as u8,
        procedure: slip.numbers.procedure,
        a: slip.numbers.a,
        b: slip.numbers.b,
        amount: slip.numbers.amount,
    })
}
