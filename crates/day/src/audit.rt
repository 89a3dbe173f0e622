ghost use Rattle.std.specs.Prelude.{◌≡◌, IfOk};
ghost use Rattle.day.specs.Outcome.{Shows, record_seen, records_seen};

use desk::Told;
use monitor::Stage;
use records::Record;
use registry::BookName;
use reports::AuditTable;
use std::alloc::{AllocError, Global};
use std::fmt;

/// The audit at the end of a day: what every record says, if the monitor is open then.
#[derive(Drop)]
pub enum Audit {
    /// The monitor is shut.
    Shut,
    /// The monitor is dark: it lost power.
    Dark,
    /// The records of the book, from number 1 on.
    Records(BookName, Vec<Record>),
}

impl Audit {
    /// The audit of a book's monitor that came to this stage, by what was told of a look at each
    /// record.
    pub(crate) fn of(
        heap: Global,
        book: BookName,
        stage: Stage,
        looks: &[Told],
    ) -> Result<Audit, AllocError>
        ensures shows { IfOk result (Shows book stage looks.now) }
    {
        match stage {
            Stage::Shut => Ok(Audit::Shut),
            Stage::Dark => Ok(Audit::Dark),
            Stage::Open => Ok(Audit::Records(book, records_in(heap, looks)?)),
        }
    }
}

/// The record that was told, if one was seen.
fn record_in(look: &Told) -> Option<Record>
    ensures value { result ≡ record_seen look.now }
{
    match *look {
        Told::Record(Ok(entry)) => Some(entry),
        _ => None,
    }
}

/// The records among what was told.
fn records_in(heap: Global, looks: &[Told]) -> Result<Vec<Record>, AllocError>
    ensures value { IfOk result (λ v. v.items ≡ records_seen looks.now) }
{
    let mut records = Vec::new(heap);
    for look in looks {
        if let Some(entry) = record_in(look) {
            records.push(entry)?;
        }
    }
    Ok(records)
}

/// The audit as a table, or why there is none to be seen.
impl fmt::Display for Audit {
    ghost use Rattle.std.specs.Prelude.{Some};
    ghost use Rattle.day.specs.Texts.{audit_text};

    ghost output = { λ x. Some (audit_text x) };

    fn fmt<W: fmt::Write>(&self, f: &mut fmt::Formatter<W>) -> fmt::Result {
        match self {
            Audit::Shut => f.write_str("audit: the monitor is shut"),
            Audit::Dark => f.write_str("audit: the monitor is dark"),
            Audit::Records(book, records) => {
                let records = records.as_slice();
                write!(
                    f,
                    "{}",
                    AuditTable {
                        book: *book,
                        records
                    }
                )
            }
        }
    }
}
