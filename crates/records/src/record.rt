ghost use Rattle.std.specs.Prelude.{Some};
ghost use Rattle.records.specs.Texts.{posting_text, certification_text, record_text};

use std::fmt;

/// A note that was posted: who entered it, who countersigned it, and what it did.
#[derive(Clone, Copy, PartialEq, Eq, Debug)]
pub struct Posting {
    pub enterer: u8,
    pub countersigner: u8,
    pub procedure: u8,
    pub a: u8,
    pub b: u8,
    pub amount: u64,
}

/// A row of the rights that was filled: its number, and what it holds.
#[derive(Clone, Copy, PartialEq, Eq, Debug)]
pub struct Certification {
    pub user: u8,
    pub procedure: u8,
    pub role: u8,
    pub row: u8,
    pub mask: u64,
}

/// One entry of the audit.
#[derive(Clone, Copy, PartialEq, Eq, Debug)]
pub enum Record {
    /// A posting.
    Posting(Posting),
    /// A row of the rights was filled.
    Certification(Certification),
    /// A row of the rights was freed.
    Strike { row: u8 },
}

/// A posting in words, for people.
impl fmt::Display for Posting {
    ghost output = { λ x. Some (posting_text x) };

    fn fmt<W: fmt::Write>(&self, f: &mut fmt::Formatter<W>) -> fmt::Result {
        write!(
            f,
            "posting: enterer {}, countersigner {}, procedure {}, a {}, b {}, n {}",
            self.enterer, self.countersigner, self.procedure, self.a, self.b, self.amount
        )
    }
}

/// A certification in words, for people.
impl fmt::Display for Certification {
    ghost output = { λ x. Some (certification_text x) };

    fn fmt<W: fmt::Write>(&self, f: &mut fmt::Formatter<W>) -> fmt::Result {
        write!(
            f,
            "certification: row {}, user {}, procedure {}, role {}, mask 0x{:x}",
            self.row, self.user, self.procedure, self.role, self.mask
        )
    }
}

/// A record in words, for people.
impl fmt::Display for Record {
    ghost output = { λ x. Some (record_text x) };

    fn fmt<W: fmt::Write>(&self, f: &mut fmt::Formatter<W>) -> fmt::Result {
        match self {
            Record::Posting(posting) => write!(f, "{posting}"),
            Record::Certification(certification) => write!(f, "{certification}"),
            Record::Strike { row } => write!(f, "strike: row {row}"),
        }
    }
}
