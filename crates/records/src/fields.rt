ghost use Rattle.std.specs.Prelude.{◌≡◌};

use crate::kind::Kind;
use crate::record::Record;

/// What a record's block holds before its number: the kind's number, and a place for whatever a
/// kind may fill. What a kind does not fill is zero.
#[derive(Clone, Copy, Default)]
pub struct Fields {
    pub kind: u8,
    pub first: u8,
    pub second: u8,
    pub procedure: u8,
    pub role: u8,
    pub row: u8,
    pub a: u8,
    pub b: u8,
    pub amount: u64,
    pub mask: u64,
}

/// What a record fills.
impl From<Record> for Fields {
    ghost use Rattle.records.specs.Form.{fields_of};

    ghost from_gives = { λ entry fields. fields ≡ fields_of entry };

    fn from(entry: Record) -> Fields {
        match entry {
            Record::Posting(posting) => Fields {
                kind: Kind::Posting.into(),
                first: posting.enterer,
                second: posting.countersigner,
                procedure: posting.procedure,
                a: posting.a,
                b: posting.b,
                amount: posting.amount,
                ..Fields::default()
            },
            Record::Certification(certification) => Fields {
                kind: Kind::Certification.into(),
                first: certification.user,
                procedure: certification.procedure,
                role: certification.role,
                row: certification.row,
                mask: certification.mask,
                ..Fields::default()
            },
            Record::Strike { row } => Fields {
                kind: Kind::Strike.into(),
                row,
                ..Fields::default()
            },
        }
    }
}
