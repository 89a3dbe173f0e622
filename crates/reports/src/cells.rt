use records::Record;

/// The numbers of a record, each in its column of the table; none where a record has none.
#[derive(Clone, Copy, Default)]
pub(crate) struct Cells {
    pub(crate) row: Option<u64>,
    pub(crate) first: Option<u64>,
    pub(crate) second: Option<u64>,
    pub(crate) role: Option<u64>,
    pub(crate) a: Option<u64>,
    pub(crate) b: Option<u64>,
    pub(crate) amount: Option<u64>,
    pub(crate) mask: Option<u64>,
}

/// What a record fills.
impl From<Record> for Cells {
    ghost use Rattle.std.specs.Prelude.{◌≡◌};
    ghost use Rattle.reports.specs.Table.{cells_of};

    ghost from_gives = { λ entry cells. cells ≡ cells_of entry };

    fn from(entry: Record) -> Cells {
        match entry {
            Record::Posting(posting) => Cells {
                first: Some(posting.enterer.into()),
                second: Some(posting.countersigner.into()),
                a: Some(posting.a.into()),
                b: Some(posting.b.into()),
                amount: Some(posting.amount),
                ..Cells::default()
            },
            Record::Certification(certification) => Cells {
                row: Some(certification.row.into()),
                first: Some(certification.user.into()),
                role: Some(certification.role.into()),
                mask: Some(certification.mask),
                ..Cells::default()
            },
            Record::Strike { row } => Cells {
                row: Some(row.into()),
                ..Cells::default()
            },
        }
    }
}
