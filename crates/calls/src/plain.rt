use applying::RowDraft;

/// A call that needs no slip.
#[derive(Clone, Copy, PartialEq, Eq, Debug)]
pub enum Plain<'a> {
    /// Begins the books anew: a house number, the 128 bytes of the roll, 64 codes.
    Format {
        house: u64,
        roll: &'a [u8],
        opening: &'a [u64],
    },
    /// Turns power on, finishes what was cut, and judges what stands.
    Attach,
    /// Fills a row of the rights, at the custodian's word.
    Certify {
        word: &'a [u8],
        draft: RowDraft,
    },
    /// Frees a row of the rights, at the custodian's word.
    Strike {
        word: &'a [u8],
        row: u64,
    },
    /// Shows the code of an item.
    Item {
        item: u64,
    },
    /// Shows a record of the audit, by its number.
    Record {
        number: u64,
    },
}
