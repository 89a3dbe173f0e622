ghost use Rattle.std.specs.Prelude.{Some, codes};
ghost use Rattle.std.specs.Fmt.{styled_decimal, styled_text};
ghost use Rattle.std.specs.Option.{option_map_or};
ghost use Rattle.reports.specs.Table.{cell, mask_cell, procedure_cell};

use crate::words::{procedure_in, word_or_nothing};
use records::Record;
use registry::BookName;
use std::fmt;

/// A number in a column of the table; a dash where a record has none.
#[derive(Clone, Copy)]
pub(crate) struct Cell(pub(crate) Option<u64>);

impl fmt::Display for Cell {
    ghost output = { λ x. Some (cell x.0) };

    // In the width that a format gives.
    ghost styled_output = { λ x s.
        Some (option_map_or (styled_decimal s) x.0 (styled_text s (codes "-"))) };

    fn fmt<W: fmt::Write>(&self, f: &mut fmt::Formatter<W>) -> fmt::Result {
        match self.0 {
            Some(number) => fmt::Display::fmt(&number, f),
            None => f.pad("-"),
        }
    }
}

/// The mask of a certification, in hexadecimal; a dash where a record has none.
#[derive(Clone, Copy)]
pub(crate) struct Mask(pub(crate) Option<u64>);

impl fmt::Display for Mask {
    ghost output = { λ x. Some (mask_cell x.0) };

    fn fmt<W: fmt::Write>(&self, f: &mut fmt::Formatter<W>) -> fmt::Result {
        match self.0 {
            Some(mask) => write!(f, "0x{mask:x}"),
            None => f.write_str("-"),
        }
    }
}

/// The procedure of a record and its word; a dash where the record has none.
#[derive(Clone, Copy)]
pub(crate) struct ProcedureCell {
    pub(crate) book: BookName,
    pub(crate) entry: Record,
}

impl fmt::Display for ProcedureCell {
    ghost output = { λ x. Some (procedure_cell x.book x.entry) };

    fn fmt<W: fmt::Write>(&self, f: &mut fmt::Formatter<W>) -> fmt::Result {
        let number = Cell(procedure_in(self.entry));
        let word = word_or_nothing(self.book, self.entry);
        write!(f, "{number} {word:<8}")
    }
}
