use crate::cell::{Cell, Mask, ProcedureCell};
use crate::cells::Cells;
use crate::words::kind_of;
use records::Record;
use registry::BookName;
use std::fmt;

/// The names of the columns.
const COLUMN_NAMES: &str =
    "  number  kind           row  first  second  procedure   role   a   b           n  mask";

/// A row of the table: a record of a book, with its number.
#[derive(Clone, Copy)]
struct Row {
    book: BookName,
    number: u64,
    entry: Record,
}

impl fmt::Display for Row {
    ghost use Rattle.std.specs.Prelude.{Some};
    ghost use Rattle.reports.specs.Table.{record_row};

    ghost output = { λ x. Some (record_row x.book x.number x.entry) };

    fn fmt<W: fmt::Write>(&self, f: &mut fmt::Formatter<W>) -> fmt::Result {
        let entry = self.entry;
        let book = self.book;
        let kind = kind_of(entry);
        let procedure = ProcedureCell { book, entry };
        let cells = Cells::from(entry);
        write!(
            f,
            "  {:>6}  {kind:<13}  {:>3}  {:>5}  {:>6}",
            self.number,
            Cell(cells.row),
            Cell(cells.first),
            Cell(cells.second)
        )?;
        write!(
            f,
            "  {procedure}  {:>4}  {:>2}  {:>2}  {:>10}  {}",
            Cell(cells.role),
            Cell(cells.a),
            Cell(cells.b),
            Cell(cells.amount),
            Mask(cells.mask)
        )
    }
}

/// The audit of a book as a table, for people: a head, and a row for each record, numbered from 1.
#[derive(Clone, Copy)]
pub struct AuditTable<'a> {
    pub book: BookName,
    pub records: &'a [Record],
}

impl<'a> fmt::Display for AuditTable<'a> {
    ghost use Rattle.std.specs.Prelude.{Some};
    ghost use Rattle.reports.specs.Table.{table_text};

    ghost output = { λ x. Some (table_text x.book x.records.now) };

    fn fmt<W: fmt::Write>(&self, f: &mut fmt::Formatter<W>) -> fmt::Result {
        f.write_str("audit\n")?;
        f.write_str(COLUMN_NAMES)?;
        for (index, entry) in self.records.iter().enumerate() {
            let row = Row {
                book: self.book,
                number: index as u64 + 1,
                entry: *entry,
            };
            write!(f, "\n{row}")?;
        }
        Ok(())
    }
}
