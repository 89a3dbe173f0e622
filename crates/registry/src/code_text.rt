ghost use Rattle.std.specs.Prelude.{Some};

use crate::book_name::BookName;
use books::Book;
use ledger::Ledger;
use std::fmt;
use stock::Stock;

/// What the code of an item stands for in its book, for people: `45.00`, or `4 held of 10`.
#[derive(Clone, Copy, PartialEq, Eq, Debug)]
pub struct CodeText {
    pub book: BookName,
    pub code: u64,
}

impl fmt::Display for CodeText {
    ghost use Rattle.registry.specs.Texts.{code_text};

    ghost output = { λ x. Some (code_text x.book x.code) };

    fn fmt<W: fmt::Write>(&self, f: &mut fmt::Formatter<W>) -> fmt::Result {
        match self.book {
            BookName::Ledger => write!(f, "{}", Ledger.decode(self.code)),
            BookName::Stock => write!(f, "{}", Stock.decode(self.code)),
        }
    }
}
