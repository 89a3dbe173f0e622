ghost use Rattle.std.specs.Prelude.{◌≡◌, OnOk};
ghost use Rattle.script.specs.LineValue.{line_value};
ghost use Rattle.script.specs.Reading.{script_value, nothing_read, with_line};

use crate::fault::Fault;
use crate::line::Line;
use crate::numbered::Numbered;
use crate::setup::Setup;
use std::alloc::{AllocError, Global};

/// A script that was read: what it sets up, its commands in order, and why the reading ended before
/// the end, if it did.
#[derive(PartialEq, Eq, Debug, Drop)]
pub struct Script<'a> {
    pub setup: Setup,
    pub commands: Vec<Numbered<'a>>,
    pub fault: Option<Fault<'a>>,
}

impl<'a> Script<'a> {
    /// A script of no lines.
    pub(crate) fn new(heap: Global) -> Script<'a>
        ensures value { script_value result ≡ nothing_read }
    {
        let setup = Setup {
            book: None,
            house: 0,
            roll: Vec::new(heap),
            opening: Vec::new(heap),
            cuts: Vec::new(heap),
        };
        Script {
            setup,
            commands: Vec::new(heap),
            fault: None,
        }
    }

    /// Adds what the line of this number says. It fails only for want of memory.
    pub(crate) fn add(&mut self, number: u64, line: Line<'a>) -> Result<(), AllocError>
        ensures value { OnOk result
            (script_value self.new
            ≡ with_line number (line_value line.entry) (script_value self.old)) }
    {
        match line {
            Line::Nothing => {}
            Line::Book(name) => self.setup.book = self.setup.book.or(Some(name)),
            Line::House(house) => self.setup.house = house,
            Line::Roll(roll) => self.setup.roll.extend_from_slice(roll.as_slice())?,
            Line::Opening(codes) => self.setup.opening.extend_from_slice(codes.as_slice())?,
            Line::Cuts(cuts) => self.setup.cuts.extend_from_slice(cuts.as_slice())?,
            Line::Asks(command) => self.commands.push(Numbered {
                line: number,
                command,
            })?,
        }
        Ok(())
    }
}
