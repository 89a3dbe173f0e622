ghost use Rattle.std.specs.Prelude.{◌≡◌, Some, None};
ghost use Rattle.refusals.specs.Table.{reason_number, layer_of, rule_of, words_of};

use crate::layer::Layer::{self, *};
use crate::reason::Reason::{self, *};
use crate::rule::Rule::{self, *};

/// A row of the table of refusals: what is known of a reason.
#[derive(Clone, Copy)]
pub struct Entry {
    /// The number that people see: 1 to 24 and 26.
    pub number: u8,
    /// The layer that refuses.
    pub layer: Layer,
    /// The rule that the refusal guards, if it guards one.
    pub rule: Option<Rule>,
    /// What the refusal means, in a few words.
    pub words: &'static str,
}

impl Entry {
    /// The same row, of a refusal that guards a rule.
    fn rule(self, rule: Rule) -> Entry
        ensures value { result ≡ record self { rule = Some rule } }
    {
        Entry {
            rule: Some(rule),
            ..self
        }
    }
}

/// The row of a refusal that guards no rule.
fn row(number: u8, layer: Layer, words: &'static str) -> Entry
    ensures value { result ≡ record {
      number = number;
      layer = layer;
      rule = None;
      words = words.entry;
    } }
{
    Entry {
        number,
        layer,
        rule: None,
        words,
    }
}

/// The table of refusals, one row a reason.
pub fn entry_of(reason: Reason) -> Entry
    ensures number { result.number ≡ reason_number reason }
    ensures layer { result.layer ≡ layer_of reason }
    ensures rule { result.rule ≡ rule_of reason }
    ensures words { result.words.now ≡ words_of reason }
{
    match reason {
        NoSuchProcedure => row(1, Note, "the book has no such procedure").rule(C5),
        NoSuchNoteItem => row(2, Note, "there is no such item").rule(C5),
        SameItem => row(3, Note, "the two items are the same").rule(C5),
        BadAmount => row(4, Note, "the amount is not from 1 to the ceiling").rule(C5),
        BadScript => row(5, House, "this line of the script is not understood"),
        Shut => row(6, Monitor, "the monitor is shut"),
        PowerLost => row(7, Drive, "power was lost"),
        BadWord => row(8, Monitor, "no such user, or not that user's word").rule(E3),
        EntererNotEntitled => row(9, Monitor, "the enterer is not entitled").rule(E2),
        Foreign => row(10, Monitor, "it belongs to another book or house").rule(E1),
        SamePerson => row(11, Monitor, "enterer and countersigner are the same person").rule(C3),
        CountersignerNotEntitled => row(12, Monitor, "the countersigner is not entitled").rule(E2),
        AuditFull => row(13, Monitor, "the audit is full").rule(C4),
        StepRefused => row(14, Book, "the book refuses the step").rule(C2),
        InvalidAfter => row(15, Book, "the list would not be valid").rule(C2),
        BadFormat => row(16, Monitor, "bad house number, roll or opening"),
        BadSize => row(17, Drive, "the drive has no lawful size"),
        InvalidOpening => row(18, Book, "the opening is not valid").rule(C1),
        BadCommitBlock => row(19, Journal, "the commit block is not lawful"),
        BadHead => row(20, Image, "the head block is not lawful"),
        BadRecord => row(21, Image, "a record is not lawful").rule(C4),
        BlockDiffers => row(22, Image, "a block differs from what the records give").rule(E1),
        BadRow => row(23, Monitor, "the row cannot be certified or struck").rule(E2),
        RowTaken => row(24, Monitor, "the row is taken, or free already").rule(E2),
        NoSuchEntry => row(26, Monitor, "there is no such item or record"),
    }
}
