ghost use Rattle.std.specs.Prelude.{◌≡◌, Some};
ghost use Rattle.refusals.specs.Table.{reason_number, layer_of, rule_of, words_of};

use crate::entry::entry_of;
use crate::layer::Layer;
use crate::rule::Rule;
use std::fmt;

/// Why a call refuses. Each case's discriminant is the number that people see; 25 is no refusal.
#[derive(Clone, Copy, PartialEq, Eq, Debug)]
pub enum Reason {
    /// The book has no such procedure. Place: the procedure.
    NoSuchProcedure = 1,
    /// An item is above 63. Place: that item, a before b.
    NoSuchNoteItem = 2,
    /// Items a and b are the same. Place: b.
    SameItem = 3,
    /// The amount is not from 1 to the book's ceiling. Place: the amount.
    BadAmount = 4,
    /// A line of the script is not of any form, or names a slip that does not wait. Place: the
    /// line's number; 0 for a script that is too long.
    BadScript = 5,
    /// The monitor is shut. Place: 0.
    Shut = 6,
    /// Power was lost. Place: a `PowerPlace`, or the place where the journal's change was cut.
    PowerLost = 7,
    /// No such user, or not that user's word. Place: the user.
    BadWord = 8,
    /// The enterer is not entitled. Place: the first of a, b that no row covers.
    EntererNotEntitled = 9,
    /// A note of another book (place: its kind), or a slip of another book or house (place: its
    /// house).
    Foreign = 10,
    /// The countersigner is the enterer. Place: the user.
    SamePerson = 11,
    /// The countersigner is not entitled. Place: the first of a, b that no row covers.
    CountersignerNotEntitled = 12,
    /// The audit is full. Place: the record count.
    AuditFull = 13,
    /// The book's step refuses. Place: a `StepPlace`.
    StepRefused = 14,
    /// The list after the step is not valid. Place: 0.
    InvalidAfter = 15,
    /// Format was given a bad house number, roll or opening. Place: a `FormatPlace`.
    BadFormat = 16,
    /// The drive's size is not lawful. Place: the size.
    BadSize = 17,
    /// The opening is not a valid list. Place: 0.
    InvalidOpening = 18,
    /// The commit block is not lawful. Place: 0.
    BadCommitBlock = 19,
    /// The head block is not lawful. Place: 7, its block number.
    BadHead = 20,
    /// A record is not in its exact form, or is refused when applied. Place: its number.
    BadRecord = 21,
    /// An item or row block is not what the records give. Place: the first such block.
    BlockDiffers = 22,
    /// A row that cannot be certified or struck. Place: a `RowPlace`.
    BadRow = 23,
    /// The row is taken (certify) or free (strike). Place: the row.
    RowTaken = 24,
    /// No such item or record. Place: its number.
    NoSuchEntry = 26,
}

impl Reason {
    /// The layer that refuses.
    pub fn layer(self) -> Layer
        ensures value { result ≡ layer_of self }
    {
        entry_of(self).layer
    }

    /// The rule that the refusal guards, if it guards one.
    pub fn rule(self) -> Option<Rule>
        ensures value { result ≡ rule_of self }
    {
        entry_of(self).rule
    }

    /// What the refusal means, in a few words.
    pub fn words(self) -> &'static str
        ensures value { result.now ≡ words_of self }
    {
        entry_of(self).words
    }
}

/// The number that people see: the discriminant, which is the number of the reason's row.
impl From<Reason> for u8 {
    ghost from_gives = { λ r n. n ≡ reason_number r };

    fn from(reason: Reason) -> u8 {
        reason as u8
    }
}

/// What the refusal means, in a few words.
impl fmt::Display for Reason {
    ghost output = { λ x. Some (words_of x) };

    fn fmt<W: fmt::Write>(&self, f: &mut fmt::Formatter<W>) -> fmt::Result {
        f.write_str(self.words())
    }
}
