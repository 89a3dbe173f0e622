ghost use Rattle.std.specs.Prelude.{◌≡◌, ◌<◌, true};
ghost use Rattle.rights.specs.Covers.{has_item, covers, is_free};

use crate::row_question::RowQuestion;

/// Whether a mask has the bit of an item.
fn has_bit(mask: u64, item: u64) -> bool
    ensures value { result ≡ has_item mask item }
    ensures within { result ≡ true → item < 64 }
{
    item < 64 && (mask >> item) % 2 == 1
}

/// A row of the rights: a user may do a procedure in a role on the items of a mask. A free row is
/// all zero.
// The role is a number here, since a row that is read from a drive may hold any.
#[derive(Clone, Copy, PartialEq, Eq, Debug)]
pub struct Row {
    pub user: u8,
    pub procedure: u8,
    pub role: u8,
    pub mask: u64,
}

impl Row {
    /// The free row: all zero.
    pub const FREE: Row = Row {
        user: 0,
        procedure: 0,
        role: 0,
        mask: 0,
    };

    /// Whether the row covers an item for a user, procedure and role.
    pub fn covers(&self, asked: RowQuestion, item: u64) -> bool
        ensures value { result ≡ covers self.now asked item }
        ensures item_within { result ≡ true → item < 64 }
    {
        u64::from(self.user) == asked.user
            && u64::from(self.procedure) == asked.procedure
            && self.role == u8::from(asked.role)
            && has_bit(self.mask, item)
    }

    /// Whether the row is free.
    pub fn is_free(&self) -> bool
        ensures value { result ≡ is_free self.now }
    {
        *self == Row::FREE
    }
}
