// Which block of a drive is what, and how large a drive may be. Block 7 is the head, 8 to 15 are
// the items, 16 to 23 the opening items, 24 to 31 the rows, 32 and 33 the roll, and the records
// stand behind.
ghost use Rattle.std.specs.Prelude.{◌≡◌};
ghost use Rattle.image.specs.Layout as image-layout;

use crate::part::Part;

/// The block of the head.
pub const HEAD: u64 = 7;

/// The first of the two blocks of the roll.
const ROLL: u64 = 32;

/// How many blocks stand before the first record's.
const BEFORE_RECORDS: u64 = 34;

/// The block in which an item stands.
pub fn item_block(item: u64) -> u64
    ensures value { result ≡ image-layout.item_block item }
{
    Part::Items.first() + item / 8
}

/// The block in which a row stands.
pub fn row_block(row: u64) -> u64
    ensures value { result ≡ image-layout.row_block row }
{
    Part::Rows.first() + row / 4
}

/// The block in which a user's word stands.
pub fn roll_block(user: u64) -> u64
    ensures value { result ≡ image-layout.roll_block user }
{
    ROLL + user / 8
}

/// The block of a record, by the record's number, which is 1 or more.
pub fn record_block(number: u32) -> u64
    ensures value { result ≡ image-layout.record_block number }
{
    BEFORE_RECORDS - 1 + u64::from(number)
}

/// Whether a drive of so many blocks may hold an image.
pub fn is_lawful_size(size: u64) -> bool
    ensures value { result ≡ image-layout.lawful_size size }
{
    (35..=1024).contains(&size)
}

/// How many records find room on a drive of so many blocks.
pub fn room_on(size: u64) -> u64
    ensures value { result ≡ image-layout.room size }
{
    size.saturating_sub(BEFORE_RECORDS)
}
