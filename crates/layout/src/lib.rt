// The blocks of the image, each to the byte: the head, item codes, rows and the roll.
#![tactic(auto)]

ghost use Rattle.layout.specs.ReadBack.{BlocksReadBack};

mod codes;
mod head;
mod roll;
mod rows;

pub use codes::{codes_block, read_code, read_codes};
pub use head::{Head, head_block, head_fields, read_head};
pub use roll::{is_word_at, roll_blocks};
pub use rows::{read_rows, rows_block};

/// A theorem: what is written in a block is read back, and a block is the form of what is read from
/// it.
pub fn blocks_are_read_back() -> bool
    ensures holds { BlocksReadBack }
{
    true
}
