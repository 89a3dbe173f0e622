// The image: which block of a drive is what, what stands on it as a whole, when it is lawful, and
// the verdict on any bytes. `Reader` reads its parts, each block once. `inspect` turns power on,
// finishes what was cut, and judges what stands then: over the journal, so over any drive, in fixed
// memory, reading each block at most once (finishing reads the slots too).
#![tactic(auto)]

ghost use Rattle.image.specs.Verdict.{AcceptsExactlyLawful};

mod block_numbers;
mod checks;
mod inspection;
mod part;
mod parts;
mod reader;
mod verdict;

pub use block_numbers::{
    HEAD, is_lawful_size, item_block, record_block, roll_block, room_on, row_block,
};
pub use inspection::inspect;
pub use part::Part;
pub use parts::{codes_blocks, codes_in, first_differing, rows_blocks, rows_in};
pub use reader::Reader;

/// A theorem: the verdict accepts exactly the lawful images.
pub fn verdict_accepts_exactly_lawful() -> bool
    ensures holds { AcceptsExactlyLawful }
{
    true
}
