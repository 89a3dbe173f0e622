ghost use Rattle.std.specs.Prelude.{◌≡◌, length};
ghost use Rattle.monitor.specs.Starting.{first_home};

use books::Book;
use image::{codes_blocks, rows_blocks};
use layout::{Head, head_block, roll_blocks};
use rights::Row;

/// Blocks 7 to 33 of a drive that is to be formatted: the head, the opening as items and as opening
/// items, free rows, and the roll.
pub(crate) fn first_blocks<B: Book>(house: u32, roll: &[u8], opening: &[u64]) -> [[u8; 64]; 27]
    requires roll { length roll.now ≡ 128 }
    requires opening { length opening.now ≡ 64 }
    ensures value { result ≡ first_home B.meaning house roll.now opening.now }
{
    let head = Head {
        house,
        kind: B::KIND,
        count: 0,
    };
    let mut codes = [0; 64];
    codes.copy_from_slice(opening);
    let items = codes_blocks(&codes);
    let mut words = [0; 128];
    words.copy_from_slice(roll);
    let (first_words, last_words) = roll_blocks(&words);
    let mut blocks = [[0; 64]; 27];
    blocks[0] = head_block(head);
    blocks[1..9].copy_from_slice(&items);
    blocks[9..17].copy_from_slice(&items);
    blocks[17..25].copy_from_slice(&rows_blocks(&[Row::FREE; 32]));
    blocks[25] = first_words;
    blocks[26] = last_words;
    blocks
}
