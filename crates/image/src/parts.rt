ghost use Rattle.std.specs.Prelude.{◌≡◌};
ghost use Rattle.std.specs.List.{flat_map};
ghost use Rattle.layout.specs.Codes.{codes_of};
ghost use Rattle.layout.specs.Rows.{rows_of};
ghost use Rattle.image.specs.Home.{blocks_of_codes, blocks_of_rows};
ghost use Rattle.image.specs.Layout.{first_block};
ghost use Rattle.image.specs.Verdict.{differing};

use crate::part::Part;
use layout::{codes_block, read_codes, read_rows, rows_block};
use rights::Row;

// Codes and rows have functions of their own: one for both would ask its callers that two lengths
// fit.
/// The 64 codes that eight blocks hold.
pub fn codes_in(blocks: &[[u8; 64]; 8]) -> [u64; 64]
    ensures value { result ≡ flat_map codes_of blocks.now }
{
    let mut codes = [0; 64];
    let read = |block: [u8; 64]| -> [u64; 8]
        ensures value { result ≡ codes_of block }
    { read_codes(&block) };
    codes.copy_from_slice(blocks.map(read).as_flattened());
    codes
}

/// The 32 rows that eight blocks hold.
pub fn rows_in(blocks: &[[u8; 64]; 8]) -> [Row; 32]
    ensures value { result ≡ flat_map rows_of blocks.now }
{
    let mut rows = [Row::FREE; 32];
    let read = |block: [u8; 64]| -> [Row; 4]
        ensures value { result ≡ rows_of block }
    { read_rows(&block) };
    rows.copy_from_slice(blocks.map(read).as_flattened());
    rows
}

/// The eight blocks of 64 codes.
// A loop over the index: of `array::from_fn` over `as_chunks`, what the closure knows of the codes
// that it captured does not reach the proof, and of a `for` over `iter_mut().zip(..)`, what the
// loop wrote does not.
pub fn codes_blocks(codes: &[u64; 64]) -> [[u8; 64]; 8]
    ensures value { result ≡ blocks_of_codes codes.now }
{
    let mut made = [[0; 64]; 8];
    for i in 0..8 {
        let mut eight = [0; 8];
        eight.copy_from_slice(&codes[8 * i..8 * i + 8]);
        made[i] = codes_block(&eight);
    }
    made
}

/// The eight blocks of 32 rows.
// A loop for the same reason as that of the codes.
pub fn rows_blocks(rows: &[Row; 32]) -> [[u8; 64]; 8]
    ensures value { result ≡ blocks_of_rows rows.now }
{
    let mut made = [[0; 64]; 8];
    for i in 0..8 {
        let mut four = [Row::FREE; 4];
        four.copy_from_slice(&rows[4 * i..4 * i + 4]);
        made[i] = rows_block(&four);
    }
    made
}

/// The number of the first block of a part that is not the one expected, if there is one.
pub fn first_differing(part: Part, found: &[[u8; 64]; 8], expected: &[[u8; 64]; 8]) -> Option<u64>
    ensures value { result ≡ differing (first_block part) found.now expected.now }
{
    let place = found
        .iter()
        .zip(expected)
        .position(|(one, other)| one != other)?;
    Some(part.first() + place as u64)
}
