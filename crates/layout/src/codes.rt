ghost use Rattle.std.specs.Prelude.{◌≡◌, ◌*◌, ◌<◌, ◌≤◌};
ghost use Rattle.std.specs.Int.{w64};
ghost use Rattle.encoding.specs.Numbers.{number_at};
ghost use Rattle.layout.specs.Codes.{codes_form, codes_of};

use encoding::eight_at;
use std::array;

/// The block of eight codes.
pub fn codes_block(codes: &[u64; 8]) -> [u8; 64]
    ensures value { result ≡ codes_form codes.now }
{
    let mut block = [0; 64];
    block.copy_from_slice(codes.map(u64::to_le_bytes).as_flattened());
    block
}

/// The code at a place from 0 to 7 of a block; 0 from there on.
pub fn read_code(block: &[u8; 64], place: usize) -> u64
    ensures value { place < 8 → result ≡ number_at w64 block.now (8 * place) }
    ensures beyond { 8 ≤ place → result ≡ 0 }
{
    if place >= 8 {
        return 0;
    }
    eight_at(block, 8 * place)
}

/// The eight codes that a block holds.
pub fn read_codes(block: &[u8; 64]) -> [u64; 8]
    ensures value { result ≡ codes_of block.now }
{
    array::from_fn(|place| read_code(block, place))
}
