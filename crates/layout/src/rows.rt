ghost use Rattle.std.specs.Prelude.{◌≡◌, ◌*◌, ◌<◌};
ghost use Rattle.layout.specs.Rows.{row_form, rows_form, row_from, rows_of};

use encoding::eight_at;
use rights::Row;
use std::array;

/// The 16 bytes of a row.
fn row_bytes(row: Row) -> [u8; 16]
    ensures value { result ≡ row_form row }
{
    // Each byte at its place: this list is the format.
    let mut bytes = [0; 16];
    bytes[0] = row.user;
    bytes[1] = row.procedure;
    bytes[2] = row.role;
    bytes[8..].copy_from_slice(&row.mask.to_le_bytes());
    bytes
}

/// The block of four rows.
pub fn rows_block(rows: &[Row; 4]) -> [u8; 64]
    ensures value { result ≡ rows_form rows.now }
{
    let mut block = [0; 64];
    block.copy_from_slice(rows.map(row_bytes).as_flattened());
    block
}

/// The row that a block's fields give at a place from 0 to 3.
fn row_at(block: &[u8; 64], place: usize) -> Row
    requires within { place < 4 }
    ensures value { result ≡ row_from block.now (16 * place) }
{
    let at = 16 * place;
    Row {
        user: block[at],
        procedure: block[at + 1],
        role: block[at + 2],
        mask: eight_at(block, at + 8),
    }
}

/// The four rows that a block's fields give, whatever its other bytes hold.
pub fn read_rows(block: &[u8; 64]) -> [Row; 4]
    ensures value { result ≡ rows_of block.now }
{
    array::from_fn(|place| row_at(block, place))
}
