ghost use Rattle.std.specs.Prelude.{◌≡◌, MatchOption};
ghost use Rattle.records.specs.Form.{form, encoded, parsed, decoded, IsNoForm, RecordsReadBack, OneForm};

use crate::fields::Fields;
use crate::kind::Kind;
use crate::record::{Certification, Posting, Record};
use encoding::eight_at;

/// A record's block, from its fields.
fn lay_out(fields: Fields, number: u32) -> [u8; 64]
    ensures value { result ≡ form fields number }
{
    // Each byte at its place: this list is the format.
    let mut block = [0; 64];
    block[0] = fields.kind;
    block[1] = fields.first;
    block[2] = fields.second;
    block[3] = fields.procedure;
    block[4] = fields.role;
    block[5] = fields.row;
    block[6] = fields.a;
    block[7] = fields.b;
    block[8..16].copy_from_slice(&fields.amount.to_le_bytes());
    block[16..24].copy_from_slice(&fields.mask.to_le_bytes());
    block[24..28].copy_from_slice(&number.to_le_bytes());
    block
}

/// The block of a record with its number.
pub fn encode(entry: Record, number: u32) -> [u8; 64]
    ensures value { result ≡ encoded number entry }
{
    lay_out(Fields::from(entry), number)
}

/// The record that a block's fields give, whatever its other bytes hold.
fn parse(block: &[u8; 64]) -> Option<Record>
    ensures value { result ≡ parsed block.now }
{
    match Kind::try_from(block[0]).ok()? {
        Kind::Posting => Some(Record::Posting(Posting {
            enterer: block[1],
            countersigner: block[2],
            procedure: block[3],
            a: block[6],
            b: block[7],
            amount: eight_at(block, 8),
        })),
        Kind::Certification => Some(Record::Certification(Certification {
            user: block[1],
            procedure: block[3],
            role: block[4],
            row: block[5],
            mask: eight_at(block, 16),
        })),
        Kind::Strike => Some(Record::Strike { row: block[5] }),
    }
}

/// The record whose exact form the block is, with this number; none where it is no record's.
pub fn decode(block: &[u8; 64], number: u32) -> Option<Record>
    ensures decodes { MatchOption result (IsNoForm number block.now)
        (λ x. encoded number x ≡ block.now) }
    ensures value { result ≡ decoded number block.now }
{
    parse(block).filter(|entry| encode(*entry, number) == *block)
}

/// A theorem: an encoded record is read back from its block.
pub fn records_are_read_back() -> bool
    ensures holds { RecordsReadBack }
{
    true
}

/// A theorem: a record has one form, and is read back from it.
pub fn records_have_one_form() -> bool
    ensures holds { OneForm }
{
    true
}
