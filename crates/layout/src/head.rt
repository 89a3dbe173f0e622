ghost use Rattle.std.specs.Prelude.{◌≡◌, MatchOption};
ghost use Rattle.layout.specs.Head.{head_form, fields_of_head, head_of, HeadForm, IsNoHead};

use encoding::four_at;

/// What the head block says: the house number, the book's kind, and how many records stand.
#[derive(Clone, Copy, PartialEq, Eq, Debug)]
pub struct Head {
    pub house: u32,
    pub kind: u8,
    pub count: u32,
}

/// The head block.
pub fn head_block(head: Head) -> [u8; 64]
    ensures value { result ≡ head_form head }
{
    // Each byte at its place: this list is the format.
    let mut block = [0; 64];
    block[0..4].copy_from_slice(&head.house.to_le_bytes());
    block[4] = head.kind;
    block[8..12].copy_from_slice(&head.count.to_le_bytes());
    block
}

/// What a block's fields give, whatever its other bytes hold.
pub fn head_fields(block: &[u8; 64]) -> Head
    ensures value { result ≡ fields_of_head block.now }
{
    Head {
        house: four_at(block, 0),
        kind: block[4],
        count: four_at(block, 8),
    }
}

/// What a head block says; none where the block is no head's, or its house number is 0.
#[tactic(auto, using(crate::specs::Laws::head_reads))]
pub fn read_head(block: &[u8; 64]) -> Option<Head>
    ensures reads { MatchOption result (IsNoHead block.now) (λ h. HeadForm h block.now) }
    ensures value { result ≡ head_of block.now }
{
    let head = head_fields(block);
    if head.house == 0 {
        return None;
    }
    if head_block(head) != *block {
        return None;
    }
    Some(head)
}
