ghost use Rattle.std.specs.Prelude.{◌≡◌, ◌<◌, ◌≤◌, false};
ghost use Rattle.std.specs.Str.{bytes_eq};
ghost use Rattle.layout.specs.Roll.{word_in, first_words, last_words};

/// The two blocks of a roll of 128 bytes.
pub fn roll_blocks(roll: &[u8; 128]) -> ([u8; 64], [u8; 64])
    ensures first { result.0 ≡ first_words roll.now }
    ensures last { result.1 ≡ last_words roll.now }
{
    let mut first = [0; 64];
    let mut last = [0; 64];
    first.copy_from_slice(&roll[0..64]);
    last.copy_from_slice(&roll[64..128]);
    (first, last)
}

/// Whether the word at a place from 0 to 7 of a block is this one; false from there on.
pub fn is_word_at(block: &[u8; 64], place: usize, word: &[u8]) -> bool
    ensures value { place < 8 → result ≡ bytes_eq word.now (word_in block.now place) }
    ensures beyond { 8 ≤ place → result ≡ false }
{
    if place >= 8 {
        return false;
    }
    word == &block[8 * place..8 * place + 8]
}
