ghost use Rattle.std.specs.Prelude.{◌≡◌, ℕ, ◌<◌, ◌≤◌, Decides, slice_index};
ghost use Rattle.changes.specs.CommitBlock.{count_of, number_of, named_in, Rises, LawfulCommit};
ghost use Rattle.changes.specs.RoundTrip.{RoundTrip};

/// The number of the block that a commit block names at a place from 0 to 5, whatever its count
/// says; 0 for a place from 6 on.
pub fn named_block(commit: &[u8; 64], place: usize) -> u16
    ensures value { place < 6 → result ≡ number_of commit.now place }
    ensures beyond { 6 ≤ place → result ≡ 0 }
{
    if place >= 6 {
        return 0;
    }
    u16::from_le_bytes([commit[2 + 2 * place], commit[3 + 2 * place]])
}

/// Whether the numbers of the blocks that a commit block names rise strictly, from 7 on and below
/// the size, which is in blocks.
fn is_rising(commit: &[u8; 64], size: u64) -> bool
    requires few { count_of commit.now ≤ 6 }
    ensures decides { Decides result (Rises size (named_in commit.now)) }
{
    // A loop, since each number is held against the one before it, and the first against 6.
    let mut last = 6;
    for place in 0..usize::from(commit[0]) {
        let number = u64::from(named_block(commit, place));
        if number <= last || number >= size {
            return false;
        }
        last = number;
    }
    true
}

/// Whether every byte from this place on is zero.
fn is_zero_from(commit: &[u8; 64], first: usize) -> bool
    ensures decides { Decides result ((j : ℕ) → first ≤ j → slice_index commit.now j ≡ 0) }
{
    commit.iter().skip(first).all(|byte| *byte == 0)
}

/// Whether a commit block is lawful on a drive of so many blocks: it names at most six, their
/// numbers rise strictly, from 7 on and below the size, and every other byte is zero. All zero is
/// lawful, and names none.
pub fn is_lawful(commit: &[u8; 64], size: u64) -> bool
    ensures decides { Decides result (LawfulCommit size commit.now) }
{
    let count = usize::from(commit[0]);
    count <= 6 && commit[1] == 0 && is_rising(commit, size) && is_zero_from(commit, 2 + 2 * count)
}

/// A theorem: the commit block of at most six numbers, of two bytes each, that rise strictly, from
/// 7 on and below a size, is lawful there and read back as it was written; and every lawful commit
/// block is what its own reading writes.
pub fn commit_blocks_round_trip() -> bool
    ensures holds { RoundTrip }
{
    true
}
