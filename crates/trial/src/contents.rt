ghost use Rattle.std.specs.Prelude.{◌≡◌, ◌/◌, ◌<◌, length, slice_index_or};
ghost use Rattle.trial.specs.Bytes.{blocks_of, with_block};

/// Writes a block's content over its bytes.
pub(crate) fn store(bytes: &mut [u8], block: usize, content: &[u8])
    requires within { block < length bytes.old / 64 }
    requires full { length content.now ≡ 64 }
    ensures after { bytes.new ≡ with_block bytes.old block content.now }
{
    let at = 64 * block;
    bytes[at..at + 64].copy_from_slice(content);
}

/// Copies a block's content out of its bytes.
pub(crate) fn fetch(bytes: &[u8], block: usize, buffer: &mut [u8])
    requires within { block < length bytes.now / 64 }
    requires full { length buffer.old ≡ 64 }
    ensures after { buffer.new ≡ slice_index_or (blocks_of bytes.now) block buffer.old }
{
    let at = 64 * block;
    buffer.copy_from_slice(&bytes[at..at + 64]);
}
