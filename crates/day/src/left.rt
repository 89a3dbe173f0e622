/// What a day leaves of the bytes that it was run on. They are handed back, since no caller sees
/// through the drive that held them.
#[derive(Clone, Copy)]
pub struct Left<'a> {
    /// The blocks of the last drive, of 64 bytes each, one after another.
    pub blocks: &'a [u8],
    /// The bytes behind the last whole block, untouched: at most 63.
    pub behind: &'a [u8],
}
