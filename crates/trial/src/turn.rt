// No `Result`: the write that loses power may land all the same.
/// How a write or a flush goes.
#[derive(Clone, Copy, PartialEq, Eq, Debug)]
pub enum Turn {
    /// It is done.
    Done,
    /// It loses power. A write lands or not: its content stands in the block, or what the block
    /// held before.
    Lost { lands: bool },
}
