/// A home block, by its number, and the 64 bytes that it is to hold.
#[derive(Clone, Copy, PartialEq, Eq, Debug, Default)]
pub struct Home {
    pub number: u16,
    pub content: [u8; 64],
}
