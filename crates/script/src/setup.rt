use registry::BookName;

/// What a script sets up, gathered from all of its lines.
#[derive(PartialEq, Eq, Debug, Drop)]
pub struct Setup {
    /// The first book that the script chooses: the rig's.
    pub book: Option<BookName>,
    /// The house number; 0 if the script has none.
    pub house: u64,
    /// The bytes of the roll.
    pub roll: Vec<u8>,
    /// The codes of the opening, from item 0 on.
    pub opening: Vec<u64>,
    /// The cut numbers, in the order in which power calls take them.
    pub cuts: Vec<u16>,
}
