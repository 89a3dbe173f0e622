use notes::NoteNumbers;

/// The numbers of a slip: those of its note, who entered it, and at which house.
#[derive(Clone, Copy, PartialEq, Eq, Debug)]
pub struct SlipNumbers {
    pub numbers: NoteNumbers,
    pub enterer: u8,
    pub house: u32,
}
