/// The numbers of a note: the book's kind, a procedure, two items and an amount.
#[derive(Clone, Copy, PartialEq, Eq, Debug)]
pub struct NoteNumbers {
    pub kind: u8,
    pub procedure: u8,
    pub a: u8,
    pub b: u8,
    pub amount: u64,
}
