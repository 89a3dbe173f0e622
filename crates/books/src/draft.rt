/// What a note is typed as: a procedure, items a and b, and an amount, each any number of 64 bits.
#[derive(Clone, Copy, PartialEq, Eq, Debug)]
pub struct Draft {
    pub procedure: u64,
    pub a: u64,
    pub b: u64,
    pub amount: u64,
}
