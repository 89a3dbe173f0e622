/// How many writes, flushes and power calls were made, those that were refused or lost power among
/// them. A count stays where it is once it is the largest that 64 bits hold.
#[derive(Clone, Copy, PartialEq, Eq, Debug)]
pub struct Counts {
    pub writes: u64,
    pub flushes: u64,
    pub powers: u64,
}
