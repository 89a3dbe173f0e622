/// Why a drive did not do what it was asked. The first three are refusals, in the order of their
/// tests: they change nothing, and people never see them. The last is no refusal: power was lost in
/// the call. Its discriminant is the number that people see.
#[derive(Clone, Copy, PartialEq, Eq, Debug)]
pub enum DriveFault {
    /// There is no power.
    Off,
    /// The block number is not below the drive's size.
    NoSuchBlock,
    /// The buffer is not 64 bytes.
    BadBuffer,
    /// Power was lost.
    PowerLost = 7,
}
