use monitor::SlipNumbers;
use records::Record as AuditRecord;
use refusals::Refusal;

/// What is told at the desk.
#[derive(Clone, Copy, PartialEq, Eq, Debug)]
pub enum Told {
    /// To format, attach, countersign, certify and strike: the record count.
    Count(Result<u64, Refusal>),
    /// To enter: the numbers of the slip, which waits at the desk.
    Slip(Result<SlipNumbers, Refusal>),
    /// To item: its code.
    Code(Result<u64, Refusal>),
    /// To record: its fields.
    Record(Result<AuditRecord, Refusal>),
    /// To withdraw: the numbers of the slip, which no longer waits.
    Withdrawn(SlipNumbers),
    /// To countersign and withdraw: no slip waits under this name.
    NoSuchSlip,
}
