use monitor::Slip;
use records::Record as AuditRecord;
use refusals::Refusal;

/// What is answered to a call.
pub enum Answer {
    /// To format, attach, countersign, certify and strike: the record count.
    Count(Result<u64, Refusal>),
    /// To enter: the slip, for another person to countersign.
    Slip(Result<Slip, Refusal>),
    /// To item: its code.
    Code(Result<u64, Refusal>),
    /// To record: its fields.
    Record(Result<AuditRecord, Refusal>),
}
