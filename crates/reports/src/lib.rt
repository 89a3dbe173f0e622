// How records are shown to people: in a line, and the audit as a table.
#![tactic(auto)]

mod audit_table;
mod cell;
mod cells;
mod record_text;
mod words;

pub use audit_table::AuditTable;
pub use record_text::RecordText;
