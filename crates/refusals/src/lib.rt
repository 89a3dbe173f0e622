// What people hear when a call says no: a number, the layer that said it, the rule that it guards,
// and a place. Every crate above answers with these; no other number is ever printed. What is known
// of a reason is its row of one table (`entry.rt`). A place that comes from a closed list is an
// enum whose discriminants are the places that people see.
#![tactic(auto)]

mod entry;
mod layer;
mod places;
mod reason;
mod refusal;
mod rule;

pub use layer::Layer;
pub use places::{FormatPlace, PowerPlace, RowPlace, StepPlace};
pub use reason::Reason;
pub use refusal::{Heading, Refusal};
pub use rule::Rule;
