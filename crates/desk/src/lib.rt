// The desk, where people ask. `make_call` makes any one call on a monitor. `serve` does what is
// asked, one request after another, with the slips that wait between enter and countersign or
// withdraw.
#![tactic(auto)]

mod making;
mod request;
mod serving;
mod told;
mod tray;

pub use making::make_call;
pub use request::Request;
pub use serving::serve;
pub use told::Told;
