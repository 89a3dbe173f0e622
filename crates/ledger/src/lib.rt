// The ledger, the book of money: signed balances in pence that sum to zero. `docs/BOOKS.md` has its
// rules.
#![tactic(auto)]

mod balance;
mod ledger;
mod procedure;

pub use balance::Balance;
pub use ledger::{Ledger, refuses_amounts_outside_ceiling};
