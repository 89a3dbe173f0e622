// Applying: what a record does to what the books hold, and which refusal it earns where it may not.
// There is one definition of it, which the calls of the monitor, the judge of an image and the law
// over every run all cite.
#![tactic(auto)]

mod book_state;
mod posting;
mod row_draft;

pub use book_state::BookState;
pub use posting::posting_of;
pub use row_draft::{RowDraft, check_row};
