// Rights: which user may do which procedure on which items, in which role. The rows are the whole
// of it.
#![tactic(auto)]

mod covering;
mod role;
mod row;
mod row_question;

pub use covering::{covering_row, first_uncovered};
pub use role::{NoSuchRole, Role};
pub use row::Row;
pub use row_question::RowQuestion;
