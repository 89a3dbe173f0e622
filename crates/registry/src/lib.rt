// The books that there are, by name. A book that people can choose is a crate of its own, as
// `ledger`, and a case of the enum here.
#![tactic(auto)]

mod book_name;
mod book_visitor;
mod code_text;
mod typed_note;

pub use book_name::BookName;
pub use book_visitor::BookVisitor;
pub use code_text::CodeText;
pub use typed_note::TypedNote;
