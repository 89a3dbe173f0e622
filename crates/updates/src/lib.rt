// The update of blocks that a record makes: the head with one record more, the blocks of its items
// or of its row, and the block of the record itself.
#![tactic(auto)]

mod update;

pub use update::update_for;
