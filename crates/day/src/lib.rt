// A day: a script that was read is run on a monitor over trial drives, and what was answered is
// printed.
#![tactic(auto)]

mod audit;
mod day;
mod day_visitor;
mod days;
mod left;
mod outcome;
mod plan;
mod reply;
mod rig;
mod said;
mod source;
mod start;

pub use audit::Audit;
pub use day::{Day, run_day};
pub use days::days_are_lawful;
pub use left::Left;
pub use outcome::{DRIVE, Outcome, run_script, run_script_on};
pub use plan::{Expected, Plan, plan_command, plan_day};
pub use reply::Reply;
pub use said::Said;
pub use source::Source;
pub use start::Start;
