// The calls that need no slip, as a person makes them. Scripts, the monitor's one call and the desk
// all hold this one list.
#![tactic(auto)]

mod plain;

pub use plain::Plain;
