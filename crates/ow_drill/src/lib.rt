#![tactic(auto)]

//! A drill: calls whose moments are made from a number, each followed by a turn, and the line that counts their outcomes.
mod call;
mod drill;
mod laws;
mod tally;
mod text;

pub use drill::run_drill;
pub use laws::{a_drill_is_worked, each_call_is_counted};
pub use tally::Tally;
