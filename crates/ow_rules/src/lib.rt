#![tactic(auto)]

//! Rules: how they are put, how their status is set, and which of them a fire of a trigger follows.
mod fires;
mod laws;
mod status;

pub use fires::{Rules, fired};
pub use laws::puts_join;
pub use status::{prepare_rule, set_status};
