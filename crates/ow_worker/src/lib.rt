#![tactic(auto)]

//! Workers over a hall that is shared and a board: turns, the sweeper and the reaper.
mod booking;
mod fetching;
mod laying;
mod outcome;
mod readying;
mod reaping;
mod runs;
mod telling;
mod turns;
mod warming;
mod watching;

pub use outcome::{Job, Laid, Turn, Watch};
pub use reaping::reap;
pub use turns::{again, turn};
pub use watching::watch;
