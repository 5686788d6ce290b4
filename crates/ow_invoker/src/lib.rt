#![tactic(auto)]

//! The turns of a day: orders carried out over a runner. The runners themselves are re-exported. How a container in hand is readied, run
//! and stopped is the same wherever containers lie between runs.
pub mod living;
pub mod readying;
mod removal;
mod reports;
mod run;
mod shelf;
mod turn;
mod warming;

pub use ow_runners::{PlainContainer, PlainRunner, ProgramRunner};
pub use shelf::{Laid, Shelf};
pub use turn::{TurnStep, TurnSteps, Turned, day_turn};
