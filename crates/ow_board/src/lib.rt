//! A board on which containers lie between runs. Threads share it with no lock.
#![tactic(auto)]

mod calls;
mod close;
mod open;
mod rule;
mod shared;
#[cfg(test)]
mod tests;
mod view;
mod word;

pub use close::{Left, Unclosed};
pub use open::{NoMemory, board};
pub use shared::{Board, Gone, Pass, Taken};
pub use view::{Hold, LastStep, StepKind, View};
pub use word::{generation_of, is_full, second_of};
