#![tactic(auto)]

//! What runs actions: plain code, and programs that the office table names.
mod fill;
mod plain_cases;
mod plain_runner;
mod program;
mod program_output;
mod program_runner;

pub use plain_runner::{PlainContainer, PlainRunner};
pub use program_runner::ProgramRunner;
