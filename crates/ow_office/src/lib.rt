#![tactic(auto)]

//! The top call: what the words of the command line ask for, over all that a command may touch.
mod commands;
mod day;
mod deploy;
mod drill;
mod input;
mod serve;
mod table;
mod text;
mod usage;
mod words;

pub use commands::office;
pub use words::{HELP, VERSION};
