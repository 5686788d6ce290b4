#![tactic(auto)]

//! The words of the command line, the command that they ask for, and the statuses with which the program ends.
mod command;
mod days;
mod drill;
mod found;
mod laws;
mod option_word;
mod parse;
mod plain;
mod read;
mod status;
mod usage;

pub use command::{Command, ServeWords, WordsRefusal};
pub use laws::{
    days_are_taken, deployments_are_taken, drills_are_taken, numbers_stand_among_options,
    options_stand_in_any_order, options_stand_once, services_are_taken, services_have_bounds,
    words_are_commands,
};
pub use read::read_words;
pub use status::{Status, report};
