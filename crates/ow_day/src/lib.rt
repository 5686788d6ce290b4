#![tactic(auto)]

//! A day of the function service: the grammar of its statements, the session that carries them out, and `run_day`, which
//! reads a day from a source and writes its answers to a sink.
mod call_words;
mod first;
mod input;
mod laws;
mod line;
mod logs;
mod run;
mod search;
mod session;
mod statement_outcome;
mod texts;

pub use laws::{
    days_can_be_printed, printed_days_are_read_back, printed_statements_are_read_back,
    read_statements_are_printed,
};
pub use run::{not_opened, run_day};
pub use session::{Session, Unopened};
pub use statement_outcome::StatementOutcome;
