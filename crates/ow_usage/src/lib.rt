#![tactic(auto)]

//! Usage: what the records of activations count for, by day and namespace, and the text that shows it.
mod text;
mod totals;
mod usage;

pub use text::usage_text;
pub use totals::Totals;
pub use usage::{LAST_DAY, Usage, cells};
