#![tactic(auto)]

//! The final comparison of a service: what its receipts hold, and its book.
mod audit;
mod drains;
mod falls;
mod numbers;
mod sides;
mod times;
mod wrong;

pub use audit::first_difference;
pub use sides::{Difference, Side};
