#![tactic(auto)]

//! Requests off a link, and replies onto it.
mod inbox;
mod needing;
mod replying;

pub use inbox::{Arrival, Inbox};
pub use replying::{Sent, send_reply};
