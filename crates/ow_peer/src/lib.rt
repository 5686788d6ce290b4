#![tactic(auto)]

//! A connection of a peer: its requests are asked of a shared hall, and the replies go back in their order.
mod asking;
mod ending;
mod talking;

pub use ending::Ending;
pub use talking::{connection, connection_over};
