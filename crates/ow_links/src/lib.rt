#![tactic(auto)]

//! Connections of peers, and listeners that accept them.
mod links;
mod listeners;
mod memory_link;
mod memory_listener;

pub use links::Link;
pub use listeners::{Accepted, Listener};
pub use memory_link::MemoryLink;
pub use memory_listener::MemoryListener;
