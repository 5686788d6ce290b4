#![tactic(auto)]

//! The outside as the system gives it: sockets, the system's clock, and threads. What is decided here is which errors end a listener.
mod bells;
mod blame;
mod clocks;
mod crew;
mod leaves;
mod links;
mod listeners;
mod slots;
mod unjoined;

pub use bells::Bells;
pub use clocks::SystemClock;
pub use crew::Crew;
pub use leaves::{Always, Leave, RefusingLeave};
pub use links::SocketLink;
pub use listeners::{PEER_LIMIT, SocketListener};
