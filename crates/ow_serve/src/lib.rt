#![tactic(auto)]

//! The running service: workers, a sweeper and a reaper over one hall and one board, a connection for each peer, and the end of it all,
//! at which the receipts of every thread are compared with the book.
mod accepting;
mod beginning;
mod closing;
mod duty;
mod leaving;
mod served;
mod service;
mod service_context;
mod shared_state;
mod working;

pub use duty::{Done, Duty};
pub use served::{Served, ServedEnd};
pub use service::serve;
