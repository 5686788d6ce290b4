#![tactic(auto)]

//! The outside of the service: byte sources and sinks, key-value stores, and runners with what they reply.
mod adapters;
mod calls;
mod change_list;
mod keepers;
mod memory;
mod memory_keeper;
mod prewarms;
mod replies;
mod row_edits;
mod row_list;
mod runners;
mod script_runner;
mod streams;

pub use adapters::{ReaderSource, WriterSink};
pub use calls::Calls;
pub use change_list::{Change, Changes};
pub use keepers::{Keeper, KeeperError};
pub use memory::{MemorySink, MemorySource};
pub use memory_keeper::MemoryKeeper;
pub use prewarms::{Prewarm, Prewarms};
pub use replies::{Kind, RunReply};
pub use row_list::Rows;
pub use runners::{Runner, Started};
pub use script_runner::ScriptRunner;
pub use streams::{Failed, Sink, Source, read_some, write_all};
