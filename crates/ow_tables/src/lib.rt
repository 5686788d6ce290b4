#![tactic(auto)]

//! The stored entities, in the order of their kinds and names. A change is made ready first: that takes all the memory,
//! and may be refused. Then it is made, which takes no memory and is never refused.
mod builtin;
mod inside;
mod joined;
mod laws;
mod listing;
mod ready;
mod refusal;
mod row_order;
mod sequences;
mod tables;

pub use builtin::is_builtin;
pub use joined::rule_at;
pub use laws::loops_are_found;
pub use ready::Ready;
pub use refusal::TableRefusal;
pub use sequences::MOST_COMPONENTS;
pub use tables::Tables;
