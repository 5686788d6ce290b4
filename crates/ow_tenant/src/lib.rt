#![tactic(auto)]

//! The office table: the namespaces with their limits, the keys and their rights, and the counts that the limits are of.
mod days;
mod entries;
mod known;
mod limits;
mod line;
mod queue;
mod read;
mod refusal;
mod rights;
mod row;
mod table;
mod tenants;
mod window;
mod windows;
mod words;

pub use entries::Holder;
pub use limits::NamespaceLimits;
pub use refusal::{TenantRefusal, WindowRefusal};
pub use rights::Right;
pub use tenants::{KeyNumber, MOST_BYTES, Tenants};
pub use windows::Windows;
