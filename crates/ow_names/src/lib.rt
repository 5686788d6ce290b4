#![tactic(auto)]

//! The names of entities: entity names of one part, fully qualified names, and the paths that resolve to them.
mod full;
mod name;
mod names;
mod order;
mod paths;
mod refusal;

pub use full::{FullName, full_text};
pub use name::{EntityName, LONGEST_NAME, check_name, read_name};
pub use names::Names;
pub use paths::{named_in, read_full_text, resolve};
pub use refusal::NameRefusal;
