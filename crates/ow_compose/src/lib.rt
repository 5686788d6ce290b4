#![tactic(auto)]

//! Steps of sequences and conductors: what a composite does next, by what its children have answered.
mod bounds;
mod components;
mod conductors;
mod forms;
mod laws;
mod members;
mod refusals;
mod sequences;
mod steps;

pub use bounds::{MOST_COMPONENTS, MOST_DEPTH, MOST_RUNS};
pub use components::{check_component, find_component};
pub use conductors::conduct_next;
pub use forms::form_of;
pub use laws::{conductor_frames_agree, sequence_frames_agree};
pub use refusals::{Untold, refused};
pub use sequences::seq_next;
pub use steps::Step;
