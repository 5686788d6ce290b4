#![tactic(auto)]

//! Where the next run goes: to a warm, a prewarmed or a new container, or which containers are removed to make room.
mod answers;
mod candidates;
mod four;
mod laws;
mod removal;
mod rules;
mod within;

pub use answers::{Head, Place, Unplaced};
pub use laws::{candidates_are_in_order, events_keep_the_pool};
pub use removal::Removal;
pub use rules::place;
pub use within::can_place;
