#![tactic(auto)]

//! What counts against the limits: how many invocations were accepted and how many triggers fired in the last minute, and how many
//! invocations have not ended.
mod counts;
mod laws;
mod moves;
mod refusal;

pub use counts::Counts;
pub use laws::{
    admitted_fires_had_room, moves_are_noted, notes_count_what_happened, what_is_admitted_had_room,
};
pub use refusal::LimitRefusal;
