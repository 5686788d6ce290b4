#![tactic(auto)]

//! The state of each slot by the last order that names it, and what each event makes of it.
mod laws;

pub use laws::{
    a_pool_is_kept, events_change_slots, events_were_owed, runs_stand_alone, slots_begin_vacant,
    slots_stand,
};
