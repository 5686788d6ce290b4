// The floor: which activations wait, which runs are live, and how each activation ended.
#![tactic(auto)]

mod activations;
mod answers;
mod by_id;
mod ends;
mod floor;
mod kept_frames;
mod kept_slots;
mod known;
mod laws;
mod lists;
mod moves;
mod orders;
mod places;
mod resuming;
mod runs;
mod told;
mod undoable;

pub use activations::{Open, Plan, State};
pub use answers::{
    AnswerRefusal, Answered, Collected, Container, Drain, FloorRefusal, Happened, Happening, Idle,
    Order, PrewarmOrder, RunOrder, Swept,
};
pub use floor::Floor;
pub use laws::{
    activations_run_once, calls_keep_traces_sound, ended_were_accepted, entries_are_owed,
    live_runs_stand_in_slots, records_are_shown_or_archived, replies_after_a_sweep_are_late,
    right_items_keep_traces_sound, slots_are_within_the_pool, sound_traces_are_parted,
    when_drained_all_are_recorded,
};
pub use moves::{Moved, Moves};
pub use runs::Run;
