#![tactic(auto)]

//! What is done at each event, as a function of the event and of what is seen of the office table, the rows and the floor.
mod ask_steps;
mod call_steps;
mod collect_steps;
mod commits;
mod deploy_steps;
mod done;
mod events;
mod fire_steps;
mod floor_steps;
mod laws;
mod office_steps;
mod read_steps;
mod reasons;
mod replies;
mod room;
mod rule_steps;
mod step;
mod waits;
mod web_steps;

pub use events::{Event, Told};
pub use floor_steps::{take, taken_told};
pub use laws::{
    decisions_are_chains, decisions_are_right_items, decisions_commit_what_is_kept,
    decisions_keep_limits, decisions_keep_traces_sound, decisions_take_owed_steps,
    reads_are_answered_of_the_view, reads_change_nothing,
};
pub use reasons::tells_full;
pub use replies::{Called, Deployed, Fired, HallCollected, Reply};
pub use room::is_full;
pub use step::{Now, OthersStep, RowChange, Step, step_for};
pub use waits::{Shows, Wait, Waits};
