#![tactic(auto)]

//! Which rows are those of a state, and the state that they are of. A text is read leniently, and the row is allowed
//! only where writing what was read gives the row again.
mod allowed;
mod entity_in;
mod item_in;
mod keeping;
mod kept;
mod known;
mod laws;
mod moments;
mod open_in;
mod refusal;

pub use allowed::{GREATEST_COUNT, GREATEST_MOMENT, LONGEST_NOTE_KEY};
pub use keeping::{kept_items, kept_rows};
pub use kept::Kept;
pub use known::{known_entities, known_entity, known_item};
pub use laws::{
    items_read_back, moment_of_split, moments_are_small, no_builtin_is_held, split_is_kept,
};
pub use refusal::KeepRefusal;
