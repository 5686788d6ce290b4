#![tactic(auto)]

//! The slots of containers: what each holds, and what each event makes of it.
mod keys;
mod laws;
mod places;
mod refusal;
mod slots;
mod states;

pub use keys::{Key, Start, kind_of, same_kinds};
pub use laws::same_keys_are_equal;
pub use refusal::SlotRefusal;
pub use slots::Slots;
pub use states::{GREATEST_GENERATION, Slot, State, Work};
