#![tactic(auto)]

//! The steps that sequences and conductors owe, made over a floor: after an acceptance, a reply and a sweep.
mod advances;
mod bounds;
mod driver;
mod laws;

pub use advances::Advance;
pub use bounds::MOST_STEPS;
pub use driver::{accept, answered, sweep};
pub use laws::{steps_are_driven, steps_are_owed, steps_are_plain, steps_are_right};
