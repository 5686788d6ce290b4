#![tactic(auto)]

//! A hall that threads share: only receipts of what was done there change it.
mod calls;
mod desk;
mod marks;
mod noting;
mod placed;
mod receipts;
mod standing;

pub use desk::{Desk, Issuer};
pub use marks::{Denial, Mark, Marks};
pub use placed::{Placed, PlacedEntries};
pub use receipts::Receipts;
