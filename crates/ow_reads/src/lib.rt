#![tactic(auto)]

//! What requests are to do, whether that is granted, and what reads show.
mod acts;
mod askers;
mod grants;
mod reads;
mod shown;

pub use acts::{Act, Reading, act_of};
pub use askers::{asker, office};
pub use grants::granted_call;
pub use reads::read;
pub use shown::{shown_once_put, shown_row};
