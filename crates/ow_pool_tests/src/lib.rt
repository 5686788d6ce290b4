//! The tests of ow_slots and ow_pool, in a crate of their own, so that each of these is proved once.
#![tactic(auto)]

#[cfg(test)]
mod events;
#[cfg(test)]
mod of_pool;
#[cfg(test)]
mod of_slots;
