//! The tests of the clock, of gates and of spawners, in a crate of their own, so that what they call is proved once.
#![tactic(auto)]

#[cfg(test)]
mod of_tasks;
#[cfg(test)]
mod of_waiting;
