//! The tests of runners and of turns, in a crate of their own, so that what they call is proved once.
#![tactic(auto)]

#[cfg(test)]
mod of_runners;
#[cfg(test)]
mod of_turns;
