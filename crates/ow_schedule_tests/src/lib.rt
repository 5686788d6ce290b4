//! The tests of ow_schedule, in a crate of their own, so that it is proved once.
#![tactic(auto)]

#[cfg(test)]
mod of_moments;
#[cfg(test)]
mod of_pending;
#[cfg(test)]
mod of_reading;
#[cfg(test)]
mod reading;
