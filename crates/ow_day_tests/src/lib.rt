//! The tests of days and of what the office answers to words, in a crate of their own, so that what they call is proved once.
#![tactic(auto)]

#[cfg(test)]
mod containers;
#[cfg(test)]
mod days;
#[cfg(test)]
mod devices;
#[cfg(test)]
mod endings;
#[cfg(test)]
mod of_words;
#[cfg(test)]
mod stores;
#[cfg(test)]
mod tables;
#[cfg(test)]
mod waits;
