//! The tests of ow_sqlite, in a crate of their own, so that it is proved once.
#![tactic(auto)]

#[cfg(test)]
mod of_keepers;
