//! The tests of ow_audit, in a crate of their own, so that it is proved once.
#![tactic(auto)]

#[cfg(test)]
mod of_days;
