//! The tests of ow_entity, ow_tables and ow_rules, in a crate of their own, so that each of these is proved once.
#![tactic(auto)]

#[cfg(test)]
mod held;
#[cfg(test)]
mod of_entity;
#[cfg(test)]
mod of_packages;
#[cfg(test)]
mod of_rules;
#[cfg(test)]
mod of_tables;
