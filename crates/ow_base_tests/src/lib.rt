//! The tests of ow_value, ow_names, ow_traits, ow_records and ow_keep, in a crate of their own, so that each of these is proved once.
#![tactic(auto)]

#[cfg(test)]
mod held;
#[cfg(test)]
mod of_composites;
#[cfg(test)]
mod of_kept_rows;
#[cfg(test)]
mod of_names;
#[cfg(test)]
mod of_read_records;
#[cfg(test)]
mod of_records;
#[cfg(test)]
mod of_traits;
#[cfg(test)]
mod of_value;
