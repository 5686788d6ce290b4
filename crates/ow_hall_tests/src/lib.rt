//! The tests of ow_floor and ow_hall, in a crate of their own, so that each of these is proved once.
#![tactic(auto)]

#[cfg(test)]
mod of_compositions;
#[cfg(test)]
mod of_fires;
#[cfg(test)]
mod of_floor;
#[cfg(test)]
mod of_hall;
#[cfg(test)]
mod of_keys;
#[cfg(test)]
mod of_limits;
#[cfg(test)]
mod of_notes;
#[cfg(test)]
mod of_packages;
#[cfg(test)]
mod of_retention;
#[cfg(test)]
mod of_runners;
#[cfg(test)]
mod of_waits;
