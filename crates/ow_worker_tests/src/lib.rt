//! The tests of workers over a desk and a board, in a crate of their own, so that what they call is proved once.
#![tactic(auto)]

#[cfg(test)]
mod cases;
#[cfg(test)]
mod gates;
#[cfg(test)]
mod of_faults;
#[cfg(test)]
mod of_reaping;
#[cfg(test)]
mod of_runs;
#[cfg(test)]
mod of_warming;
#[cfg(test)]
mod office;
#[cfg(test)]
mod steps;
#[cfg(test)]
mod texts;
#[cfg(test)]
mod worker;
