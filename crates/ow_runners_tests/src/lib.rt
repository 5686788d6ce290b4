//! The tests of the runner of programs, over programs of the system.
#![tactic(auto)]

#[cfg(test)]
mod of_faults;
#[cfg(test)]
mod of_programs;
#[cfg(test)]
mod runs;
