//! The tests of links and of what the system gives, in a crate of their own, so that what they call is proved once.
#![tactic(auto)]

#[cfg(test)]
mod fakes;
#[cfg(test)]
mod of_clocks;
#[cfg(test)]
mod of_crews;
#[cfg(test)]
mod of_faults;
#[cfg(test)]
mod of_links;
#[cfg(test)]
mod of_sockets;
