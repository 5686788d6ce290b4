//! The tests of the running service and of its connections, in a crate of their own, so that what they call is proved once.
#![tactic(auto)]

#[cfg(test)]
mod gates;
#[cfg(test)]
mod of_connections;
#[cfg(test)]
mod of_services;
#[cfg(test)]
mod peers;
#[cfg(test)]
mod services;
