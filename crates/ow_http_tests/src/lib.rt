//! The tests of ow_http, in a crate of their own, so that it is proved once.
#![tactic(auto)]

#[cfg(test)]
mod judging;
#[cfg(test)]
mod of_calls;
#[cfg(test)]
mod of_heads;
#[cfg(test)]
mod of_replies;
#[cfg(test)]
mod of_requests;
#[cfg(test)]
mod of_routes;
