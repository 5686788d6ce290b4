//! The tests of ow_tenant, in a crate of their own, so that it is proved once.
#![tactic(auto)]

#[cfg(test)]
mod of_tenants;
#[cfg(test)]
mod of_windows;
