#![tactic(auto)]

//! What a service keeps is allowed at its next opening, and what a deployment leaves as it was.
pub mod deployments;
pub mod laws;
