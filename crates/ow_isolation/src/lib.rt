#![tactic(auto)]

//! What reads are answered depends on what the key may see, and on nothing else.
pub mod laws;
