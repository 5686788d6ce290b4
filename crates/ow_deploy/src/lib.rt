#![tactic(auto)]

//! Deployment manifests: TOML texts that list the entities that a namespace is to have.
mod data;
mod drafts;
mod entries;
mod manifest;
mod refusal;
mod top;

pub use manifest::{MOST_BYTES, read_manifest};
pub use refusal::{ManifestRefusal, refusal_text};
