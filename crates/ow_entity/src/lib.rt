#![tactic(auto)]

//! Actions, packages, triggers and rules: as they are stored, as bodies give them and as clients see them. No value of
//! these types lies outside the bounds that a body must keep.
mod actions;
mod annotations;
mod body;
mod bounds;
mod components;
mod exec;
mod field_name;
mod finishing;
mod kinds;
mod package_body;
mod package_finishing;
mod packages;
mod pairs;
mod params;
mod plain_code;
mod refusal;
mod rows;
mod rule_body;
mod rule_finishing;
mod rules;
mod trigger_body;
mod trigger_finishing;
mod triggers;
mod versions;
mod written;

pub use actions::{Action, ActionDraft};
pub use annotations::{is_conductor, is_set};
pub use body::read_entity;
pub use bounds::{
    Bounded, DEFAULT_LOGS, DEFAULT_MEMORY, DEFAULT_TIMEOUT, GivenLimits, LEAST_LOGS, LEAST_MEMORY,
    LEAST_TIMEOUT, Limits, Logs, MOST_LOGS, MOST_MEMORY, MOST_TIMEOUT, Memory, Timeout,
};
pub use components::Components;
pub use exec::{Exec, ProgramName};
pub use field_name::FieldName;
pub use finishing::{FIRST_VERSION, finish};
pub use kinds::EntityKind;
pub use packages::{Package, PackageDraft};
pub use pairs::listed;
pub use params::EntityParams;
pub use plain_code::PlainCode;
pub use refusal::EntityRefusal;
pub use rows::{Draft, Drafts, Lookup, Row};
pub use rule_body::{read_status, status_text};
pub use rules::{Rule, RuleDraft};
pub use triggers::{Trigger, TriggerDraft};
pub use versions::with_version;
pub use written::{package_entry, summary, write_entity};
