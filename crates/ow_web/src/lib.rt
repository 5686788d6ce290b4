#![tactic(auto)]

//! Web actions: what a request gives one, and the answer that its result is.
mod fields;
mod laws;
mod media;
mod params;
mod reasons;
mod refusal;
mod shown;
mod target;
mod web_in;
mod web_out;

pub use laws::{answers_are_sendable, replies_are_sendable};
pub use media::Media;
pub use reasons::web_reason;
pub use refusal::WebRefusal;
pub use target::{Extension, Target, web_target};
pub use web_in::web_request;
pub use web_out::{web_answer, web_reply};
