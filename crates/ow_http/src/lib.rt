//! Requests read from bytes, what they call for, and answers written as bytes.
#![tactic(auto)]

mod answer;
mod call;
mod call_kind;
mod call_of;
mod call_refusal;
mod head;
mod headers;
mod http_refusal;
mod notice;
mod place;
mod query;
mod read;
mod reason;
mod refused;
mod reply;
mod request;
mod route;
mod routes;
mod segments;
mod service_refusal;
mod values;
mod verb;

pub use answer::Answer;
pub use call::Call;
pub use call_kind::CallKind;
pub use call_of::read_call;
pub use call_refusal::CallRefusal;
pub use headers::{is_named, last_named};
pub use http_refusal::HttpRefusal;
pub use query::read_pairs;
pub use read::read_request;
pub use reason::Reason;
pub use refused::{reason_text, refusal};
pub use reply::write_reply;
pub use request::{Read, Request};
pub use route::{Part, Route};
pub use routes::Routes;
pub use service_refusal::ServiceRefusal;
pub use verb::Verb;
