#![tactic(auto)]

//! Activations and their ids, what ends an activation, the response that follows from it, what is kept of it, and of a
//! composite while it is open.
mod abandonment;
mod activations;
mod digits;
mod fields_in;
mod fires;
mod forms;
mod frames;
mod ids;
mod known;
mod laws;
mod listing;
mod logs;
mod lower_ids;
mod notes;
mod notes_in;
mod order;
mod outcomes;
mod ready;
mod record;
mod record_in;
mod record_refusal;
mod records;
mod responses;
mod retiring;
mod span;
mod unrecorded;
mod written;
mod written_notes;

pub use abandonment::abandoned;
pub use activations::Activation;
pub use fields_in::{cause_in, id_in, lines_in, name_in, number_in, path_in, text_in, version_in};
pub use fires::{Fire, trigger_record};
pub use forms::{Form, Role, form_in};
pub use frames::{Frame, Heard, Used};
pub use ids::Id;
pub use known::{
    known_activation, known_id, known_ids, known_record, known_records, known_unrecorded,
};
pub use laws::{
    abandoned_is_recorded, fields_read_back, id_texts_differ, ids_read_back, lower_ids_read_back,
    lower_is_read, read_is_written, written_is_read,
};
pub use notes::{ExecKind, Notes};
pub use notes_in::{kind_in, limits_in};
pub use outcomes::{Ending, outcome, outcome_in};
pub use ready::ReadyRecord;
pub use record::{Record, record_of};
pub use record_in::{read_fields, read_record};
pub use record_refusal::RecordRefusal;
pub use records::Records;
pub use responses::Response;
pub use span::Span;
pub use unrecorded::Unrecorded;
pub use written::{status_text, write_logs, write_record, write_response, write_summary};
