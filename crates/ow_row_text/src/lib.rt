#![tactic(auto)]

//! What is kept of the service from one run to the next, as rows of a key and a text: the row of each item, and what
//! changes make of the rows.
mod archive_text;
mod done_text;
mod item;
mod laws;
mod notes_text;
mod open_text;
mod rows;
mod tokens;
mod unchanged;
mod writing;

pub use item::{Archive, Item, Note, RowsVersion};
pub use laws::{bytes_change, changes_are_kept, entry_changes, others_stay, section_changes};
pub use rows::{
    archive_row, count_row, done_row, entity_row, note_row, open_row, row_text, version_row,
};
pub use unchanged::is_unchanged;
pub use writing::{count_key, done_key, entity_key, note_key, open_key};
