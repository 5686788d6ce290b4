#![tactic(auto)]

//! What of a floor and of rows is kept, and what each change of them commits.
mod acceptance;
mod archiving;
mod ends;
mod following;
mod gathered;
mod keeping;
mod laws;
mod noting;
mod open_bytes;
mod openings;
mod row_changes;
mod table_rows;

pub use archiving::archive_with;
pub use following::Following;
pub use keeping::{Keeping, archive_of};
pub use laws::{
    archives_are_kept, changes_of_rows_are_kept, items_without_moves_are_kept,
    kept_rows_may_be_resumed, moves_are_kept, notes_are_kept, openings_are_kept, others_stay_kept,
    rows_of_activations_are_shallow, what_is_kept_is_allowed,
};
pub use noting::{find_note, put_note};
pub use open_bytes::OpenBytes;
pub use row_changes::RowChanges;
