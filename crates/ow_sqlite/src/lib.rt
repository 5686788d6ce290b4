#![tactic(auto)]

//! Rows of the service kept in a SQLite database: a keeper over any store of pages, and one over a file.
mod file_keeper;
mod kept_changes;
mod kept_rows;
mod sqlite_keeper;

pub use file_keeper::FileKeeper;
pub use sqlite_keeper::SqliteKeeper;
