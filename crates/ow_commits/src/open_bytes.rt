// What is known of an activation that has not ended.
use ow_records::Id;

/// How many bytes the row of an activation has that has not ended.
#[derive(Clone, Copy, Debug, PartialEq, Eq)]
pub struct OpenBytes {
    /// The activation.
    pub id: Id,
    /// Those of the key and of the text.
    pub bytes: u64,
}
