// Lists of full names.
use crate::full::FullName;
use ow_value::Items;

/// A list of full names.
pub type Names = Items<FullName>;
