#![tactic(auto)]

//! JSON values whose numbers are integers of 64 bits, and the texts and lists that all crates above pass about. Texts,
//! lists and objects never change and are shared by count.
mod by_text;
mod decimal;
mod fields;
mod join;
mod listed;
mod lists;
mod measure;
mod members;
mod memory;
mod plain;
mod quick;
mod reader;
mod several;
mod shared;
mod text;
mod val;
mod walk;
mod whole;
mod writer;

pub use by_text::ByText;
pub use decimal::{decimal_of, digits_of};
pub use fields::Fields;
pub use join::merge;
pub use json::{Scratch, Writer};
pub use listed::Listed;
pub use lists::{Bytes, Lines, Pairs, bytes_of};
pub use measure::{MEGABYTE, size};
pub use memory::NoMemory;
pub use plain::PlainData;
pub use reader::{MOST_NESTED, MOST_NESTED_RECORD, ValueRefusal, read_deep, read_val, read_val_in};
pub use several::{copied2, copied3, copied4, copied5, joined2, joined3, kept_beside};
pub use shared::{Items, Shared, copy_slice, same_slices};
pub use text::Str;
pub use val::{Pair, Params, Val, Vals};
pub use walk::{copy, depth, known, same};
pub use whole::Whole;
pub use writer::{val_text, write_onto, write_val, written_text};
