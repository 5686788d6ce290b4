// Changes that are gathered for a commit.
ghost use Rattle.std.specs.Prelude.{◌≡◌, ◌+◌, ◌++◌, ◌∷◌, [], length, IfOk, OnOk};
ghost use Rattle.ow_traits.specs.declared.change_list.Change.TheVariants as changes;

use ow_traits::{Change, Changes};
use ow_value::{NoMemory, Str};
use std::alloc::Global;

/// Changes, and how many bytes all kept rows have once they are made.
#[derive(Drop)]
pub(crate) struct Gathered {
    pub(crate) changes: Vec<Change>,
    pub(crate) bytes: u64,
}

impl Gathered {
    /// No change, over rows that have this many bytes.
    pub(crate) fn new(alloc: Global, bytes: u64) -> Gathered
        ensures changes { result.changes.items ≡ [] }
        ensures bytes { result.bytes ≡ bytes }
    {
        Gathered {
            changes: Vec::new(alloc),
            bytes,
        }
    }

    /// Puts a row in place of one that has `less` bytes. Returns how many bytes the new row has.
    pub(crate) fn put(&mut self, row: (Str, Str), less: u64) -> Result<u64, NoMemory>
        ensures changes { OnOk result (self.new.changes.items ≡ self.old.changes.items ++ changes.Put row.0 row.1 ∷ []) }
        ensures bytes { OnOk result (self.new.bytes + less ≡ self.old.bytes + (length row.0 + length row.1)) }
        ensures size { IfOk result (λ n. n ≡ length row.0 + length row.1) }
    {
        let size = row_bytes(&row)?;
        self.bytes = changed_bytes(self.bytes, less, size)?;
        let (key, text) = row;
        self.changes.push(Change::Put(key, text))?;
        Ok(size)
    }

    /// Takes out a row that has `less` bytes.
    pub(crate) fn take_out(&mut self, key: Str, less: u64) -> Result<(), NoMemory>
        ensures changes { OnOk result (self.new.changes.items ≡ self.old.changes.items ++ changes.Drop key ∷ []) }
        ensures bytes { OnOk result (self.new.bytes + less ≡ self.old.bytes) }
    {
        self.bytes = changed_bytes(self.bytes, less, 0)?;
        self.changes.push(Change::Drop(key))?;
        Ok(())
    }

    /// Takes out a row, and puts it among the old rows.
    pub(crate) fn retire(&mut self, row: (Str, Str)) -> Result<(), NoMemory>
        ensures changes { OnOk result (self.new.changes.items ≡ self.old.changes.items ++ changes.Retire row.0 row.1 ∷ []) }
        ensures bytes { OnOk result (self.new.bytes + (length row.0 + length row.1) ≡ self.old.bytes) }
    {
        let size = row_bytes(&row)?;
        self.bytes = changed_bytes(self.bytes, size, 0)?;
        let (key, text) = row;
        self.changes.push(Change::Retire(key, text))?;
        Ok(())
    }
}

/// How many bytes the key and the text have.
pub(crate) fn row_bytes(row: &(Str, Str)) -> Result<u64, NoMemory>
    ensures { IfOk result (λ n. n ≡ length row.now.0 + length row.now.1) }
{
    let key = row.0.len() as u64;
    let text = row.1.len() as u64;
    match key.checked_add(text) {
        Some(bytes) => Ok(bytes),
        None => Err(NoMemory),
    }
}

// The number of bytes, minus `less` and then plus `more`. A count that the type doesn't hold is treated as running out of memory.
fn changed_bytes(bytes: u64, less: u64, more: u64) -> Result<u64, NoMemory>
    ensures { IfOk result (λ n. n + less ≡ bytes + more) }
{
    let Some(rest) = bytes.checked_sub(less) else {
        return Err(NoMemory);
    };
    match rest.checked_add(more) {
        Some(sum) => Ok(sum),
        None => Err(NoMemory),
    }
}
