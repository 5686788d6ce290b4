// What is committed of an archive.
ghost use Rattle.std.specs.Prelude.{◌≡◌, ◌+◌, ◌++◌, ◌∷◌, [], List, ℕ, map, IfOk, OnOk};
ghost use Rattle.ow_entity.specs.declared.rows.Row.{Row};
ghost use Rattle.ow_floor.specs.Calls.{archive_items, due_in};
ghost use Rattle.ow_floor.specs.Laws.{IsSound};
ghost use Rattle.ow_floor.specs.Trace.{Trace};
ghost use Rattle.ow_row_text.specs.declared.item.Item.TheVariants as items;
ghost use Rattle.ow_commits.specs.Archiving.{archive_changes, archive_with, last_end, others_with, retire_of};
ghost use Rattle.ow_commits.specs.Commits.{put_of};
ghost use Rattle.ow_commits.specs.Keeping.{StandsFollowing, done_bytes, row_bytes};
ghost use Rattle.ow_commits.specs.Kept.{OthersView};

use crate::following::Following;
use crate::gathered::{Gathered, row_bytes};
use ow_records::Record;
use ow_row_text::{Archive, archive_row, done_row};
use ow_value::{NoMemory, copy_slice};
use std::alloc::Global;

impl Following {
    /// What follows, and after it an archive of these records: they leave the rows for the old rows, and the row of the archive counts them.
    /// `archive` is what was archived before.
    pub fn archiving(
        self,
        alloc: Global,
        archive: Archive,
        due: &[Record],
    ) -> Result<Following, NoMemory>
        ensures changes { IfOk result (λ c. c.changes ≡ self.changes ++ archive_changes archive due.now) }
        ensures stands { IfOk result (λ c. (o : OthersView) (rs : List Row) (T : Trace) (until : ℕ) → StandsFollowing self o rs T → IsSound T → o.archive ≡ archive
            → due.now ≡ due_in until T → StandsFollowing c (others_with o due.now) rs (archive_items until T ++ T)) }
    {
        let mut gathered = self.gathered(alloc)?;
        retire_all(alloc, &mut gathered, due)?;
        count_archived(alloc, &mut gathered, archive, due)?;
        let Following { opens, .. } = self;
        gathered.following(opens)
    }

    /// The changes and the bytes, to be gathered further.
    pub(crate) fn gathered(&self, alloc: Global) -> Result<Gathered, NoMemory>
        ensures changes { IfOk result (λ g. g.changes.items ≡ self.now.changes) }
        ensures bytes { IfOk result (λ g. g.bytes ≡ self.now.bytes) }
    {
        let changes = copy_slice(alloc, self.changes.as_slice())?;
        Ok(Gathered {
            changes,
            bytes: self.bytes,
        })
    }
}

// Each of these records leaves the rows.
fn retire_all(alloc: Global, gathered: &mut Gathered, due: &[Record]) -> Result<(), NoMemory>
    ensures changes { OnOk result (gathered.new.changes.items ≡ gathered.old.changes.items ++ map retire_of due.now) }
    ensures bytes { OnOk result (gathered.new.bytes + done_bytes due.now ≡ gathered.old.bytes) }
{
    for ended in due {
        retire(alloc, gathered, ended)?;
    }
    Ok(())
}

fn retire(alloc: Global, gathered: &mut Gathered, ended: &Record) -> Result<(), NoMemory>
    ensures changes { OnOk result (gathered.new.changes.items ≡ gathered.old.changes.items ++ retire_of ended.now ∷ []) }
    ensures bytes { OnOk result (gathered.new.bytes + row_bytes (items.Done ended.now) ≡ gathered.old.bytes) }
{
    let row = done_row(alloc, ended)?;
    gathered.retire(row)
}

// The row of the archive counts these records too.
fn count_archived(
    alloc: Global,
    gathered: &mut Gathered,
    archive: Archive,
    due: &[Record],
) -> Result<(), NoMemory>
    ensures changes { OnOk result (gathered.new.changes.items ≡ gathered.old.changes.items ++ put_of (items.Archive (archive_with archive due.now)) ∷ []) }
    ensures bytes { OnOk result (gathered.new.bytes + row_bytes (items.Archive archive) ≡ gathered.old.bytes + row_bytes (items.Archive (archive_with archive due.now))) }
{
    let less = archive_bytes(alloc, archive)?;
    let counted = archive_with(archive, due)?;
    let row = archive_row(alloc, counted)?;
    gathered.put(row, less)?;
    Ok(())
}

// How many bytes the row of the archive has.
fn archive_bytes(alloc: Global, archive: Archive) -> Result<u64, NoMemory>
    ensures { IfOk result (λ n. n ≡ row_bytes (items.Archive archive)) }
{
    let row = archive_row(alloc, archive)?;
    row_bytes(&row)
}

/// The archive with these records. A count that the type doesn't hold is treated as running out of memory.
pub fn archive_with(archive: Archive, due: &[Record]) -> Result<Archive, NoMemory>
    ensures { IfOk result (λ a. a ≡ archive_with archive due.now) }
{
    let last = last_end(archive.last, due);
    match archive.number.checked_add(due.len() as u64) {
        Some(number) => Ok(Archive { last, number }),
        None => Err(NoMemory),
    }
}

// The greatest end of these records, or this moment, whichever is later.
fn last_end(last: u64, due: &[Record]) -> u64
    ensures { result ≡ last_end last due.now }
{
    let mut greatest = last;
    for ended in due {
        greatest = greatest.max(ended.span.end());
    }
    greatest
}
