// Notes: how they are found and kept, and what is committed of one.
ghost use Rattle.std.specs.Prelude.{◌≡◌, ◌≤◌, ◌+◌, ◌-◌, ◌++◌, ◌∷◌, [], List, ℕ, vec_capacity, vec_len, IfOk, OnOk};
ghost use Rattle.ow_entity.specs.declared.rows.Row.{Row};
ghost use Rattle.ow_floor.specs.Trace.{Trace};
ghost use Rattle.ow_row_text.specs.declared.item.Item.TheVariants as items;
ghost use Rattle.ow_commits.specs.Commits.{put_of};
ghost use Rattle.ow_commits.specs.Keeping.{StandsFollowing, row_bytes};
ghost use Rattle.ow_commits.specs.Kept.{OthersView, others_bytes};
ghost use Rattle.ow_commits.specs.Noting.{note_of, noting, old_note_bytes, place_of, with_note};

use crate::following::Following;
use crate::gathered::{Gathered, row_bytes};
use ow_row_text::{Note, note_row};
use ow_value::{NoMemory, PlainData};
use std::alloc::Global;

/// The number that is kept under the key, if there is one.
pub fn find_note(notes: &[Note], key: &str) -> Option<u64>
    ensures { result ≡ note_of key.now notes.now }
{
    for note in notes {
        if key == note.key.as_str() {
            return Some(note.value);
        }
    }
    None
}

/// The note is among them then, in place of one with its key. This takes no memory where there is room for one more.
pub fn put_note(notes: &mut Vec<Note>, note: Note)
    requires room { 1 ≤ vec_capacity notes.old - vec_len notes.old }
    ensures { notes.new.items ≡ with_note note notes.old.items }
{
    let place = place_of(notes, &note);
    if place < notes.len() {
        notes[place] = note;
    } else {
        notes.push_reserved(note);
    }
}

// The place of the note with this one's key, or after all notes where there is none.
fn place_of(notes: &[Note], note: &Note) -> usize
    ensures { result ≡ place_of note.now notes.now }
{
    let mut place = 0;
    for kept in notes {
        if note.key.as_str() == kept.key.as_str() {
            return place;
        }
        place += 1;
    }
    place
}

impl Following {
    /// What follows, and after it this note, in place of the number that was kept under its key before.
    pub fn noting(self, alloc: Global, old: Option<u64>, note: &Note) -> Result<Following, NoMemory>
        ensures changes { IfOk result (λ c. c.changes ≡ self.changes ++ put_of (items.Note note.now) ∷ []) }
        ensures bytes { IfOk result (λ c. (o : OthersView) (rest : ℕ) → self.bytes ≡ others_bytes o + rest → old ≡ note_of note.now.key o.notes → c.bytes ≡ others_bytes (noting note.now o) + rest) }
        ensures stands { IfOk result (λ c. (o : OthersView) (rs : List Row) (T : Trace) → StandsFollowing self o rs T → old ≡ note_of note.now.key o.notes → StandsFollowing c (noting note.now o) rs T) }
    {
        let mut gathered = self.gathered(alloc)?;
        put_noted(alloc, &mut gathered, old, note)?;
        let Following { opens, .. } = self;
        gathered.following(opens)
    }
}

// The note's row is put in place of the row with this number, where there was one.
fn put_noted(
    alloc: Global,
    gathered: &mut Gathered,
    old: Option<u64>,
    note: &Note,
) -> Result<(), NoMemory>
    ensures changes { OnOk result (gathered.new.changes.items ≡ gathered.old.changes.items ++ put_of (items.Note note.now) ∷ []) }
    ensures bytes { OnOk result (gathered.new.bytes + old_note_bytes note.now.key old ≡ gathered.old.bytes + row_bytes (items.Note note.now)) }
{
    let less = old_note_bytes(alloc, old, note)?;
    let row = note_row(alloc, note)?;
    gathered.put(row, less)?;
    Ok(())
}

// How many bytes the row has with the number that was kept under the note's key, where there was one.
fn old_note_bytes(alloc: Global, old: Option<u64>, note: &Note) -> Result<u64, NoMemory>
    ensures { IfOk result (λ n. n ≡ old_note_bytes note.now.key old) }
{
    let Some(value) = old else {
        return Ok(0);
    };
    let key = note.key.copy(alloc)?;
    let kept = Note { key, value };
    let row = note_row(alloc, &kept)?;
    row_bytes(&row)
}
