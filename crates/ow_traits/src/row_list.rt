// Rows of a key and a text, in the order of their keys.
ghost use Rattle.std.specs.Prelude.{◌≡◌, ◌↔◌, [], length, option_map, IsTrue, IfOk, OnOk, OnErr};
ghost use Rattle.ow_traits.specs.Changes.{changed, old_after};
ghost use Rattle.ow_traits.specs.Rows.{AreRows, text_of, with_row};

use crate::Changes;
use crate::row_edits::{change_rows, place, put_row};
use ow_value::{NoMemory, PlainData, Str, copy_slice, same_slices};
use std::alloc::Global;
use std::marker::Model;

/// Rows of a key and a text, in the order of the keys' bytes. No key occurs twice.
#[derive(Drop)]
pub struct Rows {
    rows: Vec<(Str, Str)>,
}

impl Model for Rows {
    ghost use Rattle.std.specs.Prelude.{List, ℕ};
    ghost use Rattle.ow_traits.specs.Rows.{AreRows};

    ghost Value = { List (List ℕ × List ℕ) };

    ghost view = { λ a. a.rows.items };

    ghost invariant = { λ a. AreRows a.rows.items };
}

impl Rows {
    /// No row. This takes no memory.
    pub fn new(alloc: Global) -> Rows
        ensures { result ≡ [] }
    {
        Rows {
            rows: Vec::new(alloc),
        }
    }

    /// The keys with their texts, lent.
    pub fn as_slice(&self) -> &[(Str, Str)]
        ensures value { result.now ≡ self.now }
        ensures rows { AreRows self.now }
    {
        self.rows.as_slice()
    }

    /// How many rows.
    pub fn len(&self) -> usize
        ensures { result ≡ length self.now }
    {
        self.rows.len()
    }

    /// Whether there are none.
    pub fn is_empty(&self) -> bool
        ensures { IsTrue result ↔ (self.now ≡ []) }
    {
        self.rows.is_empty()
    }

    /// The text at the key.
    pub fn find(&self, key: &str) -> Option<&Str>
        ensures { option_map (λ t. t.now) result ≡ text_of key.now self.now }
    {
        let rows = self.rows.as_slice();
        match place(rows, key) {
            Ok(i) => Some(&rows[i].1),
            Err(_) => None,
        }
    }

    /// Puts the text at the key, in place of one that is there.
    pub fn put(&mut self, key: Str, text: Str) -> Result<(), NoMemory>
        ensures ok { OnOk result (self.new ≡ with_row self.old key text) }
        ensures err { OnErr result (self.new ≡ self.old) }
    {
        put_row(&mut self.rows, key, text)
    }

    /// Makes the changes in their order, of these rows and of the old rows: all of them, or none if out of memory.
    pub fn apply(
        &mut self,
        old_rows: &mut Rows,
        alloc: Global,
        changes: &Changes,
    ) -> Result<(), NoMemory>
        ensures ok { OnOk result (self.new ≡ changed changes.now self.old) }
        ensures old_ok { OnOk result (old_rows.new ≡ old_after changes.now old_rows.old) }
        ensures err { OnErr result (self.new ≡ self.old) }
        ensures old_err { OnErr result (old_rows.new ≡ old_rows.old) }
    {
        let changes = copy_slice(alloc, changes.as_slice())?;
        self.rows.reserve(changes.len())?;
        old_rows.rows.reserve(changes.len())?;
        change_rows(&mut self.rows, &mut old_rows.rows, changes);
        Ok(())
    }
}

impl PlainData for Rows {
    fn same(&self, other: &Rows) -> bool {
        same_slices(&self.rows, &other.rows)
    }

    fn copy(&self, alloc: Global) -> Result<Rows, NoMemory> {
        Ok(Rows {
            rows: copy_slice(alloc, &self.rows)?,
        })
    }
}
