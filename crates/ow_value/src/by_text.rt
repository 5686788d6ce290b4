// Values by texts, found by search.
ghost use Rattle.std.specs.Prelude.{◌≡◌, ◌≤◌, ◌<◌, [], length, option_map, List, ℕ, None, Some, MatchOption, IfOk, IfErr, OnOk, OnErr};
ghost use Rattle.std.specs.List.{HoldsAt};
ghost use Rattle.std.specs.List.Sorted.{IsPartitionPoint};
ghost use Rattle.std.specs.declared.cmp.Ordering.TheVariants.{Less, Equal, Greater};
ghost use Rattle.ow_value.specs.Value.{text_cmp};
ghost use Rattle.ow_value.specs.ByText.{IsByText, StandsAt, value_at, with_value};

use crate::memory::NoMemory;
use crate::plain::PlainData;
use crate::shared::{copy_slice, same_slices};
use crate::text::Str;
use std::alloc::Global;
use std::cmp::Ordering;
use std::marker::Model;

/// Values by texts, in the order of the texts' bytes. No text occurs twice.
#[derive(Drop)]
pub struct ByText<W: Drop> {
    entries: Vec<(Str, W)>,
}

impl<W: Drop> Model for ByText<W> {
    ghost use Rattle.std.specs.Prelude.{List, ℕ};
    ghost use Rattle.ow_value.specs.ByText.{IsByText};

    ghost Value = { List (List ℕ × W) };

    ghost view = { λ a. a.entries.items };

    ghost invariant = { λ a. IsByText a.entries.items };
}

impl<W: Drop> ByText<W> {
    /// No text. This takes no memory.
    pub fn new(alloc: Global) -> ByText<W>
        ensures { result ≡ [] }
    {
        ByText {
            entries: Vec::new(alloc),
        }
    }

    /// The texts with their values, lent.
    pub fn entries(&self) -> &[(Str, W)]
        ensures value { result.now ≡ self.now }
        ensures by_text { IsByText self.now }
    {
        self.entries.as_slice()
    }

    /// The place of the text.
    pub fn place(&self, text: &[u8]) -> Option<usize>
        ensures { MatchOption result (value_at text.now self.now ≡ None) (λ i. StandsAt text.now self.now i) }
    {
        let entries = self.entries();
        match place(entries, text) {
            Ok(i) => Some(i),
            Err(_) => None,
        }
    }

    /// The value of the text.
    pub fn find(&self, text: &[u8]) -> Option<&W>
        ensures { option_map (λ w. w.now) result ≡ value_at text.now self.now }
    {
        let entries = self.entries();
        match place(entries, text) {
            Ok(i) => Some(&entries[i].1),
            Err(_) => None,
        }
    }

    /// The allocator of the entries.
    pub fn alloc(&self) -> Global {
        *self.entries.allocator()
    }

    /// Replaces the value at the place, and returns the old value. This takes no memory.
    pub fn replace(&mut self, place: usize, value: W) -> W
        requires { place < length self.old }
        ensures new { (text : List ℕ) → StandsAt text self.old place → self.new ≡ with_value self.old text value }
        ensures back { (text : List ℕ) → StandsAt text self.old place → value_at text self.old ≡ Some result }
        ensures stands { (text : List ℕ) → StandsAt text self.old place → StandsAt text self.new place }
    {
        replace_at(&mut self.entries, place, value)
    }

    /// Puts the value at the text, and replaces the one that is there.
    pub fn put(&mut self, text: Str, value: W) -> Result<(), NoMemory>
        ensures ok { OnOk result (self.new ≡ with_value self.old text value) }
        ensures err { OnErr result (self.new ≡ self.old) }
    {
        put(&mut self.entries, text, value)
    }
}

impl<W: PlainData + Drop> PlainData for ByText<W> {
    fn same(&self, other: &ByText<W>) -> bool {
        same_slices(&self.entries, &other.entries)
    }

    fn copy(&self, alloc: Global) -> Result<ByText<W>, NoMemory> {
        Ok(ByText {
            entries: copy_slice(alloc, &self.entries)?,
        })
    }
}

// The place of the text, or where it would be inserted.
fn place<W>(entries: &[(Str, W)], text: &[u8]) -> Result<usize, usize>
    requires { IsByText entries.now }
    ensures ok { IfOk result (λ i. (i < length entries.now) × HoldsAt (λ e. text_cmp e.0 text.now ≡ Equal) entries.now i) }
    ensures err { IfErr result (λ i. (i ≤ length entries.now) × IsPartitionPoint (λ e. text_cmp e.0 text.now ≡ Less) (λ e. text_cmp e.0 text.now ≡ Greater) entries.now i) }
{
    entries.binary_search_by(|entry| order(&entry.0, text))
}

fn order(a: &Str, b: &[u8]) -> Ordering
    ensures { result ≡ text_cmp a.now b.now }
{
    a.as_str().as_bytes().cmp(&b)
}

fn replace_at<W: Drop>(entries: &mut Vec<(Str, W)>, place: usize, value: W) -> W
    requires place { place < length entries.old.items }
    requires by_text { IsByText entries.old.items }
    ensures new { (text : List ℕ) → StandsAt text entries.old.items place → entries.new.items ≡ with_value entries.old.items text value }
    ensures back { (text : List ℕ) → StandsAt text entries.old.items place → value_at text entries.old.items ≡ Some result }
    ensures stands { (text : List ℕ) → StandsAt text entries.old.items place → StandsAt text entries.new.items place }
    ensures by_text { IsByText entries.new.items }
{
    std::mem::replace(&mut entries[place].1, value)
}

fn put<W: Drop>(entries: &mut Vec<(Str, W)>, text: Str, value: W) -> Result<(), NoMemory>
    requires { IsByText entries.old.items }
    ensures ok { OnOk result (entries.new.items ≡ with_value entries.old.items text value) }
    ensures err { OnErr result (entries.new.items ≡ entries.old.items) }
    ensures by_text { IsByText entries.new.items }
{
    match place(entries, text.as_str().as_bytes()) {
        Ok(i) => entries[i].1 = value,
        Err(i) => entries.insert(i, (text, value))?,
    }
    Ok(())
}
