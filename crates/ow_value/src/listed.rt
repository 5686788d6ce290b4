// A list that grows in room that was taken before.
ghost use Rattle.std.specs.Prelude.{◌≡◌, ◌+◌, ◌<◌, ◌≤◌, ◌++◌, ◌^◌, ◌↔◌, [], ◌∷◌, length, IsTrue, OnOk, IfOk};

use crate::memory::NoMemory;
use crate::plain::PlainData;
use crate::shared::{copy_slice, same_slices};
use std::alloc::Global;
use std::marker::Model;

// The most items that a list may have.
const MOST_LISTED: usize = 0x7fff_ffff_ffff_ffff;

/// A list that only grows, the oldest first. It has fewer than 2^63 items, whatever their size.
#[derive(Drop)]
pub struct Listed<T: Drop> {
    items: Vec<T>,
}

impl<T: Drop> Model for Listed<T> {
    ghost use Rattle.std.specs.Prelude.{◌-◌, ◌^◌, ◌<◌, min, length, vec_len, vec_capacity};
    ghost use Rattle.ow_value.specs.Listed.{ListedView};

    ghost Value = { ListedView T };

    ghost view = { λ l. record { items = l.items.items; room = min (vec_capacity l.items - vec_len l.items) (2 ^ 63 - 1 - vec_len l.items) } };

    ghost invariant = { λ l. length l.items.items < 2 ^ 63 };
}

impl<T: Drop> Listed<T> {
    /// Nothing. This takes no memory.
    pub fn new(alloc: Global) -> Listed<T>
        ensures { result.items ≡ [] }
    {
        Listed {
            items: Vec::new(alloc),
        }
    }

    /// What is listed, the oldest first.
    pub fn as_slice(&self) -> &[T]
        ensures value { result.now ≡ self.now.items }
        ensures small { length self.now.items < 2 ^ 63 }
    {
        self.items.as_slice()
    }

    /// How many there are.
    pub fn len(&self) -> usize
        ensures value { result ≡ length self.now.items }
        ensures small { result < 2 ^ 63 }
    {
        self.items.len()
    }

    /// Whether there is none.
    pub fn is_empty(&self) -> bool
        ensures { IsTrue result ↔ (self.now.items ≡ []) }
    {
        self.items.is_empty()
    }

    /// Makes room for this many more items. A total of more than 2^63 - 1 is refused as out of memory.
    pub fn reserve(&mut self, count: usize) -> Result<(), NoMemory>
        ensures items { self.new.items ≡ self.old.items }
        ensures room { OnOk result (count ≤ self.new.room) }
        ensures keeps { self.old.room ≤ self.new.room }
    {
        if count > MOST_LISTED - self.items.len() {
            return Err(NoMemory);
        }
        self.items.reserve(count)?;
        Ok(())
    }

    /// Appends an item, into room that was made before. This takes no memory.
    pub fn push(&mut self, item: T)
        requires { 1 ≤ self.old.room }
        ensures items { self.new.items ≡ self.old.items ++ item ∷ [] }
        ensures room { self.old.room ≤ self.new.room + 1 }
    {
        self.items.push_reserved(item);
    }
}

impl<T: PlainData + Drop> Listed<T> {
    /// Whether both have the same.
    pub fn same(&self, other: &Listed<T>) -> bool
        ensures { IsTrue result ↔ (self.now.items ≡ other.now.items) }
    {
        same_slices(self.items.as_slice(), other.items.as_slice())
    }

    /// The same, with room of its own.
    pub fn copy(&self, alloc: Global) -> Result<Listed<T>, NoMemory>
        ensures { IfOk result (λ l. l.items ≡ self.now.items) }
    {
        Ok(Listed {
            items: copy_slice(alloc, self.items.as_slice())?,
        })
    }
}
