// Receipts of what was done at a desk.
ghost use Rattle.std.specs.Prelude.{◌≡◌, ◌≤◌, [], ◌∷◌, IfOk, OnOk};
ghost use Rattle.ow_hall.specs.declared.entry.Entry.{Entry as EntryValue};
ghost use Rattle.ow_desk.specs.Notes.{no_notes};

use crate::desk::{Desk, Issuer};
use crate::marks::Marks;
use crate::placed::{Placed, PlacedEntries};
use ow_traits::Keeper;
use ow_value::{NoMemory, PlainData};
use std::alloc::Global;
use std::marker::{Model, PhantomData};

/// What the holder of these receipts did at a desk: of each call its entry in the book with its place, or a mark, or one more in a tally.
#[derive(Drop)]
pub struct Receipts<P: Keeper + Drop> {
    pub(crate) entries: PlacedEntries,
    pub(crate) marks: Marks,
    pub(crate) quiet: u64,
    pub(crate) denied: u64,
    desk: PhantomData<P>,
}

impl<P: Keeper + Drop> Model for Receipts<P> {
    ghost use Rattle.std.specs.Prelude.{min};
    ghost use Rattle.ow_desk.specs.Notes.{ReceiptsView};
    ghost use Rattle.std.specs.Coded.{codes};
    ghost use Rattle.ow_value.specs.Code.{value_code};

    ghost Value = { ReceiptsView };

    ghost coded = { Prim.hlevel (codes, value_code) };

    ghost view = { λ r. record {
      notes = record { entries = r.entries.items; marks = r.marks.items; quiet = r.quiet; denied = r.denied };
      room = min r.entries.room r.marks.room;
    } };
}

impl<P: Keeper + Drop> Receipts<P> {
    /// Nothing was done.
    pub fn new(alloc: Global, _issuer: &Issuer<P>) -> Result<Receipts<P>, NoMemory>
        ensures { IfOk result (λ r. r.notes ≡ no_notes) }
    {
        Ok(Receipts {
            entries: PlacedEntries::new(alloc),
            marks: Marks::new(alloc),
            quiet: 0,
            denied: 0,
            desk: PhantomData,
        })
    }

    /// The opening of the hall, which is all that was done there.
    pub fn opening(
        alloc: Global,
        issuer: &Issuer<P>,
        desk: &Desk<P>,
    ) -> Result<Receipts<P>, NoMemory>
        requires { (e : EntryValue) × (desk.now.hall.ledger.entries ≡ e ∷ []) }
        ensures { IfOk result (λ r. (e : EntryValue) × (desk.now.hall.ledger.entries ≡ e ∷ []) × (r.notes ≡ record no_notes { entries = record { place = 0; entry = e } ∷ [] })) }
    {
        let mut receipts = Receipts::new(alloc, issuer)?;
        receipts.reserve(alloc, 1)?;
        if let Some(entry) = desk.hall.book().entries().as_slice().first() {
            let entry = entry.copy(alloc)?;
            receipts.entries.push(Placed { place: 0, entry });
        }
        Ok(receipts)
    }

    /// The entries of the calls that were booked, in their order.
    pub fn entries(&self) -> &PlacedEntries
        ensures { result.now.items ≡ self.now.notes.entries }
    {
        &self.entries
    }

    /// The marks of the calls that were not, in their order.
    pub fn marks(&self) -> &Marks
        ensures { result.now.items ≡ self.now.notes.marks }
    {
        &self.marks
    }

    /// How many calls of `next` weren't booked: they ordered nothing, and the last entry was a `next` that ordered nothing.
    pub fn quiet(&self) -> u64
        ensures { result ≡ self.now.notes.quiet }
    {
        self.quiet
    }

    /// How many events of runners were refused.
    pub fn denied(&self) -> u64
        ensures { result ≡ self.now.notes.denied }
    {
        self.denied
    }

    /// Takes the memory for the receipts of this many calls.
    pub fn reserve(&mut self, _alloc: Global, calls: u32) -> Result<(), NoMemory>
        ensures notes { self.new.notes ≡ self.old.notes }
        ensures room { OnOk result (calls ≤ self.new.room) }
        ensures keeps { self.old.room ≤ self.new.room }
    {
        self.entries.reserve(calls as usize)?;
        self.marks.reserve(calls as usize)
    }
}
