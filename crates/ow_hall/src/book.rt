// The book and what it counts.
ghost use Rattle.std.specs.Prelude.{◌≡◌, ◌↔◌, ◌+◌, ◌*◌, ◌^◌, ◌<◌, ◌≤◌, ◌∷◌, length, reverse, IsTrue, IfOk, OnOk};
ghost use Rattle.ow_decide.specs.Sight.{is_full};
ghost use Rattle.ow_hall.specs.History.{counted, is_idle, moment, posting};
ghost use Rattle.ow_hall.specs.Commits.{is_fault, uncommitted};
ghost use Rattle.ow_hall.specs.Ledger.{IsReady, cost, faulted, no_entries, one_more, posted, posted_as};

use crate::bytes::entry_bytes;
use crate::entry::{Entries, Entry};
use crate::posting::{Posting, posting_of};
use ow_decide::{Event, Told, is_full};
use ow_floor::Order;
use ow_keep::GREATEST_MOMENT;
use ow_traits::KeeperError;
use ow_value::NoMemory;
use std::alloc::Global;
use std::marker::Model;

/// All that was asked and answered since the service was opened.
#[derive(Drop)]
pub struct Book {
    entries: Entries,
    total: u64,
    stored: u64,
    quiet: u64,
    denied: u64,
}

impl Model for Book {
    ghost use Rattle.std.specs.Prelude.{◌≡◌, reverse};
    ghost use Rattle.ow_hall.specs.History.{counted};
    ghost use Rattle.ow_hall.specs.Ledger.{BookView};
    ghost use Rattle.std.specs.Coded.{codes};
    ghost use Rattle.ow_value.specs.Code.{value_code};

    ghost Value = { BookView };

    ghost coded = { Prim.hlevel (codes, value_code) };

    ghost view = { λ b. record {
      ledger = record {
        entries = reverse b.entries.items;
        stored = b.stored;
        quiet = b.quiet;
        denied = b.denied;
      };
      room = b.entries.room;
    } };

    ghost invariant = { λ b. b.total ≡ counted (reverse b.entries.items) };
}

impl Book {
    /// No entry. This takes no memory.
    pub(crate) fn new(alloc: Global) -> Book
        ensures { result.ledger ≡ no_entries }
    {
        Book {
            entries: Entries::new(alloc),
            total: 0,
            stored: 0,
            quiet: 0,
            denied: 0,
        }
    }

    /// The entries, the oldest first.
    pub fn entries(&self) -> &Entries
        ensures { reverse result.now.items ≡ self.now.ledger.entries }
    {
        &self.entries
    }

    /// How many bytes it counts: 64 for each entry, those of its request or its runner's reply, and those of the body of its
    /// answer.
    pub fn counted(&self) -> u64
        ensures { result ≡ counted self.now.ledger.entries }
    {
        self.total
    }

    /// How many calls met a fault of the store. The tally stays at the greatest u64 once it is there, as the next two do.
    pub fn stored(&self) -> u64
        ensures { result ≡ self.now.ledger.stored }
    {
        self.stored
    }

    /// How many calls of `next` weren't booked, since they ordered nothing after a `next` that ordered nothing.
    pub fn quiet(&self) -> u64
        ensures { result ≡ self.now.ledger.quiet }
    {
        self.quiet
    }

    /// How many events of runners were refused.
    pub fn denied(&self) -> u64
        ensures { result ≡ self.now.ledger.denied }
    {
        self.denied
    }

    /// Whether the book has no room for an entry of `size` bytes beside its 64.
    pub fn is_full(&self, size: u64) -> bool
        ensures { result ≡ is_full (counted self.now.ledger.entries) size }
    {
        is_full(self.total, size)
    }

    /// The moment that is booked for a given one.
    pub fn moment(&self, at: u64) -> u64
        ensures { result ≡ moment self.now.ledger.entries at }
    {
        let last = match self.entries.as_slice().last() {
            Some(entry) => entry.at,
            None => 0,
        };
        last.max(at.min(GREATEST_MOMENT))
    }

    /// Whether the last entry is a `next` that ordered nothing.
    pub fn is_idle(&self) -> bool
        ensures { result ≡ is_idle self.now.ledger.entries }
    {
        match self.entries.as_slice().last() {
            Some(entry) => matches!(entry.answer, Told::Next(Order::Nothing(_))),
            None => false,
        }
    }

    /// The same book, with room of its own.
    pub fn copy(&self, alloc: Global) -> Result<Book, NoMemory>
        ensures { IfOk result (λ b. b.ledger ≡ self.now.ledger) }
    {
        Ok(Book {
            entries: self.entries.copy(alloc)?,
            total: self.total,
            stored: self.stored,
            quiet: self.quiet,
            denied: self.denied,
        })
    }

    /// Makes room for an answer, where it is booked, and for the `owed` entries that are owed after it. It returns how many bytes the
    /// entry counts beside its 64. A count that would pass its type is answered as running out of memory.
    pub(crate) fn reserve(
        &mut self,
        owed: usize,
        event: &Event,
        told: &Told,
    ) -> Result<u64, NoMemory>
        ensures ledger { self.new.ledger ≡ self.old.ledger }
        ensures keeps { self.old.room ≤ self.new.room }
        ensures ready { IfOk result (λ n. posting self.old.ledger.entries told.now ≡ Posting.Booked
            → IsReady self.old.ledger.entries self.new.room owed event.now told.now n) }
    {
        if posting_of(self.is_idle(), told) != Posting::Booked {
            return Ok(0);
        }
        let Some(bytes) = entry_bytes(event, told) else {
            return Err(NoMemory);
        };
        if !fits(self.total, bytes, owed) {
            return Err(NoMemory);
        }
        self.entries.reserve(owed + 1)?;
        Ok(bytes)
    }

    /// Posts an answer. Its entry counts `bytes` bytes beside its 64. This takes no memory.
    pub(crate) fn post(&mut self, at: u64, event: Event, told: Told, bytes: u64)
        requires { posting self.old.ledger.entries told ≡ Posting.Booked
            → IsReady self.old.ledger.entries self.old.room 0 event told bytes }
        ensures ledger { self.new.ledger ≡ posted self.old.ledger at event told }
        ensures room { self.old.room ≤ self.new.room + cost (posting self.old.ledger.entries told) }
    {
        let posting = posting_of(self.is_idle(), &told);
        self.post_as(posting, at, event, told, bytes);
    }
}

impl Book {
    fn post_as(&mut self, posting: Posting, at: u64, event: Event, told: Told, bytes: u64)
        requires { posting ≡ Posting.Booked → IsReady self.old.ledger.entries self.old.room 0 event told bytes }
        ensures ledger { self.new.ledger ≡ posted_as posting (record { at = at; event = event; answer = told }) self.old.ledger }
        ensures room { self.old.room ≤ self.new.room + cost posting }
    {
        match posting {
            Posting::Booked => self.add(at, event, told, bytes),
            Posting::Quiet => {
                drop((event, told));
                self.note_quiet();
            }
            Posting::Denied => {
                drop((event, told));
                self.note_denied();
            }
            Posting::Unbooked => drop((event, told)),
        }
    }

    fn add(&mut self, at: u64, event: Event, answer: Told, bytes: u64)
        requires { IsReady self.old.ledger.entries self.old.room 0 event answer bytes }
        ensures ledger { self.new.ledger ≡ posted_as Posting.Booked (record { at = at; event = event; answer = answer }) self.old.ledger }
        ensures room { self.old.room ≤ self.new.room + 1 }
    {
        self.total += 64 + bytes;
        self.entries.push(Entry { at, event, answer });
    }

    /// Tallies a commit that failed, where it met a fault of the store, and returns whether it did.
    pub(crate) fn note_uncommitted(&mut self, error: KeeperError) -> bool
        ensures ledger { self.new.ledger ≡ uncommitted error self.old.ledger }
        ensures room { self.new.room ≡ self.old.room }
        ensures failed { result ≡ is_fault error }
    {
        match error {
            KeeperError::Failed => {
                self.note_stored();
                true
            }
            KeeperError::NoMemory => false,
        }
    }

    #[tactic(auto, unfolding(crate::specs::Ledger::one_more))]
    fn note_stored(&mut self)
        ensures ledger { self.new.ledger ≡ faulted self.old.ledger }
        ensures room { self.new.room ≡ self.old.room }
    {
        self.stored = self.stored.saturating_add(1);
    }

    #[tactic(auto, unfolding(crate::specs::Ledger::one_more))]
    fn note_quiet(&mut self)
        ensures ledger { self.new.ledger ≡ record self.old.ledger { quiet = one_more self.old.ledger.quiet } }
        ensures room { self.new.room ≡ self.old.room }
    {
        self.quiet = self.quiet.saturating_add(1);
    }

    #[tactic(auto, unfolding(crate::specs::Ledger::one_more))]
    fn note_denied(&mut self)
        ensures ledger { self.new.ledger ≡ record self.old.ledger { denied = one_more self.old.ledger.denied } }
        ensures room { self.new.room ≡ self.old.room }
    {
        self.denied = self.denied.saturating_add(1);
    }
}

// Whether an entry with `bytes` bytes beside its 64, and `owed` more entries of 64 bytes each, can be counted.
fn fits(total: u64, bytes: u64, owed: usize) -> bool
    ensures { IsTrue result ↔ ((total + (64 + bytes)) + 64 * owed < 2 ^ 64) }
{
    total as u128 + 64 + bytes as u128 + 64 * (owed as u128) <= u64::MAX as u128
}
