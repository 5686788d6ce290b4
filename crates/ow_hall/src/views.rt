// What is asked of a hall without an event: the numbers of notes, rows of entities, and moments.
ghost use Rattle.std.specs.Prelude.{◌≡◌};
ghost use Rattle.std.specs.Option.{option_copied};
ghost use Rattle.ow_commits.specs.Noting.{note_of};
ghost use Rattle.ow_hall.specs.Comes.{at_hall};
ghost use Rattle.ow_hall.specs.History.{seen};
ghost use Rattle.ow_hall.specs.Places.{nth_of};

use crate::hall::Hall;
use ow_entity::{EntityKind, Row};
use ow_traits::Keeper;

impl<P: Keeper + Drop> Hall<P> {
    /// The number of the note with the key, if there is one.
    pub fn note(&self, key: &str) -> Option<u64>
        ensures { result ≡ note_of key.now (seen self.now.tenants self.now.ledger.entries).others.notes }
    {
        self.state.note(key)
    }

    /// The row of the kind at a place, counted from 0, by full text.
    pub fn nth(&self, kind: EntityKind, k: u64) -> Option<&Row>
        ensures { option_copied result ≡ nth_of kind k (seen self.now.tenants self.now.ledger.entries).rows }
    {
        self.state.nth(kind, k)
    }

    /// The moment that is booked of an entry for a given one.
    pub fn moment(&self, at: u64) -> u64
        ensures { result ≡ at_hall self.now at }
    {
        self.book.moment(at)
    }
}
