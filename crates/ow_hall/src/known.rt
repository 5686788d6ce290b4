// What the types of a hall's parts say about what is kept of it. These functions do nothing but look.
ghost use Rattle.std.specs.Prelude.{◌<◌, ◌^◌};
ghost use Rattle.std.specs.List.{AllByRecursion};
ghost use Rattle.ow_commits.specs.Fit.{whole_items};
ghost use Rattle.ow_hall.specs.History.{seen};
ghost use Rattle.ow_keep.specs.Known.{IsItem};
ghost use Rattle.ow_row_text.specs.declared.item.Item.TheVariants as items;
ghost use Rattle.ow_names.specs.Name.{IsName};

use crate::Hall;
use ow_row_text::{Archive, Note};
use ow_traits::Keeper;

impl<P: Keeper + Drop> Hall<P> {
    /// Makes known that each item that is kept is what its type says. It looks at the archive, each note, each row, each activation that has
    /// not ended and each record.
    pub fn known_items(&self)
        ensures { AllByRecursion IsItem (whole_items (seen self.now.tenants self.now.ledger.entries).others (seen self.now.tenants self.now.ledger.entries).rows (seen self.now.tenants self.now.ledger.entries).trace) }
    {
        self.state.known_items();
    }

    /// Makes known that the own namespace of each key of the office table is a name. It looks at each key.
    pub fn known_homes(&self)
        ensures { AllByRecursion (λ e. IsName e.1.home) self.now.tenants.keys }
    {
        self.tenants.known_homes();
    }
}

/// Makes known what the types of the archive's fields guarantee.
pub(crate) fn known_archive(archive: Archive)
    ensures { IsItem (items.Archive archive) }
{
    known_numbers(archive.last, archive.number);
}

/// Makes known what the types of the notes' fields guarantee. It looks at each note.
pub(crate) fn known_notes(notes: &[Note])
    ensures { AllByRecursion (λ n. IsItem (items.Note n)) notes.now }
{
    let mut rest = notes;
    while let [note, after @ ..] = rest {
        known_note(note);
        rest = after;
    }
}

fn known_note(note: &Note)
    ensures { IsItem (items.Note note.now) }
{
    note.key.as_str();
    known_number(note.value);
}

fn known_numbers(first: u64, second: u64)
    ensures { (first < 2 ^ 64) × (second < 2 ^ 64) }
{}

fn known_number(number: u64)
    ensures { number < 2 ^ 64 }
{}
