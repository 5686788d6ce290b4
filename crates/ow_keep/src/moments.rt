// The greatest moment in kept rows.
ghost use Rattle.std.specs.Prelude.{◌≡◌};
ghost use Rattle.ow_keep.specs.Moments.{archive_moment, greatest_acceptance, greatest_note, greatest_record_moment, parts_moment, record_moment};
ghost use Rattle.ow_keep.specs.Split.{parts_of};

use crate::kept::Kept;
use ow_records::{Record, Unrecorded};
use ow_row_text::{Archive, Note};

impl Kept {
    /// The greatest of the moments of acceptances, starts and ends, of notes, and of the last end in the archive, in
    /// milliseconds, or 0 where there is none.
    pub fn greatest_moment(&self) -> u64
        ensures { result ≡ parts_moment (parts_of self.now) }
    {
        let archived = archive_moment(self.archive);
        let noted = archived.max(greatest_note(&self.notes));
        let acceptance = greatest_acceptance(&self.unrecorded);
        noted.max(acceptance.max(greatest_record_moment(&self.records)))
    }
}

fn archive_moment(archive: Option<Archive>) -> u64
    ensures { result ≡ archive_moment archive }
{
    match archive {
        None => 0,
        Some(archive) => archive.last,
    }
}

fn greatest_note(notes: &[Note]) -> u64
    ensures { result ≡ greatest_note notes.now }
{
    let mut greatest = 0u64;
    for note in notes {
        greatest = greatest.max(note.value);
    }
    greatest
}

fn greatest_acceptance(activations: &[Unrecorded]) -> u64
    ensures { result ≡ greatest_acceptance activations.now }
{
    let mut greatest = 0u64;
    for activation in activations {
        greatest = greatest.max(activation.at);
    }
    greatest
}

fn greatest_record_moment(records: &[Record]) -> u64
    ensures { result ≡ greatest_record_moment records.now }
{
    let mut greatest = 0u64;
    for ended in records {
        greatest = greatest.max(record_moment(ended));
    }
    greatest
}

fn record_moment(ended: &Record) -> u64
    ensures { result ≡ record_moment ended.now }
{
    ended.span.end()
}
