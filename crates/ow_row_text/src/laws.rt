// Laws of kept rows, for the crates above.
ghost use Rattle.ow_row_text.specs.Laws.{BytesChange, ChangesAreKept, EntryChanges, OthersStay, SectionChanges};

/// What changes make of the rows of some entries, where they make the new entries of the old ones key by key.
#[tactic(auto, using(crate::proofs::Extent::changes_kept))]
pub fn changes_are_kept()
    ensures { ChangesAreKept }
{}

/// What one change makes of a list of entries.
#[tactic(auto, using(crate::proofs::Stated::entry_changes))]
pub fn entry_changes()
    ensures { EntryChanges }
{}

/// A change in one of two lists of entries is one in both.
#[tactic(auto, using(crate::proofs::Stated::section_changes))]
pub fn section_changes()
    ensures { SectionChanges }
{}

/// What changes make of entries, and of their rows, they make beside others that have none of the changed keys.
#[tactic(auto, using(crate::proofs::Others::others_stay))]
pub fn others_stay()
    ensures { OthersStay }
{}

/// How many bytes rows have after a change.
#[tactic(auto, using(crate::proofs::Stated::bytes_change))]
pub fn bytes_change()
    ensures { BytesChange }
{}
