// What is true of what is kept. The functions do nothing: their contracts are the laws.
ghost use Rattle.ow_commits.specs.Fit.{KeptIsAllowed};
ghost use Rattle.ow_commits.specs.Laws.{ArchivesAreKept, BytesBesideOthers, ChangesOfRowsAreKept, ItemsWithoutMovesAreKept, MovesAreKept, NotesAreKept, OthersStay};
ghost use Rattle.ow_commits.specs.Opening.{HeldRowsAreNotBuiltin, MayBeResumed, OpeningsAreKept, ResumedIdsAreKnown};
ghost use Rattle.ow_commits.specs.Shallow.{AbandonedAreShallow, EndsAreShallow, FiresAreShallow, OpensAreShallow};

/// What is committed of a change of the rows turns what was kept into what is kept of the rows after the change.
#[tactic(auto, using(crate::proofs::RowLaws::rows_kept))]
pub fn changes_of_rows_are_kept()
    ensures { ChangesOfRowsAreKept }
{}

/// What is committed of moves, in their order, turns what was kept into what is kept after them.
#[tactic(auto, using(crate::proofs::Moving::moves_kept))]
pub fn moves_are_kept()
    ensures { MovesAreKept }
{}

/// Where nothing moved, what is known of the kept rows is true of what is kept after the items.
pub fn items_without_moves_are_kept()
    ensures { ItemsWithoutMovesAreKept }
{}

/// What an opening commits makes what is kept of what it takes over.
pub fn openings_are_kept()
    ensures { OpeningsAreKept }
{}

/// A floor may take over what rows hold, and its ids are those of activations then. No entity that is taken over is
/// there from the start.
pub fn kept_rows_may_be_resumed()
    ensures resumed { MayBeResumed }
    ensures ids { ResumedIdsAreKnown }
    ensures entities { HeldRowsAreNotBuiltin }
{}

/// No row of an activation nests deeper than it is read back, ended or not. For the record of a sequence or a conductor this holds where
/// its response doesn't nest deeper, and for the record of a fire where its parameters don't.
pub fn rows_of_activations_are_shallow()
    ensures opened { OpensAreShallow }
    ensures ended { EndsAreShallow }
    ensures abandoned { AbandonedAreShallow }
    ensures fired { FiresAreShallow }
{}

/// What is kept is allowed at the next opening, and read as the items that it was made of, where each item by itself is fit to be kept.
pub fn what_is_kept_is_allowed()
    ensures { KeptIsAllowed }
{}

/// What is committed of changes of the rows and of moves leaves the archive and the notes as they are, and their bytes are counted beside
/// those of the rest.
pub fn others_stay_kept()
    ensures kept { OthersStay }
    ensures bytes { BytesBesideOthers }
{}

/// What is committed of an archive turns what was kept into what is kept after it: the due records are no longer among the rows, and the
/// row of the archive counts them.
#[tactic(auto, using(crate::proofs::Retiring::archives_kept))]
pub fn archives_are_kept()
    ensures { ArchivesAreKept }
{}

/// What is committed of a note turns what was kept into what is kept with it, in place of a note with its key.
#[tactic(auto, using(crate::proofs::Noted::notes_kept))]
pub fn notes_are_kept()
    ensures { NotesAreKept }
{}
