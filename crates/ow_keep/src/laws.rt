// Laws of kept rows that are read, for the crates above.
ghost use Rattle.ow_keep.specs.Laws.{ItemsReadBack, JudgedMomentsAreSmall, MomentOfSplit, MomentsAreSmall, NoBuiltinIsHeld, SplitIsKept};

/// What is written of an item that is allowed among the rows is read as that item.
#[tactic(auto, using(crate::proofs::Whole::item_at_row))]
pub fn items_read_back()
    ensures { ItemsReadBack }
{}

/// The items of rows, each kind by itself, are entries whose rows they are.
#[tactic(auto, using(crate::proofs::Splits::split_kept))]
pub fn split_is_kept()
    ensures { SplitIsKept }
{}

/// The greatest moment of items is the same where each kind is taken by itself.
#[tactic(auto, using(crate::proofs::Splits::moment_of_split))]
pub fn moment_of_split()
    ensures { MomentOfSplit }
{}

/// No moment of items that are allowed among the rows is after the greatest.
pub fn moments_are_small()
    ensures kept { MomentsAreSmall }
    ensures judged { JudgedMomentsAreSmall }
{}

/// No row of an entity that rows hold is there from the start.
pub fn no_builtin_is_held()
    ensures { NoBuiltinIsHeld }
{}
