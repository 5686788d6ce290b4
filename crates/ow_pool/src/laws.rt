// What holds of the pool whatever happens.
ghost use Rattle.std.specs.Prelude.{List};
ghost use Rattle.ow_slots.specs.declared.states.Slot.{Slot};
ghost use Rattle.ow_pool.specs.Candidates.{AreCandidates, candidates_from};
ghost use Rattle.ow_pool.specs.Keeping.{EventsKeep};

/// No event raises the memory held: only the orders of `place` do, and these stay within the pool.
pub fn events_keep_the_pool()
    ensures { EventsKeep }
{}

/// The candidates for a removal are the slots that are idle or prewarmed, each once, in the order of removal.
pub fn candidates_are_in_order()
    ensures { (slots : List Slot) → AreCandidates slots (candidates_from 0 slots) }
{}
