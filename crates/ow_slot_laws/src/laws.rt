// What holds of slots by their last orders.
ghost use Rattle.std.specs.Prelude.{◌≡◌, ◌≤◌, ◌+◌, ◌∷◌, ℕ, List, [], replicate};
ghost use Rattle.ow_traits.specs.declared.prewarms.Prewarm.{Prewarm};
ghost use Rattle.ow_slots.specs.Slots.{vacant_slot};
ghost use Rattle.ow_slots.specs.declared.states.Slot.{Slot};
ghost use Rattle.ow_traits.specs.Prewarms.{AreWantsSized};
ghost use Rattle.ow_pool.specs.Rules.{IsWithinPool};
ghost use Rattle.ow_slot_laws.specs.Life.{Event, Life, slots_of};
ghost use Rattle.ow_slot_laws.specs.Fitting.{AreFit, ArePlaced, AreWithinPool, IsFit, IsPlaced, changed};
ghost use Rattle.ow_slot_laws.specs.Laws.{RunsStand, SlotsStand};
ghost use Rattle.ow_slot_laws.specs.Owed.{fall_of, owed, rise_of};

/// Before anything has happened every slot is vacant, and had no container.
pub fn slots_begin_vacant()
    ensures { (n : ℕ) → slots_of [] n ≡ replicate n vacant_slot }
{}

/// An event that fits makes of the slots before it what the table of states says.
pub fn events_change_slots()
    ensures { (event : Event) (L : Life) (n : ℕ) → AreFit (event ∷ L) n → slots_of (event ∷ L) n ≡ changed event (slots_of L n) }
{}

/// There are `n` slots, each of the state that its last order gives. Each holds the memory of its last container or none, and together they
/// hold the sum.
pub fn slots_stand()
    ensures { (L : Life) (n : ℕ) → AreFit L n → SlotsStand L n }
{}

/// A run is in one slot, from its order until it is answered or lost. That slot has recorded when the run was recorded as overrun.
pub fn runs_stand_alone()
    ensures { (L : Life) (n : ℕ) → AreFit L n → RunsStand L n }
{}

/// Where each order is what the rules place, the slots are within the pool after every event.
pub fn a_pool_is_kept()
    ensures life { (L : Life) (n : ℕ) (wants : List Prewarm) (pool : ℕ)
        → AreWantsSized wants → AreFit L n → ArePlaced L n wants pool → AreWithinPool L n pool }
    ensures event { (event : Event) (slots : List Slot) (wants : List Prewarm) (pool : ℕ)
        → AreWantsSized wants → IsPlaced event slots wants pool → IsWithinPool slots pool → IsWithinPool (changed event slots) pool }
{}

/// An order raises what is owed by three at most, and no other event raises it. An event that fits was owed, and is owed no more.
pub fn events_were_owed()
    ensures rise { (event : Event) (slots : List Slot) → owed (changed event slots) ≤ owed slots + rise_of event }
    ensures fall { (event : Event) (slots : List Slot) (count : ℕ)
        → IsFit event slots count → owed (changed event slots) + fall_of event ≤ owed slots + rise_of event }
{}
