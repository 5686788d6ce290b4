// What is true of each floor, and of each trace that its calls make. The functions do nothing: their
// contracts are the laws.
ghost use Rattle.std.specs.Prelude.{◌≡◌, ◌≤◌, ◌+◌, ◌++◌, ◌∷◌, ℕ, Some, true};
ghost use Rattle.ow_traits.specs.declared.replies.RunReply.{RunReply};
ghost use Rattle.ow_floor.specs.declared.answers.Answered.TheVariants.{Late};
ghost use Rattle.ow_floor.specs.Trace.{Begun, Gone, Lost, Trace, life, live_run, pool_of, shown, slots};
ghost use Rattle.ow_floor.specs.Growth.{AreRight};
ghost use Rattle.ow_floor.specs.Laws.{AreShownOrArchived, EndedWereAccepted, IsParted, IsSound, RunOnce, Shows, StandInSlots, Stands};
ghost use Rattle.ow_floor.specs.Owed.{owed, rises};
ghost use Rattle.ow_slots.specs.Slots.{memory_held};
ghost use Rattle.ow_slot_laws.specs.Life.{overran_at};
ghost use Rattle.ow_floor.specs.Calls.{AllRecorded, KeepSound, RaisesLittle, answer_to, begins, drain_answer, goes, loses};

use crate::{Floor, Run};

impl Floor {
    /// A floor shows three lists of ids: the waiting, the running and the recorded ones. Each accepted id is in exactly one of them, once,
    /// and nothing else is in them.
    pub fn parts_accepted(&self)
        ensures lists { (T : Trace) → Stands self.now.now T → Shows self.now.now T }
        ensures parts { (T : Trace) → Stands self.now.now T → IsParted T }
    {}
}

/// In a sound trace each accepted id waits, runs or is recorded, once.
pub fn sound_traces_are_parted()
    ensures { (T : Trace) → IsSound T → IsParted T }
{}

/// In a sound trace no activation has two live runs, and no two live runs have one number.
pub fn activations_run_once()
    ensures { (T : Trace) → IsSound T → RunOnce T }
{}

/// In a sound trace what has ended was accepted, as it was planned.
pub fn ended_were_accepted()
    ensures { (T : Trace) → IsSound T → EndedWereAccepted T }
{}

/// In a sound trace no id has two records. Each record is shown or archived, and those that are shown are the ones that weren't archived.
pub fn records_are_shown_or_archived()
    ensures { (T : Trace) → IsSound T → AreShownOrArchived T }
{}

/// Where a drain answers that all have ended, each accepted id is recorded, once. The number that it answers is how many were accepted
/// since the last opening.
pub fn when_drained_all_are_recorded()
    ensures { (T : Trace) → IsSound T → AllRecorded T (drain_answer T) }
{}

/// A run is live exactly where a slot is busy with it, and no two slots are busy with one run.
pub fn live_runs_stand_in_slots()
    ensures { (T : Trace) → IsSound T → StandInSlots T }
{}

/// The slots hold no more than the pool.
pub fn slots_are_within_the_pool()
    ensures { (T : Trace) → IsSound T → memory_held (slots T) ≤ pool_of T }
{}

/// A reply of a live run that a sweep recorded is late, with the moment of that sweep.
pub fn replies_after_a_sweep_are_late()
    ensures { (at run : ℕ) (reply : RunReply) (T : Trace) (r : Run) (sweep : ℕ) → IsSound T → live_run T run ≡ Some r → overran_at run (life T) ≡ Some sweep
        → answer_to at run reply T ≡ Some (Late run sweep) }
{}

/// What is owed is raised by orders alone, by three at most, and each beginning, loss and going was owed.
pub fn entries_are_owed()
    ensures items { (items T : Trace) → AreRight items (shown T) → IsSound T → owed (items ++ T) ≤ owed T + rises items }
    ensures begun { (run at : ℕ) (T : Trace) → IsSound T → begins run T ≡ true → owed (Begun run at ∷ T) + 1 ≤ owed T }
    ensures lost { (run at : ℕ) (T : Trace) → IsSound T → loses run T ≡ true → owed (Lost run at ∷ T) + 1 ≤ owed T }
    ensures gone { (slot generation at : ℕ) (T : Trace) → IsSound T → goes slot generation T ≡ true → owed (Gone slot generation at ∷ T) + 1 ≤ owed T }
    ensures calls { RaisesLittle }
{}

/// Items that may come on a floor with the state of a sound trace keep that trace sound.
pub fn right_items_keep_traces_sound()
    ensures { (items T : Trace) → AreRight items (shown T) → IsSound T → IsSound (items ++ T) }
{}

/// The trace of no call is sound, and each call of a floor keeps it sound.
pub fn calls_keep_traces_sound()
    ensures { KeepSound }
{}
