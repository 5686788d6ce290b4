// What is true of the counts. The functions do nothing: their contracts are the laws.
ghost use Rattle.std.specs.Prelude.{◌≡◌, ◌≤◌, ◌<◌, ◌++◌, ℕ, List, Ok, count_by};
ghost use Rattle.ow_floor.specs.Trace.{Trace};
ghost use Rattle.ow_floor.specs.Laws.{IsSound};
ghost use Rattle.ow_tenant.specs.Notes as notes;
ghost use Rattle.ow_records.specs.declared.activations.Activation.{Activation};
ghost use Rattle.ow_counts.specs.Counts.{admitted, concurrent, fire_admitted, fires, minute};
ghost use Rattle.ow_records.specs.declared.record.Record.{Record};
ghost use Rattle.ow_floor.specs.Calls.{moved};
ghost use Rattle.ow_floor.specs.Growth.{AreRight};
ghost use Rattle.ow_floor.specs.Trace.{shown};
ghost use Rattle.ow_counts.specs.View.{AreNotedAt, AreUpTo, MayAllMove, noted_moves, notes_of};
ghost use Rattle.ow_counts.specs.Within.{HadRoom, LimitsByName};

/// What is noted of a sound trace counts what the trace counts, and of each namespace no more have ended than were accepted.
pub fn notes_count_what_happened()
    ensures minute { (T : Trace) (namespace : List ℕ) (now : ℕ) → notes.minute (notes_of T) namespace now ≡ minute T namespace now }
    ensures fires { (T : Trace) (namespace : List ℕ) (now : ℕ) → notes.fires (notes_of T) namespace now ≡ fires T namespace now }
    ensures concurrent { (T : Trace) (namespace : List ℕ) → IsSound T → notes.concurrent (notes_of T) namespace ≡ concurrent T namespace }
    ensures ended { (T : Trace) (namespace : List ℕ) → IsSound T → count_by (notes.is_ended namespace) (notes_of T) ≤ count_by (notes.is_invoked namespace) (notes_of T) }
{}

/// What is admitted had room: its namespace and the service had not reached their limits.
pub fn what_is_admitted_had_room()
    ensures { (limits : LimitsByName) (a : Activation) (T : Trace) → admitted T a.namespace (limits a.namespace) a.at ≡ Ok tt → HadRoom limits a T }
{}

/// A fire that is admitted had room: its namespace had not reached its limit of fires.
pub fn admitted_fires_had_room()
    ensures { (limits : LimitsByName) (r : Record) (T : Trace) → fire_admitted T r.namespace (limits r.namespace) r.span.start ≡ Ok tt → fires T r.namespace r.span.start < (limits r.namespace).fires }
{}

/// What is noted of moves is noted of their items, and each of these moves may be noted after those before it.
pub fn moves_are_noted()
    ensures notes { (items T : Trace) → notes_of (items ++ T) ≡ noted_moves (moved items) (notes_of T) }
    ensures may { (now : ℕ) (items T : Trace) → IsSound T → AreRight items (shown T) → AreUpTo now T → AreNotedAt now items → MayAllMove (moved items) (notes_of T) }
    ensures up_to { (now : ℕ) (items T : Trace) → AreUpTo now T → AreNotedAt now items → AreUpTo now (items ++ T) }
{}
