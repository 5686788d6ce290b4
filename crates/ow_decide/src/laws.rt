// What is true of what is decided. The functions do nothing: their contracts are the laws.
ghost use Rattle.std.specs.Prelude.{◌≡◌, ◌++◌, [], false};
ghost use Rattle.ow_floor.specs.Calls.{moved};
ghost use Rattle.ow_floor.specs.Growth.{AreRight};
ghost use Rattle.ow_floor.specs.Laws.{IsSound};
ghost use Rattle.ow_floor.specs.Trace.{shown};
ghost use Rattle.ow_commits.specs.Kept.{kept_whole};
ghost use Rattle.ow_commits.specs.Keeping.{AreIds, AreOwn};
ghost use Rattle.ow_tables.specs.Rows.{standing};
ghost use Rattle.ow_traits.specs.Changes.{changed};
ghost use Rattle.ow_trees.specs.Owed.{AreOwed};
ghost use Rattle.ow_tenant.specs.Tenants.{limits_of};
ghost use Rattle.ow_counts.specs.View.{AreNotedAt, AreUpTo};
ghost use Rattle.ow_counts.specs.Within.{AreWithin};
ghost use Rattle.ow_decide.specs.Asking.{IsOfView, ReadsChangeNothing};
ghost use Rattle.ow_decide.specs.Chain.{AreSteps};
ghost use Rattle.ow_decide.specs.Decision.{all_changed, commits, held, others_after};
ghost use Rattle.ow_decide.specs.Decisions.{decide, is_opening, wants_memory};
ghost use Rattle.ow_decide.specs.Sight.{Sight};
ghost use Rattle.ow_decide.specs.declared.events.Event.{Event};

/// A read for which the book has room is answered by what the caller may see, and by nothing else.
pub fn reads_are_answered_of_the_view()
    ensures { (S : Sight) → IsOfView S }
{}

/// A read changes nothing that anybody may see: the rows and what happened stay as they were.
pub fn reads_change_nothing()
    ensures { ReadsChangeNothing }
{}

/// What is decided at any event except an opening is a chain of items: each is of the moment, and may be decided and happen after those
/// before it.
pub fn decisions_are_chains()
    ensures { (S : Sight) (event : Event) → is_opening event ≡ false → AreSteps S (decide S event).items }
{}

/// A sound trace stays sound with the items that are decided at an event.
pub fn decisions_keep_traces_sound()
    ensures { (S : Sight) (event : Event) → IsSound S.trace → IsSound ((decide S event).items ++ S.trace) }
{}

/// The items that are decided at any event except an opening may happen. They accept and fire at the moment. All of them but an archive
/// take over nothing of an earlier run. At an event that takes no memory nothing moves. Nothing is accepted or fired after the moment.
pub fn decisions_are_right_items()
    ensures right { (S : Sight) (event : Event) → is_opening event ≡ false → IsSound S.trace → AreRight (decide S event).items (shown S.trace) }
    ensures noted { (S : Sight) (event : Event) → is_opening event ≡ false → AreNotedAt S.moment (decide S event).items }
    ensures own { (S : Sight) (event : Event) → is_opening event ≡ false → AreOwn (held (decide S event)) }
    ensures quiet { (S : Sight) (event : Event) → wants_memory event ≡ false → moved (decide S event).items ≡ [] }
    ensures up_to { (S : Sight) (event : Event) → AreUpTo S.moment S.trace → AreUpTo S.moment ((decide S event).items ++ S.trace) }
{}

/// Each child that is accepted at an event is the step that its cause owes there, and each end of a composite the one that the composite
/// owes.
pub fn decisions_take_owed_steps()
    ensures { (S : Sight) (event : Event) → AreOwed (standing S.rows) S.moment (decide S event).items S.trace }
{}

/// What is decided at an event keeps the limits of the office table: what is accepted had room.
pub fn decisions_keep_limits()
    ensures { (S : Sight) (event : Event) → AreWithin (λ n. limits_of n S.tenants) S.trace → AreWithin (λ n. limits_of n S.tenants) ((decide S event).items ++ S.trace) }
{}

/// The commit of a decision turns all that was kept into all that is kept after it. An opening commits otherwise.
pub fn decisions_commit_what_is_kept()
    ensures { (S : Sight) (event : Event) → is_opening event ≡ false → IsSound S.trace → AreIds S.trace → AreIds ((decide S event).items ++ S.trace)
        → changed (commits (decide S event)) (kept_whole S.others S.rows S.trace)
        ≡ kept_whole (others_after (decide S event).others S.others) (all_changed (decide S event).changes S.rows) ((decide S event).items ++ S.trace) }
{}
