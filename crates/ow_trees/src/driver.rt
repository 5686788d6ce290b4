// What follows an acceptance, a reply and a sweep: the steps that composites owe.
ghost use Rattle.std.specs.Prelude.{◌≡◌, ◌+◌, ◌++◌, drop, option_copied, IfOk, IsSome, OnErr, OnOk};
ghost use Rattle.ow_floor.specs.Calls.{accept_items, answered_items, busy_run, compose_items, has_items, moved, overrun_first, reply_recorded};
ghost use Rattle.ow_floor.specs.Laws.{Grows, Stands};
ghost use Rattle.ow_floor.specs.Trace.{Trace, shown};
ghost use Rattle.ow_floor.specs.View.{last_of};
ghost use Rattle.ow_trees.specs.Driving.{IsCallable, cause_of, items_of, last_next, made_items, next_by, next_moved};
ghost use Rattle.ow_trees.specs.Steps.{late_in, next_in, step, stepped, steps_after, sweep_items, swept_all, unless_leaf};
ghost use Rattle.ow_trees.specs.declared.bounds.TheConstants.{MOST_STEPS};

use crate::advances::{Advance, next_advance};
use crate::bounds::MOST_STEPS;
use ow_entity::Lookup;
use ow_floor::{Floor, Moved, Moves, Plan};
use ow_records::{Activation, Form, Id, Response};
use ow_traits::RunReply;
use ow_value::NoMemory;
use std::alloc::Global;

/// Accepts an activation, and makes the steps that follow. `at` is the moment, in milliseconds. What moved is noted. Without memory the
/// plan is dropped, and some of the steps may have been made.
pub fn accept<L: Lookup>(
    alloc: Global,
    rows: &L,
    floor: &mut Floor,
    at: u64,
    plan: Plan,
    moves: &mut Moves,
) -> Result<(), NoMemory>
    requires next { plan.id.count ≡ last_of floor.old.now.drawn plan.id.namespace + 1 }
    ensures ok { OnOk result (Grows floor.old.now floor.new.now (λ T. steps_after (L.found rows.now) at T (accept_items at plan))) }
    ensures moved { OnOk result ((T : Trace) → Stands floor.old.now T → moves.new ≡ moves.old ++ moved (steps_after (L.found rows.now) at T (accept_items at plan))) }
    ensures firing { OnOk result (floor.new.now.firing ≡ floor.old.now.firing) }
    ensures before { floor.new.before ≡ floor.old.before }
{
    let next = accept_one(alloc, floor, at, plan, moves)?;
    follow(alloc, rows, floor, at, next, moves)
}

/// Takes a runner's reply, as the floor does, and makes the steps that follow the end. Without memory some of the steps may have been made.
pub fn answered<L: Lookup>(
    alloc: Global,
    rows: &L,
    floor: &mut Floor,
    at: u64,
    run: u64,
    reply: &RunReply,
    moves: &mut Moves,
) -> Result<Option<Option<u64>>, NoMemory>
    ensures told { IfOk result (λ recorded. (T : Trace) → Stands floor.old.now T → recorded ≡ reply_recorded run T) }
    ensures moved { OnOk result ((T : Trace) → Stands floor.old.now T → moves.new ≡ moves.old ++ moved (steps_after (L.found rows.now) at T (answered_items at run reply.now T))) }
    ensures ok { OnOk result (Grows floor.old.now floor.new.now (λ T. steps_after (L.found rows.now) at T (answered_items at run reply.now T))) }
    ensures live { OnErr result ((T : Trace) → Stands floor.old.now T → IsSome (busy_run run (shown T))) }
    ensures before { floor.new.before ≡ floor.old.before }
{
    let before = moves.items().len();
    let Some(recorded) = floor.replied_into(alloc, at, run, reply, moves)? else {
        return Ok(None);
    };
    let next = last_next(moves, before);
    follow(alloc, rows, floor, at, next, moves)?;
    Ok(Some(recorded))
}

/// Ends each activation whose live run is late, by the runs' orders, with the steps that follow each of these ends. Returns how many were
/// late. Without memory some of this may have been done.
pub fn sweep<L: Lookup>(
    alloc: Global,
    rows: &L,
    floor: &mut Floor,
    at: u64,
    moves: &mut Moves,
) -> Result<u64, NoMemory>
    ensures late { IfOk result (λ late. (T : Trace) → Stands floor.old.now T → late ≡ late_in (sweep_items (L.found rows.now) at T)) }
    ensures moved { OnOk result ((T : Trace) → Stands floor.old.now T → moves.new ≡ moves.old ++ moved (sweep_items (L.found rows.now) at T)) }
    ensures ok { OnOk result (Grows floor.old.now floor.new.now (λ T. sweep_items (L.found rows.now) at T)) }
    ensures before { floor.new.before ≡ floor.old.before }
{
    let late = sweep_all(alloc, rows, floor, at, moves)?;
    floor.note_swept(at);
    Ok(late)
}

// The same, before it is noted that all that is late was swept.
fn sweep_all<L: Lookup>(
    alloc: Global,
    rows: &L,
    floor: &mut Floor,
    at: u64,
    moves: &mut Moves,
) -> Result<u64, NoMemory>
    ensures late { IfOk result (λ late. (T : Trace) → Stands floor.old.now T → late ≡ late_in (swept_all (L.found rows.now) at T)) }
    ensures moved { OnOk result ((T : Trace) → Stands floor.old.now T → moves.new ≡ moves.old ++ moved (swept_all (L.found rows.now) at T)) }
    ensures ok { OnOk result (Grows floor.old.now floor.new.now (λ T. swept_all (L.found rows.now) at T)) }
    ensures before { floor.new.before ≡ floor.old.before }
{
    let most = floor.busy();
    let mut late = 0;
    while late < most {
        if !sweep_one(alloc, rows, floor, at, moves)? {
            return Ok(late);
        }
        late += 1;
    }
    Ok(late)
}

// Ends what the first late run carries, with the steps that follow, and returns whether there was one.
fn sweep_one<L: Lookup>(
    alloc: Global,
    rows: &L,
    floor: &mut Floor,
    at: u64,
    moves: &mut Moves,
) -> Result<bool, NoMemory>
    ensures late { IfOk result (λ late. (T : Trace) → Stands floor.old.now T → late ≡ has_items (overrun_first at T)) }
    ensures moved { OnOk result ((T : Trace) → Stands floor.old.now T → moves.new ≡ moves.old ++ moved (steps_after (L.found rows.now) at T (overrun_first at T))) }
    ensures ok { OnOk result (Grows floor.old.now floor.new.now (λ T. steps_after (L.found rows.now) at T (overrun_first at T))) }
    ensures before { floor.new.before ≡ floor.old.before }
{
    let before = moves.items().len();
    let late = floor.overrun(alloc, at, moves)?;
    let next = last_next(moves, before);
    follow(alloc, rows, floor, at, next, moves)?;
    Ok(late)
}

// Makes the steps that follow, from that of this composite on.
fn follow<L: Lookup>(
    alloc: Global,
    rows: &L,
    floor: &mut Floor,
    at: u64,
    first: Option<Id>,
    moves: &mut Moves,
) -> Result<(), NoMemory>
    ensures ok { OnOk result (Grows floor.old.now floor.new.now (λ T. stepped MOST_STEPS (L.found rows.now) at T first)) }
    ensures moved { OnOk result ((T : Trace) → Stands floor.old.now T → moves.new ≡ moves.old ++ moved (stepped MOST_STEPS (L.found rows.now) at T first)) }
    ensures firing { OnOk result (floor.new.now.firing ≡ floor.old.now.firing) }
    ensures before { floor.new.before ≡ floor.old.before }
{
    let mut left = MOST_STEPS;
    let mut next = first;
    while left > 0 {
        let Some(id) = next else {
            return Ok(());
        };
        next = make_step(alloc, rows, floor, at, id, moves)?;
        left -= 1;
    }
    Ok(())
}

// Makes the step that the composite of this id owes, if it owes one, and returns which composite may owe one now.
fn make_step<L: Lookup>(
    alloc: Global,
    rows: &L,
    floor: &mut Floor,
    at: u64,
    id: Id,
    moves: &mut Moves,
) -> Result<Option<Id>, NoMemory>
    ensures next { IfOk result (λ next. (T : Trace) → Stands floor.old.now T → next ≡ next_by (step (L.found rows.now) at T id)) }
    ensures ok { OnOk result (Grows floor.old.now floor.new.now (λ T. items_of (step (L.found rows.now) at T id))) }
    ensures moved { OnOk result ((T : Trace) → Stands floor.old.now T → moves.new ≡ moves.old ++ moved (items_of (step (L.found rows.now) at T id))) }
    ensures firing { OnOk result (floor.new.now.firing ≡ floor.old.now.firing) }
    ensures before { floor.new.before ≡ floor.old.before }
{
    match next_advance(alloc, rows, floor, id)? {
        Some(advance) => make(alloc, floor, at, id, advance, moves),
        None => Ok(None),
    }
}

// The composite does what is next.
fn make(
    alloc: Global,
    floor: &mut Floor,
    at: u64,
    id: Id,
    advance: Advance,
    moves: &mut Moves,
) -> Result<Option<Id>, NoMemory>
    requires next { IsCallable advance floor.old.now.drawn }
    ensures next { IfOk result (λ next. (T : Trace) → Stands floor.old.now T → next ≡ next_in (made_items at id advance T)) }
    ensures ok { OnOk result (Grows floor.old.now floor.new.now (λ T. made_items at id advance T)) }
    ensures moved { OnOk result ((T : Trace) → Stands floor.old.now T → moves.new ≡ moves.old ++ moved (made_items at id advance T)) }
    ensures firing { OnOk result (floor.new.now.firing ≡ floor.old.now.firing) }
    ensures before { floor.new.before ≡ floor.old.before }
{
    match advance {
        Advance::Call { plan } => accept_one(alloc, floor, at, plan, moves),
        Advance::End { response } => end(alloc, floor, at, id, response, moves),
    }
}

// Accepts one activation, and returns which composite may owe a step now.
fn accept_one(
    alloc: Global,
    floor: &mut Floor,
    at: u64,
    plan: Plan,
    moves: &mut Moves,
) -> Result<Option<Id>, NoMemory>
    requires next { plan.id.count ≡ last_of floor.old.now.drawn plan.id.namespace + 1 }
    ensures next { IfOk result (λ next. (T : Trace) → Stands floor.old.now T → next ≡ next_in (accept_items at plan)) }
    ensures ok { OnOk result (Grows floor.old.now floor.new.now (λ T. accept_items at plan)) }
    ensures moved { OnOk result ((T : Trace) → Stands floor.old.now T → moves.new ≡ moves.old ++ moved (accept_items at plan)) }
    ensures firing { OnOk result (floor.new.now.firing ≡ floor.old.now.firing) }
    ensures before { floor.new.before ≡ floor.old.before }
{
    let next = unless_leaf(plan.form, plan.id);
    floor.accept_into(alloc, at, plan, moves)?;
    Ok(next)
}

// Ends the composite of this id, and returns which composite may owe a step now.
fn end(
    alloc: Global,
    floor: &mut Floor,
    at: u64,
    id: Id,
    response: Response,
    moves: &mut Moves,
) -> Result<Option<Id>, NoMemory>
    ensures next { IfOk result (λ next. (T : Trace) → Stands floor.old.now T → next ≡ next_in (compose_items at id response T)) }
    ensures ok { OnOk result (Grows floor.old.now floor.new.now (λ T. compose_items at id response T)) }
    ensures moved { OnOk result ((T : Trace) → Stands floor.old.now T → moves.new ≡ moves.old ++ moved (compose_items at id response T)) }
    ensures firing { OnOk result (floor.new.now.firing ≡ floor.old.now.firing) }
    ensures before { floor.new.before ≡ floor.old.before }
{
    let cause = cause_of(floor.activation(&id));
    floor.compose(alloc, at, id, response, moves)?;
    Ok(cause)
}

fn cause_of(task: Option<&Activation>) -> Option<Id>
    ensures { result ≡ cause_of (option_copied task.entry) }
{
    match task {
        Some(task) => task.cause,
        None => None,
    }
}

// The id, unless an activation of this form is a leaf.
fn unless_leaf(form: Form, id: Id) -> Option<Id>
    ensures { result ≡ unless_leaf form id }
{
    if form.is_composite() { Some(id) } else { None }
}

// Which composite may owe a step, by the last move from this place on that names one.
fn last_next(moves: &Moves, start: usize) -> Option<Id>
    ensures { result ≡ last_next (drop start moves.now) }
{
    let mut next = None;
    for i in start..moves.items().len() {
        next = next_moved(&moves.items()[i]).or(next);
    }
    next
}

// Which composite may owe a step after a move.
fn next_moved(moved: &Moved) -> Option<Id>
    ensures { result ≡ next_moved moved.now }
{
    match moved {
        Moved::Accepted(task) => unless_leaf(task.get().form, task.get().id),
        Moved::Ended(record) => record.get().cause,
        Moved::Drawn(_) | Moved::Fired(_) => None,
    }
}
