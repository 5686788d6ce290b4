// Ends of activations.
ghost use Rattle.std.specs.Prelude.{◌≡◌, ◌<◌, ◌++◌, ◌∷◌, [], length, None, Some, slice_index_or, ◌↔◌, option_copied, IfOk, IsTrue, OnOk};
ghost use Rattle.ow_slots.specs.Slots.{IsThere, first_with};
ghost use Rattle.ow_slots.specs.State.{IsUnrecorded, runs};
ghost use Rattle.ow_floor.specs.Trace.{began, started};
ghost use Rattle.ow_floor.specs.Calls.{composed_items, is_late};
ghost use Rattle.ow_floor.specs.Frames.{children_of};
ghost use Rattle.ow_floor.specs.Ends.{IsAbandonedAt, IsEndedAt, IsEndedRun, IsFirstLate, IsFirstSwept, IsFreed, IsLateCell, IsLateEnd, IsLateSpot, IsMade, IsOverrunAt, IsSweptOne, AreAbandoned, sweeps};
ghost use Rattle.ow_floor.specs.Store.{IsGood, show};

use crate::activations::part_of;
use crate::by_id::places_by_id;
use crate::lists::{Berth, Lists};
use crate::{Moves, Run};
use ow_records::{Activation, Ending, Frame, Id, ReadyRecord, Response, record_of};
use ow_traits::RunReply;
use ow_value::{Items, NoMemory, PlainData, Scratch, Shared};
use std::alloc::Global;

/// Ends the activation at this place.
pub(crate) fn end_at(
    alloc: Global,
    lists: &mut Lists,
    scratch: &mut Scratch,
    at: u64,
    place: usize,
    ending: &Ending,
    run: Option<Run>,
    moves: &mut Moves,
) -> Result<(), NoMemory>
    requires place { place < length lists.old.now.tasks }
    requires lists_fit { IsGood lists.old.now }
    ensures lists_fit { IsGood lists.new.now }
    ensures made { OnOk result (IsEndedAt at ending.now run place lists.old.now lists.new.now moves.old moves.new) }
    ensures held { lists.new.past ≡ lists.old.past }
{
    let Some(task) = &lists.tasks()[place] else {
        return Err(NoMemory);
    };
    let task = task.get();
    let part = part_of(task);
    let record = record_of(alloc, scratch, task, ending, started(run), began(run), at)?;
    let ready = ReadyRecord::new(alloc, record)?;
    lists.frame_ended(alloc, part, &ready.record().response)?;
    lists.end(at, place, ready)?;
    moves.note_ended(alloc, lists.records())
}

fn is_late(at: u64, run: Run, task: &Activation) -> bool
    ensures { result ≡ is_late at run task.now }
{
    at.saturating_sub(run.at) > u64::from(task.action.get().limits.timeout.get())
}

// The place of what the run carries, where it is late and no sweep recorded it.
fn late_place(lists: &Lists, at: u64, run: Run) -> Option<usize>
    requires { IsGood lists.now.now }
    ensures { IsLateEnd at run lists.now.now result }
{
    if is_unrecorded(lists, run.number) {
        return late_spot(lists, at, run);
    }
    None
}

// Whether a slot is busy with the run, and no sweep recorded what it carries.
fn is_unrecorded(lists: &Lists, run: u64) -> bool
    ensures { IsTrue result ↔ IsThere IsUnrecorded (first_with (runs run) lists.now.now.slots) }
{
    lists.slots().is_unrecorded(run)
}

// The place of what the run carries, where it is late. No sweep recorded it.
fn late_spot(lists: &Lists, at: u64, run: Run) -> Option<usize>
    requires lists_fit { IsGood lists.now.now }
    requires unrecorded { IsThere IsUnrecorded (first_with (runs run.number) lists.now.now.slots) }
    ensures { IsLateEnd at run lists.now.now result }
{
    let place = lists.open_place(run.id)?;
    let Some(task) = &lists.tasks()[place] else {
        return None;
    };
    if is_late(at, run, task.get()) {
        return Some(place);
    }
    None
}

// The moment of a run's order, where there is a run.
fn started(run: Option<Run>) -> Option<u64>
    ensures { result ≡ started run }
{
    match run {
        Some(run) => Some(run.at),
        None => None,
    }
}

// The moment at which a run began, where there is a run and it did.
fn began(run: Option<Run>) -> Option<u64>
    ensures { result ≡ began run }
{
    match run {
        Some(run) => run.begun,
        None => None,
    }
}

/// What the run carries ends by a reply, unless it has ended before.
pub(crate) fn end_run(
    alloc: Global,
    lists: &mut Lists,
    scratch: &mut Scratch,
    at: u64,
    run: Run,
    reply: &RunReply,
    moves: &mut Moves,
) -> Result<(), NoMemory>
    requires { IsGood lists.old.now }
    ensures lists_fit { IsGood lists.new.now }
    ensures made { OnOk result (IsEndedRun at run reply.now lists.old.now lists.new.now moves.old moves.new) }
    ensures held { lists.new.past ≡ lists.old.past }
{
    let Some(place) = lists.open_place(run.id) else {
        return Ok(());
    };
    let ending = Ending::Replied(reply.copy(alloc)?);
    end_at(alloc, lists, scratch, at, place, &ending, Some(run), moves)
}

// The activation at this place has overrun, and is recorded so in the slot of its run.
fn end_overrun(
    alloc: Global,
    lists: &mut Lists,
    scratch: &mut Scratch,
    at: u64,
    place: usize,
    run: Run,
    moves: &mut Moves,
) -> Result<(), NoMemory>
    requires lists_fit { IsGood lists.old.now }
    requires late { IsLateSpot at run lists.old.now place }
    ensures lists_fit { IsGood lists.new.now }
    ensures made { OnOk result (IsOverrunAt at run place lists.old.now lists.new.now moves.old moves.new) }
    ensures held { lists.new.past ≡ lists.old.past }
{
    end_at(
        alloc,
        lists,
        scratch,
        at,
        place,
        &Ending::Overran,
        Some(run),
        moves,
    )?;
    lists.overrun(alloc, at, run.number)?;
    Ok(())
}

// What the run at this place carries ends, where it is late.
fn end_late(
    alloc: Global,
    lists: &mut Lists,
    scratch: &mut Scratch,
    at: u64,
    place: usize,
    moves: &mut Moves,
) -> Result<(), NoMemory>
    requires lists_fit { IsGood lists.old.now }
    requires within { place < length lists.old.now.runs }
    ensures lists_fit { IsGood lists.new.now }
    ensures made { OnOk result (IsSweptOne at (slice_index_or lists.old.now.runs place None) lists.old.now lists.new.now moves.old moves.new) }
    ensures held { lists.new.past ≡ lists.old.past }
{
    let Some(berth) = lists.runs()[place] else {
        return Ok(());
    };
    if let Some(spot) = late_place(lists, at, berth.run) {
        return end_overrun(alloc, lists, scratch, at, spot, berth.run, moves);
    }
    Ok(())
}

/// Ends what late runs carry, one after another.
pub(crate) fn sweep(
    alloc: Global,
    lists: &mut Lists,
    scratch: &mut Scratch,
    at: u64,
    moves: &mut Moves,
) -> Result<(), NoMemory>
    requires { IsGood lists.old.now }
    ensures lists_fit { IsGood lists.new.now }
    ensures made { OnOk result (IsMade (sweeps at lists.old.now) lists.old.now lists.new.now moves.old moves.new) }
    ensures held { lists.new.past ≡ lists.old.past }
{
    let count = lists.runs().len();
    for i in 0..count {
        end_late(alloc, lists, scratch, at, i, moves)?;
    }
    Ok(())
}

/// Ends what the first late run carries, and returns whether there was one.
pub(crate) fn end_first_late(
    alloc: Global,
    lists: &mut Lists,
    scratch: &mut Scratch,
    at: u64,
    moves: &mut Moves,
) -> Result<bool, NoMemory>
    requires { IsGood lists.old.now }
    ensures lists_fit { IsGood lists.new.now }
    ensures made { IfOk result (λ late. IsFirstSwept at late lists.old.now lists.new.now moves.old moves.new) }
    ensures held { lists.new.past ≡ lists.old.past }
{
    let Some((place, run)) = first_late(lists, at) else {
        return Ok(false);
    };
    end_overrun(alloc, lists, scratch, at, place, run, moves)?;
    Ok(true)
}

// The first late run, and the place of what it carries.
fn first_late(lists: &Lists, at: u64) -> Option<(usize, Run)>
    requires { IsGood lists.now.now }
    ensures { IsFirstLate at lists.now.now result }
{
    for i in 0..lists.runs().len() {
        if let Some(found) = late_at(lists, at, lists.runs()[i]) {
            return Some(found);
        }
    }
    None
}

// The run and the place of what it carries, where there is a run and it is late.
fn late_at(lists: &Lists, at: u64, cell: Option<Berth>) -> Option<(usize, Run)>
    requires { IsGood lists.now.now }
    ensures { IsLateCell at cell lists.now.now result }
{
    let berth = cell?;
    let place = late_place(lists, at, berth.run)?;
    Some((place, berth.run))
}

/// Ends the composite of this id with this response, where it is open.
pub(crate) fn end_composite(
    alloc: Global,
    lists: &mut Lists,
    scratch: &mut Scratch,
    at: u64,
    id: Id,
    response: Response,
    moves: &mut Moves,
) -> Result<(), NoMemory>
    requires { IsGood lists.old.now }
    ensures lists_fit { IsGood lists.new.now }
    ensures made { OnOk result (IsMade (composed_items at id response (show lists.old.now)) lists.old.now lists.new.now moves.old moves.new) }
    ensures held { lists.new.past ≡ lists.old.past }
{
    let Some(place) = lists.open_place(id) else {
        drop(response);
        return Ok(());
    };
    let ending = composed(alloc, response, lists.frame(id))?;
    end_at(alloc, lists, scratch, at, place, &ending, None, moves)
}

// The end of a composite that has this frame.
fn composed(alloc: Global, response: Response, frame: Option<&Frame>) -> Result<Ending, NoMemory>
    ensures { IfOk result (λ e. e ≡ Ending.Composed response (children_of (option_copied frame.entry))) }
{
    match children_of(alloc, frame) {
        Ok(children) => Ok(Ending::Composed { response, children }),
        Err(NoMemory) => {
            drop(response);
            Err(NoMemory)
        }
    }
}

fn children_of(alloc: Global, frame: Option<&Frame>) -> Result<Items<Id>, NoMemory>
    ensures { IfOk result (λ ids. ids ≡ children_of (option_copied frame.entry)) }
{
    match frame {
        Some(frame) => frame.children.copy(alloc),
        None => Ok(Items::new()),
    }
}

// The activation at this place ends as abandoned.
fn abandon_at(
    alloc: Global,
    lists: &mut Lists,
    scratch: &mut Scratch,
    at: u64,
    place: usize,
    moves: &mut Moves,
) -> Result<(), NoMemory>
    requires lists_fit { IsGood lists.old.now }
    requires within { place < length lists.old.now.tasks }
    ensures lists_fit { IsGood lists.new.now }
    ensures made { OnOk result (IsAbandonedAt at place lists.old.now lists.new.now moves.old moves.new) }
    ensures held { lists.new.past ≡ lists.old.past }
{
    end_at(
        alloc,
        lists,
        scratch,
        at,
        place,
        &Ending::Abandoned,
        None,
        moves,
    )
}

/// What a lost run carries waits again, where it is open. Nothing is held.
pub(crate) fn free_run(lists: &mut Lists, run: Run)
    requires lists_fit { IsGood lists.old.now }
    requires free { lists.old.past ≡ None }
    ensures made { IsFreed run lists.old.now lists.new.now }
    ensures held { lists.new.past ≡ lists.old.past }
{
    if let Some(place) = lists.open_place(run.id) {
        let _ = lists.free(place);
    }
}

/// Ends all that is open as abandoned, by its ids.
pub(crate) fn abandon(
    alloc: Global,
    lists: &mut Lists,
    scratch: &mut Scratch,
    at: u64,
    moves: &mut Moves,
) -> Result<(), NoMemory>
    requires { IsGood lists.old.now }
    ensures lists_fit { IsGood lists.new.now }
    ensures made { OnOk result (AreAbandoned at lists.old.now lists.new.now moves.old moves.new) }
    ensures held { lists.new.past ≡ lists.old.past }
{
    let places = places_by_id(alloc, lists.tasks())?;
    for i in 0..places.len() {
        abandon_at(alloc, lists, scratch, at, places[i].place, moves)?;
    }
    Ok(())
}
