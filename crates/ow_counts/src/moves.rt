// What moved on a floor, as the counts see it.
ghost use Rattle.std.specs.Prelude.{◌≡◌, ◌≤◌, ◌<◌, ◌+◌, ◌^◌, ℕ, List, OnOk, count_by};
ghost use Rattle.std.specs.List.{AllByRecursion};
ghost use Rattle.std.specs.Str.{bytes_eq};
ghost use Rattle.ow_tenant.specs.Notes.{Notes, counts_at};
ghost use Rattle.ow_counts.specs.View.{HasRoomForMoves, HasRoomOf, IsRoomy, MayAllMove, MayMove, StandsFor, comes, comes_at, comes_in, leaves, leaves_in, noted_moved, noted_moves};

use crate::counts::Counts;
use ow_floor::Moved;
use ow_names::EntityName;
use ow_records::{Activation, Record};
use ow_value::NoMemory;
use std::alloc::Global;

/// How long an invocation counts, in milliseconds.
const MINUTE: u64 = 60_000;

// ---- how many

/// How many invocations came.
pub(crate) fn comes(moves: &[Moved]) -> u64
    ensures { result ≡ count_by comes moves.now }
{
    moves.iter().filter(|moved| is_coming(moved)).count() as u64
}

/// How many came of the namespace.
pub(crate) fn comes_in(moves: &[Moved], namespace: &EntityName) -> u64
    ensures { result ≡ count_by (comes_in namespace.now) moves.now }
{
    moves
        .iter()
        .filter(|moved| is_coming_in(moved, namespace))
        .count() as u64
}

/// How many of these count in the minute at `now`, in milliseconds.
pub(crate) fn comes_at(moves: &[Moved], namespace: &EntityName, now: u64) -> u64
    ensures { result ≡ count_by (comes_at namespace.now now) moves.now }
{
    moves
        .iter()
        .filter(|moved| is_coming_at(moved, namespace, now))
        .count() as u64
}

/// How many invocations have ended.
pub(crate) fn leaves(moves: &[Moved]) -> u64
    ensures { result ≡ count_by leaves moves.now }
{
    moves.iter().filter(|moved| is_leaving(moved)).count() as u64
}

/// How many have ended of the namespace.
pub(crate) fn leaves_in(moves: &[Moved], namespace: &EntityName) -> u64
    ensures { result ≡ count_by (leaves_in namespace.now) moves.now }
{
    moves
        .iter()
        .filter(|moved| is_leaving_in(moved, namespace))
        .count() as u64
}

fn is_coming(moved: &Moved) -> bool
    ensures { result ≡ comes moved.now }
{
    match moved {
        Moved::Accepted(task) => task.get().cause.is_none(),
        _ => false,
    }
}

fn is_coming_in(moved: &Moved, namespace: &EntityName) -> bool
    ensures { result ≡ comes_in namespace.now moved.now }
{
    match moved {
        Moved::Accepted(task) => {
            let task = task.get();
            task.cause.is_none() && is_named(&task.namespace, namespace)
        }
        _ => false,
    }
}

fn is_coming_at(moved: &Moved, namespace: &EntityName, now: u64) -> bool
    ensures { result ≡ comes_at namespace.now now moved.now }
{
    match moved {
        Moved::Accepted(task) => {
            let task = task.get();
            task.cause.is_none()
                && (is_named(&task.namespace, namespace) && counts_at(now, task.at))
        }
        _ => false,
    }
}

fn is_leaving(moved: &Moved) -> bool
    ensures { result ≡ leaves moved.now }
{
    match moved {
        Moved::Ended(record) => record.get().cause.is_none(),
        _ => false,
    }
}

fn is_leaving_in(moved: &Moved, namespace: &EntityName) -> bool
    ensures { result ≡ leaves_in namespace.now moved.now }
{
    match moved {
        Moved::Ended(record) => {
            let record = record.get();
            record.cause.is_none() && is_named(&record.namespace, namespace)
        }
        _ => false,
    }
}

fn is_named(name: &EntityName, namespace: &EntityName) -> bool
    ensures { result ≡ bytes_eq name.now namespace.now }
{
    name.as_str() == namespace.as_str()
}

// Whether what was accepted at `at` counts in the minute at `now`.
fn counts_at(now: u64, at: u64) -> bool
    ensures { result ≡ counts_at now at }
{
    now.saturating_sub(at) < MINUTE
}

// ---- room

/// Makes room for that many notes of each.
pub(crate) fn reserve_all(
    counts: &mut Counts,
    alloc: Global,
    moves: &[Moved],
    count: u32,
) -> Result<(), NoMemory>
    ensures notes { (notes : Notes) → StandsFor counts.old notes → StandsFor counts.new notes }
    ensures busy { counts.new.busy ≡ counts.old.busy }
    ensures room { OnOk result (AllByRecursion (IsRoomy count counts.new) moves.now) }
{
    for moved in moves {
        reserve_for(counts, alloc, moved, count)?;
    }
    Ok(())
}

// Makes room for that many notes of what was accepted, where no other activation caused it, or of a fire.
fn reserve_for(
    counts: &mut Counts,
    alloc: Global,
    moved: &Moved,
    count: u32,
) -> Result<(), NoMemory>
    ensures notes { (notes : Notes) → StandsFor counts.old notes → StandsFor counts.new notes }
    ensures busy { counts.new.busy ≡ counts.old.busy }
    ensures keeps { (name : List ℕ) (n : ℕ) → HasRoomOf name n counts.old → HasRoomOf name n counts.new }
    ensures room { OnOk result (IsRoomy count counts.new moved.now) }
{
    match moved {
        Moved::Accepted(task) => counts.reserve_many(alloc, &task.get().namespace, count),
        Moved::Fired(record) => counts.reserve_many(alloc, &record.get().namespace, count),
        Moved::Ended(_) => Ok(()),
        Moved::Drawn(_) => Ok(()),
    }
}

// ---- notes

/// Notes one after another.
pub(crate) fn note_all(counts: &mut Counts, moves: &[Moved])
    requires { HasRoomForMoves moves.now counts.old }
    ensures { (notes : Notes) → MayAllMove moves.now notes → StandsFor counts.old notes → StandsFor counts.new (noted_moves moves.now notes) }
{
    for moved in moves {
        note(counts, moved);
    }
}

// Notes one move.
fn note(counts: &mut Counts, moved: &Moved)
    requires room { IsRoomy 1 counts.old moved.now }
    requires counter { counts.old.busy + 1 < 2 ^ 64 }
    ensures notes { (notes : Notes) → MayMove moved.now notes → StandsFor counts.old notes → StandsFor counts.new (noted_moved moved.now notes) }
    ensures room { (name : List ℕ) (n : ℕ) → HasRoomOf name (n + 1) counts.old → HasRoomOf name n counts.new }
    ensures busy { counts.new.busy ≤ counts.old.busy + 1 }
{
    match moved {
        Moved::Accepted(task) => note_acceptance(counts, task.get()),
        Moved::Ended(record) => note_end(counts, record.get()),
        Moved::Drawn(_) => {}
        Moved::Fired(record) => note_fire(counts, record.get()),
    }
}

fn note_acceptance(counts: &mut Counts, task: &Activation)
    requires room { IsRoomy 1 counts.old (Moved.Accepted task.now) }
    requires counter { counts.old.busy + 1 < 2 ^ 64 }
    ensures notes { (notes : Notes) → MayMove (Moved.Accepted task.now) notes → StandsFor counts.old notes → StandsFor counts.new (noted_moved (Moved.Accepted task.now) notes) }
    ensures room { (name : List ℕ) (n : ℕ) → HasRoomOf name (n + 1) counts.old → HasRoomOf name n counts.new }
    ensures busy { counts.new.busy ≤ counts.old.busy + 1 }
{
    if task.cause.is_none() {
        counts.invoked(&task.namespace, task.at);
    }
}

fn note_end(counts: &mut Counts, end: &Record)
    ensures notes { (notes : Notes) → MayMove (Moved.Ended end.now) notes → StandsFor counts.old notes → StandsFor counts.new (noted_moved (Moved.Ended end.now) notes) }
    ensures room { (name : List ℕ) (n : ℕ) → HasRoomOf name (n + 1) counts.old → HasRoomOf name n counts.new }
    ensures busy { counts.new.busy ≤ counts.old.busy + 1 }
{
    if end.cause.is_none() {
        counts.ended(&end.namespace);
    }
}

fn note_fire(counts: &mut Counts, fire: &Record)
    requires room { IsRoomy 1 counts.old (Moved.Fired fire.now) }
    ensures notes { (notes : Notes) → MayMove (Moved.Fired fire.now) notes → StandsFor counts.old notes → StandsFor counts.new (noted_moved (Moved.Fired fire.now) notes) }
    ensures room { (name : List ℕ) (n : ℕ) → HasRoomOf name (n + 1) counts.old → HasRoomOf name n counts.new }
    ensures busy { counts.new.busy ≤ counts.old.busy + 1 }
{
    counts.fired(&fire.namespace, fire.span.start());
}
