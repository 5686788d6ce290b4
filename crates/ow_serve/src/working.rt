// What workers, the sweeper and the reaper do until they are to end.
ghost use Rattle.std.specs.Prelude.{◌≡◌, ◌≤◌, Some, None};
ghost use Rattle.ow_traits.specs.Runner.{Idles, RanNone, Steady};
ghost use Rattle.ow_board.specs.Board.{IsPassOf, view_of};
ghost use Rattle.ow_serve.specs.Working.{BooksOnce, Leads, MakesReapings, MakesSweeps, MakesTurns, WorksOnce, next_job, outset, stand, to_book};

use crate::shared_state::SharedState;
use ow_board::Pass;
use ow_desk::Receipts;
use ow_threads::{Bell, Clock, Gate};
use ow_traits::{Keeper, Runner};
use ow_worker::{Job, Turn, again, reap, turn, watch};
use std::alloc::Global;
use std::sync::Wait;

/// How long a worker pauses that finds nothing to do, or no memory, or has started a container ahead, in milliseconds.
const PAUSE: u64 = 10;

/// How long the sweeper and the reaper pause between two calls, in milliseconds.
const LONG_PAUSE: u64 = 1000;

/// What a worker does after a turn.
enum Next {
    /// The next turn.
    Turn,
    /// The next turn, after a pause.
    Pause,
    /// It books a reply that is still to be booked.
    Book(Job),
}

/// Makes turns.
pub(crate) fn work_on<H: Wait, P: Keeper + Drop, R: Runner, C: Clock, G: Gate>(
    rt: &H,
    alloc: Global,
    shared: &SharedState<P, R::Container>,
    pass: &mut Pass<R::Container>,
    runner: &mut R,
    clock: &C,
    gate: &G,
    opened: u64,
    notes: &mut Receipts<P>,
)
    requires { IsPassOf shared.now.board pass.old }
    ensures pass { IsPassOf shared.now.board pass.new }
    ensures turns { MakesTurns (R.gives runner.old) (R.tally runner.old) (R.tally runner.new) (outset (C.tells clock.now) opened (view_of pass.old)) notes.old.notes notes.new.notes }
{
    for _ in rt.forever() {
        if shared.is_over() {
            return;
        }
        work_once(rt, alloc, shared, pass, runner, clock, gate, opened, notes);
    }
}

// Makes one turn, and books the reply that it leaves.
fn work_once<H: Wait, P: Keeper + Drop, R: Runner, C: Clock, G: Gate>(
    rt: &H,
    alloc: Global,
    shared: &SharedState<P, R::Container>,
    pass: &mut Pass<R::Container>,
    runner: &mut R,
    clock: &C,
    gate: &G,
    opened: u64,
    notes: &mut Receipts<P>,
)
    requires { IsPassOf shared.now.board pass.old }
    ensures pass { IsPassOf shared.now.board pass.new }
    ensures runner { Steady (R.gives runner.old) (R.gives runner.new) (R.tally runner.old) (R.tally runner.new) }
    ensures works { WorksOnce (R.gives runner.old) (C.tells clock.now) opened (stand notes.old.notes (view_of pass.old) (R.tally runner.old)) (stand notes.new.notes (view_of pass.new) (R.tally runner.new)) }
{
    let turned = turn(
        rt,
        alloc,
        &shared.desk,
        &shared.board,
        pass,
        runner,
        clock,
        gate,
        opened,
        notes,
    );
    match next_of(turned) {
        Next::Turn => {}
        Next::Pause => clock.pause(Bell::Work, PAUSE),
        Next::Book(job) => book_on(rt, alloc, shared, pass, runner, clock, notes, job),
    }
}

// Books a reply again and again until it is booked.
fn book_on<H: Wait, P: Keeper + Drop, R: Runner, C: Clock>(
    rt: &H,
    alloc: Global,
    shared: &SharedState<P, R::Container>,
    pass: &mut Pass<R::Container>,
    runner: &mut R,
    clock: &C,
    notes: &mut Receipts<P>,
    job: Job,
)
    requires { IsPassOf shared.now.board pass.old }
    ensures pass { IsPassOf shared.now.board pass.new }
    ensures runner { Idles (R.gives runner.old) (R.gives runner.new) (R.tally runner.old) (R.tally runner.new) }
    ensures books { Leads (BooksOnce (C.tells clock.now)) (Some job, stand notes.old.notes (view_of pass.old) (R.tally runner.old)) (None, stand notes.new.notes (view_of pass.new) (R.tally runner.new)) }
{
    let mut job = job;
    for _ in rt.forever() {
        clock.pause(Bell::Work, PAUSE);
        let turned = again(
            rt,
            alloc,
            &shared.desk,
            &shared.board,
            pass,
            runner,
            clock,
            notes,
            job,
        );
        match left(turned) {
            Some(other) => job = other,
            None => return,
        }
    }
    unreachable!()
}

// What is done after a turn.
fn next_of(turned: Turn) -> Next
    ensures { next_job result ≡ to_book turned }
{
    match turned {
        Turn::Ran | Turn::Removed => Next::Turn,
        Turn::Lost { seen: _ } => Next::Turn,
        // A container that doesn't come up is wanted again at once.
        Turn::Idle | Turn::Warmed => Next::Pause,
        Turn::StoreFault(job) => Next::Book(job),
        Turn::NoMemory(None) => Next::Pause,
        Turn::NoMemory(Some(job)) => Next::Book(job),
    }
}

// The reply that is still to be booked.
fn left(turned: Turn) -> Option<Job>
    ensures { result ≡ to_book turned }
{
    match turned {
        Turn::StoreFault(job) => Some(job),
        Turn::NoMemory(job) => job,
        Turn::Ran | Turn::Removed | Turn::Warmed | Turn::Idle => None,
        Turn::Lost { seen: _ } => None,
    }
}

/// Makes sweeps.
pub(crate) fn sweep_on<H: Wait, P: Keeper + Drop, B: Drop, C: Clock>(
    rt: &H,
    alloc: Global,
    shared: &SharedState<P, B>,
    clock: &C,
    notes: &mut Receipts<P>,
)
    ensures { MakesSweeps (C.tells clock.now) notes.old.notes notes.new.notes }
{
    for _ in rt.forever() {
        if shared.is_over() {
            return;
        }
        let _ = watch(rt, alloc, &shared.desk, clock, notes);
        clock.pause(Bell::Close, LONG_PAUSE);
    }
}

/// Takes containers that have lain on the board for long.
pub(crate) fn reap_on<H: Wait, P: Keeper + Drop, R: Runner, C: Clock, G: Gate>(
    rt: &H,
    alloc: Global,
    shared: &SharedState<P, R::Container>,
    pass: &mut Pass<R::Container>,
    runner: &mut R,
    clock: &C,
    gate: &G,
    opened: u64,
    notes: &mut Receipts<P>,
)
    requires { IsPassOf shared.now.board pass.old }
    ensures pass { IsPassOf shared.now.board pass.new }
    ensures ran { RanNone (R.tally runner.old) (R.tally runner.new) }
    ensures reapings { MakesReapings (outset (C.tells clock.now) opened (view_of pass.old)) notes.old.notes notes.new.notes }
{
    for _ in rt.forever() {
        if shared.is_over() {
            return;
        }
        let _ = reap(
            rt,
            alloc,
            &shared.desk,
            &shared.board,
            pass,
            runner,
            clock,
            gate,
            opened,
            notes,
        );
        clock.pause(Bell::Close, LONG_PAUSE);
    }
}
