// A run, from its container to its end.
ghost use Rattle.std.specs.Prelude.{◌≡◌, ◌≤◌, false, None};
ghost use Rattle.ow_traits.specs.Runner.{Idles, Runs, Steady, is_answer};
ghost use Rattle.ow_board.specs.Board.{size, view_of, IsPassOf, StaysPassOf};
ghost use Rattle.ow_board.specs.View.{KeepsOthers};
ghost use Rattle.ow_desk.specs.Fitting.{IsSlot};
ghost use Rattle.ow_invoker.specs.Turns.{IsStarted};
ghost use Rattle.ow_worker.specs.Parts.{Settled};
ghost use Rattle.ow_worker.specs.Turned.{Performs, RunTurn};

use crate::booking::book;
use crate::laying::lay_down;
use crate::outcome::{Job, Turn};
use crate::readying::make_ready;
use crate::telling::{give_up, tell_begun, tell_lost};
use ow_board::{Board, Pass};
use ow_desk::{Desk, Receipts};
use ow_floor::RunOrder;
use ow_invoker::living::{self, Living, stop};
use ow_invoker::readying::Readiness;
use ow_threads::{Clock, Gate, Stage};
use ow_traits::{Keeper, RunReply, Runner};
use std::alloc::Global;
use std::sync::{Mutex, Wait};

/// Carries out a run.
pub(crate) fn carry<H: Wait, P: Keeper + Drop, R: Runner, C: Clock, G: Gate>(
    rt: &H,
    alloc: Global,
    desk: &Mutex<Desk<P>>,
    board: &Board<R::Container>,
    pass: &mut Pass<R::Container>,
    runner: &mut R,
    clock: &C,
    gate: &G,
    opened: u64,
    notes: &mut Receipts<P>,
    order: RunOrder,
) -> Turn
    requires pass { IsPassOf board.now pass.old × (512 ≤ size board.now) }
    requires slot { IsSlot order.slot order.generation }
    requires room { 4 ≤ notes.old.room }
    ensures pass { StaysPassOf board.now pass.old pass.new }
    ensures runner { Steady (R.gives runner.old) (R.gives runner.new) (R.tally runner.old) (R.tally runner.new) }
    ensures others { KeepsOthers order.slot (view_of pass.old) (view_of pass.new) }
    ensures turned { RunTurn (R.gives runner.old) (R.tally runner.old) (R.tally runner.new) (C.tells clock.now) opened order notes.old.notes notes.new.notes (view_of pass.old) (view_of pass.new) result }
{
    match make_ready(alloc, board, pass, runner, gate, &order) {
        Readiness::Up(living) => perform(
            rt, alloc, desk, board, pass, runner, clock, gate, opened, notes, order, living,
        ),
        Readiness::Early(held, reply) => settle(
            rt, alloc, desk, board, pass, runner, clock, opened, notes, order, reply, held,
        ),
        Readiness::NotHad(seen) => {
            tell_lost(rt, desk, clock, notes, order.run);
            Turn::Lost { seen }
        }
        Readiness::NoMemory => {
            give_up(
                rt,
                desk,
                clock,
                notes,
                order.run,
                order.slot,
                order.generation,
            );
            Turn::NoMemory(None)
        }
    }
}

// Runs the order in its container, which is up and initialised. No lock is held while it runs.
fn perform<H: Wait, P: Keeper + Drop, R: Runner, C: Clock, G: Gate>(
    rt: &H,
    alloc: Global,
    desk: &Mutex<Desk<P>>,
    board: &Board<R::Container>,
    pass: &mut Pass<R::Container>,
    runner: &mut R,
    clock: &C,
    gate: &G,
    opened: u64,
    notes: &mut Receipts<P>,
    order: RunOrder,
    mut living: Living<R::Container>,
) -> Turn
    requires started { IsStarted (R.gives runner.old) order }
    requires pass { IsPassOf board.now pass.old × (512 ≤ size board.now) }
    requires slot { IsSlot order.slot order.generation }
    requires room { 4 ≤ notes.old.room }
    ensures pass { StaysPassOf board.now pass.old pass.new }
    ensures runner { Runs (R.gives runner.old) (R.gives runner.new) (R.tally runner.old) (R.tally runner.new) }
    ensures others { KeepsOthers order.slot (view_of pass.old) (view_of pass.new) }
    ensures performs { Performs (R.gives runner.old) (R.tally runner.old) (R.tally runner.new) (C.tells clock.now) opened order notes.old.notes notes.new.notes (view_of pass.old) (view_of pass.new) result }
{
    tell_begun(rt, desk, clock, notes, &order);
    gate.pass(Stage::BeforeRun(order.run));
    match living::run(alloc, runner, &mut living, &order) {
        Ok(reply) => {
            gate.pass(Stage::AfterRun(order.run));
            settle(
                rt,
                alloc,
                desk,
                board,
                pass,
                runner,
                clock,
                opened,
                notes,
                order,
                reply,
                Some(living),
            )
        }
        Err(_) => {
            stop(runner, living);
            give_up(
                rt,
                desk,
                clock,
                notes,
                order.run,
                order.slot,
                order.generation,
            );
            Turn::NoMemory(None)
        }
    }
}

// Lays a living container down or stops it, and books the reply.
fn settle<H: Wait, P: Keeper + Drop, R: Runner, C: Clock>(
    rt: &H,
    alloc: Global,
    desk: &Mutex<Desk<P>>,
    board: &Board<R::Container>,
    pass: &mut Pass<R::Container>,
    runner: &mut R,
    clock: &C,
    opened: u64,
    notes: &mut Receipts<P>,
    order: RunOrder,
    reply: RunReply,
    held: Option<Living<R::Container>>,
) -> Turn
    requires pass { IsPassOf board.now pass.old × (512 ≤ size board.now) }
    requires slot { IsSlot order.slot order.generation }
    requires room { 3 ≤ notes.old.room }
    requires none { held ≡ None → is_answer reply ≡ false }
    ensures pass { StaysPassOf board.now pass.old pass.new }
    ensures runner { Idles (R.gives runner.old) (R.gives runner.new) (R.tally runner.old) (R.tally runner.new) }
    ensures others { KeepsOthers order.slot (view_of pass.old) (view_of pass.new) }
    ensures settled { Settled (C.tells clock.now) opened order reply notes.old.notes notes.new.notes (view_of pass.old) (view_of pass.new) result }
{
    let laid = lay_down(
        rt, desk, board, pass, runner, clock, opened, notes, &order, &reply, held,
    );
    book(
        rt,
        alloc,
        desk,
        board,
        pass,
        runner,
        clock,
        notes,
        Job { order, reply, laid },
    )
}
