// How a reply is booked, and what follows.
ghost use Rattle.std.specs.Prelude.{◌≡◌, ◌≤◌, ◌+◌};
ghost use Rattle.ow_traits.specs.Runner.{Idles};
ghost use Rattle.ow_board.specs.Board.{size, view_of, IsPassOf, StaysPassOf};
ghost use Rattle.ow_board.specs.View.{KeepsOthers};
ghost use Rattle.ow_desk.specs.Fitting.{IsSlot};
ghost use Rattle.ow_worker.specs.Shown.{GoesOn};
ghost use Rattle.ow_worker.specs.Parts.{Booked, Ended};

use crate::fetching::take_back;
use crate::outcome::{Job, Laid, Turn};
use crate::telling::{tell_gone, tell_reply};
use ow_board::{Board, Pass};
use ow_desk::{Desk, Receipts};
use ow_floor::{AnswerRefusal, Answered, RunOrder};
use ow_threads::Clock;
use ow_traits::{Keeper, Runner};
use std::alloc::Global;
use std::sync::{Mutex, Wait};

/// Books the reply, and goes on from there.
pub(crate) fn book<H: Wait, P: Keeper + Drop, R: Runner, C: Clock>(
    rt: &H,
    alloc: Global,
    desk: &Mutex<Desk<P>>,
    board: &Board<R::Container>,
    pass: &mut Pass<R::Container>,
    runner: &mut R,
    clock: &C,
    notes: &mut Receipts<P>,
    job: Job,
) -> Turn
    requires pass { IsPassOf board.now pass.old × (512 ≤ size board.now) }
    requires room { 2 ≤ notes.old.room }
    ensures pass { StaysPassOf board.now pass.old pass.new }
    ensures on { GoesOn (view_of pass.old) (view_of pass.new) }
    ensures runner { Idles (R.gives runner.old) (R.gives runner.new) (R.tally runner.old) (R.tally runner.new) }
    ensures others { KeepsOthers job.order.slot (view_of pass.old) (view_of pass.new) }
    ensures booked { Booked (C.tells clock.now) job.order job.reply job.laid notes.old.notes notes.new.notes (view_of pass.old).steps (view_of pass.old) (view_of pass.new) result }
{
    let Job { order, reply, laid } = job;
    match tell_reply(rt, alloc, desk, clock, notes, order.run, reply) {
        Ok(Answered::Recorded(_)) => {
            end(
                rt, desk, board, pass, runner, clock, notes, &order, laid, false,
            );
            Turn::Ran
        }
        Ok(Answered::Late { .. }) => {
            end(
                rt, desk, board, pass, runner, clock, notes, &order, laid, true,
            );
            Turn::Ran
        }
        Err(AnswerRefusal::NoRun { .. }) => {
            end(
                rt, desk, board, pass, runner, clock, notes, &order, laid, false,
            );
            Turn::Ran
        }
        Err(AnswerRefusal::StoreFault(reply)) => Turn::StoreFault(Job { order, reply, laid }),
        Err(AnswerRefusal::NoMemory(reply)) => { Turn::NoMemory(Some(Job { order, reply, laid })) }
    }
}

// After a booked reply: reports what is gone, and takes back what came late.
fn end<H: Wait, P: Keeper + Drop, R: Runner, C: Clock>(
    rt: &H,
    desk: &Mutex<Desk<P>>,
    board: &Board<R::Container>,
    pass: &mut Pass<R::Container>,
    runner: &mut R,
    clock: &C,
    notes: &mut Receipts<P>,
    order: &RunOrder,
    laid: Laid,
    late: bool,
)
    requires pass { IsPassOf board.now pass.old × (512 ≤ size board.now) }
    requires slot { IsSlot order.now.slot order.now.generation }
    requires room { 1 ≤ notes.old.room }
    ensures pass { StaysPassOf board.now pass.old pass.new }
    ensures on { GoesOn (view_of pass.old) (view_of pass.new) }
    ensures runner { Idles (R.gives runner.old) (R.gives runner.new) (R.tally runner.old) (R.tally runner.new) }
    ensures others { KeepsOthers order.now.slot (view_of pass.old) (view_of pass.new) }
    ensures ended { Ended (C.tells clock.now) order.now notes.old.notes notes.new.notes (view_of pass.old).steps (view_of pass.old) (view_of pass.new) laid late }
{
    match laid {
        Laid::Taken => {}
        Laid::Stopped => tell_gone(rt, desk, clock, notes, order.slot, order.generation),
        Laid::Put => {
            if late {
                take_back(
                    rt,
                    desk,
                    board,
                    pass,
                    runner,
                    clock,
                    notes,
                    order.slot,
                    order.generation,
                );
            }
        }
    }
}
