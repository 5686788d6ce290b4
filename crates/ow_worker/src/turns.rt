// A worker's turns.
ghost use Rattle.std.specs.Prelude.{◌≡◌, ◌≤◌};
ghost use Rattle.ow_traits.specs.Runner.{Idles, Steady};
ghost use Rattle.ow_board.specs.Board.{size, view_of, IsPassOf, StaysPassOf};
ghost use Rattle.ow_board.specs.View.{KeepsOthers};
ghost use Rattle.ow_worker.specs.Parts.{Booked};
ghost use Rattle.ow_worker.specs.Turned.{Turned};

use crate::booking::book;
use crate::outcome::{Job, Turn};
use crate::runs::carry;
use crate::telling::take_order;
use crate::warming::{prewarm, remove};
use ow_board::{Board, Pass};
use ow_desk::{Desk, Receipts};
use ow_floor::Order;
use ow_threads::{Clock, Gate};
use ow_traits::{Keeper, Runner};
use std::alloc::Global;
use std::sync::{Mutex, Wait};

/// Asks the hall what to do, and carries it out. Containers lie on the board between runs, which has a slot for each of the greatest
/// pool. The lock is taken for each call of the hall alone: it isn't held while a container is started, initialised or stopped, nor
/// while it runs. `opened` is the moment of the hall's opening, in milliseconds.
pub fn turn<H: Wait, P: Keeper + Drop, R: Runner, C: Clock, G: Gate>(
    rt: &H,
    alloc: Global,
    desk: &Mutex<Desk<P>>,
    board: &Board<R::Container>,
    pass: &mut Pass<R::Container>,
    runner: &mut R,
    clock: &C,
    gate: &G,
    opened: u64,
    notes: &mut Receipts<P>,
) -> Turn
    requires { IsPassOf board.now pass.old × (512 ≤ size board.now) }
    ensures pass { StaysPassOf board.now pass.old pass.new }
    ensures runner { Steady (R.gives runner.old) (R.gives runner.new) (R.tally runner.old) (R.tally runner.new) }
    ensures turned { Turned (R.gives runner.old) (R.tally runner.old) (R.tally runner.new) (C.tells clock.now) opened notes.old.notes notes.new.notes (view_of pass.old) (view_of pass.new) result }
{
    let Ok(order) = take_order(rt, alloc, desk, clock, notes) else {
        return Turn::NoMemory(None);
    };
    match order {
        Order::Nothing(_) => Turn::Idle,
        Order::Run(order) => carry(
            rt, alloc, desk, board, pass, runner, clock, gate, opened, notes, order,
        ),
        Order::Prewarm(order) => {
            prewarm(rt, alloc, desk, board, pass, runner, clock, notes, order)
        }
        Order::Remove(containers) => {
            remove(
                rt,
                desk,
                board,
                pass,
                runner,
                clock,
                notes,
                containers.as_slice(),
            );
            Turn::Removed
        }
    }
}

/// Books the reply that a turn left, and goes on as the turn does from there.
pub fn again<H: Wait, P: Keeper + Drop, R: Runner, C: Clock>(
    rt: &H,
    alloc: Global,
    desk: &Mutex<Desk<P>>,
    board: &Board<R::Container>,
    pass: &mut Pass<R::Container>,
    runner: &mut R,
    clock: &C,
    notes: &mut Receipts<P>,
    job: Job,
) -> Turn
    requires { IsPassOf board.now pass.old × (512 ≤ size board.now) }
    ensures pass { StaysPassOf board.now pass.old pass.new }
    ensures runner { Idles (R.gives runner.old) (R.gives runner.new) (R.tally runner.old) (R.tally runner.new) }
    ensures others { KeepsOthers job.order.slot (view_of pass.old) (view_of pass.new) }
    ensures booked { Booked (C.tells clock.now) job.order job.reply job.laid notes.old.notes notes.new.notes (view_of pass.old).steps (view_of pass.old) (view_of pass.new) result }
{
    let Ok(()) = notes.reserve(alloc, 2) else {
        return Turn::NoMemory(Some(job));
    };
    book(rt, alloc, desk, board, pass, runner, clock, notes, job)
}
