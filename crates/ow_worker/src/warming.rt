// Containers that are started ahead of any run, and containers that make room.
ghost use Rattle.std.specs.Prelude.{◌≡◌, ◌<◌, ◌≤◌, ◌+◌, length};
ghost use Rattle.std.specs.List.{AllByRecursion};
ghost use Rattle.ow_traits.specs.Runner.{Idles};
ghost use Rattle.ow_board.specs.Board.{size, view_of, IsPassOf, StaysPassOf};
ghost use Rattle.ow_board.specs.View.{KeepsOthers};
ghost use Rattle.ow_desk.specs.Fitting.{IsSlot};
ghost use Rattle.ow_worker.specs.Shown.{GoesOn};
ghost use Rattle.ow_worker.specs.Turned.{Removes, WarmTurn, Warms};

use crate::fetching::take_back;
use crate::laying::put;
use crate::outcome::{Turn, Warming};
use crate::telling::give_up;
use ow_board::{Board, Pass};
use ow_desk::{Desk, Receipts};
use ow_floor::{Container, PrewarmOrder};
use ow_invoker::living::{Living, stop};
use ow_threads::{Clock, hold};
use ow_traits::{Keeper, Runner, Started};
use std::alloc::Global;
use std::sync::{Mutex, Wait};

/// The second of a prewarmed container, which isn't reaped.
pub(crate) const PREWARMED: u32 = 4_294_967_295;

/// Starts a container ahead. It lies on the board before its prewarming has begun.
pub(crate) fn prewarm<H: Wait, P: Keeper + Drop, R: Runner, C: Clock>(
    rt: &H,
    alloc: Global,
    desk: &Mutex<Desk<P>>,
    board: &Board<R::Container>,
    pass: &mut Pass<R::Container>,
    runner: &mut R,
    clock: &C,
    notes: &mut Receipts<P>,
    order: PrewarmOrder,
) -> Turn
    requires pass { IsPassOf board.now pass.old × (512 ≤ size board.now) }
    requires slot { IsSlot order.slot order.generation }
    requires room { 2 ≤ notes.old.room }
    ensures pass { StaysPassOf board.now pass.old pass.new }
    ensures runner { Idles (R.gives runner.old) (R.gives runner.new) (R.tally runner.old) (R.tally runner.new) }
    ensures others { KeepsOthers order.slot (view_of pass.old) (view_of pass.new) }
    ensures warms { WarmTurn (R.gives runner.old) (R.tally runner.old) (R.tally runner.new) (C.tells clock.now) order notes.old.notes notes.new.notes (view_of pass.old) (view_of pass.new) result }
{
    match warm(alloc, board, pass, runner, &order) {
        Warming::Up => {
            let _ = notes.begun(&mut *hold(rt, desk), clock.now(), order.run);
            Turn::Warmed
        }
        Warming::Down | Warming::Taken => {
            give_up(
                rt,
                desk,
                clock,
                notes,
                order.run,
                order.slot,
                order.generation,
            );
            Turn::Warmed
        }
        Warming::Wanting => {
            give_up(
                rt,
                desk,
                clock,
                notes,
                order.run,
                order.slot,
                order.generation,
            );
            Turn::NoMemory(None)
        }
    }
}

fn warm<R: Runner>(
    alloc: Global,
    board: &Board<R::Container>,
    pass: &mut Pass<R::Container>,
    runner: &mut R,
    order: &PrewarmOrder,
) -> Warming
    requires pass { IsPassOf board.now pass.old × (512 ≤ size board.now) }
    requires slot { IsSlot order.now.slot order.now.generation }
    ensures pass { StaysPassOf board.now pass.old pass.new }
    ensures on { GoesOn (view_of pass.old) (view_of pass.new) }
    ensures runner { Idles (R.gives runner.old) (R.gives runner.new) (R.tally runner.old) (R.tally runner.new) }
    ensures others { KeepsOthers order.now.slot (view_of pass.old) (view_of pass.new) }
    ensures warms { Warms (R.gives runner.old) (R.tally runner.old) (R.tally runner.new) order.now (view_of pass.old) (view_of pass.new) result }
{
    match runner.start(alloc, order.kind, order.memory) {
        Err(_) => Warming::Wanting,
        Ok(Started::Down(_)) => Warming::Down,
        Ok(Started::Up(container)) => {
            let living = Living { container };
            match put(board, pass, order.slot, order.generation, PREWARMED, living) {
                Ok(()) => Warming::Up,
                Err(living) => {
                    stop(runner, living);
                    Warming::Taken
                }
            }
        }
    }
}

/// Takes the containers back that lie in these slots, one after another.
pub(crate) fn remove<H: Wait, P: Keeper + Drop, R: Runner, C: Clock>(
    rt: &H,
    desk: &Mutex<Desk<P>>,
    board: &Board<R::Container>,
    pass: &mut Pass<R::Container>,
    runner: &mut R,
    clock: &C,
    notes: &mut Receipts<P>,
    containers: &[Container],
)
    requires pass { IsPassOf board.now pass.old × (512 ≤ size board.now) }
    requires slots { AllByRecursion (λ c. IsSlot c.slot c.generation) containers.now }
    requires room { length containers.now ≤ notes.old.room }
    ensures pass { StaysPassOf board.now pass.old pass.new }
    ensures runner { Idles (R.gives runner.old) (R.gives runner.new) (R.tally runner.old) (R.tally runner.new) }
    ensures removes { Removes (C.tells clock.now) containers.now notes.old.notes notes.new.notes (view_of pass.old) (view_of pass.new) }
{
    if let Some((container, rest)) = containers.split_first() {
        take_back(
            rt,
            desk,
            board,
            pass,
            runner,
            clock,
            notes,
            container.slot,
            container.generation,
        );
        remove(rt, desk, board, pass, runner, clock, notes, rest);
    }
}
