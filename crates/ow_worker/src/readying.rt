// How the container of a run comes up.
ghost use Rattle.std.specs.Prelude.{◌≡◌, ◌≤◌};
ghost use Rattle.ow_traits.specs.Runner.{Idles};
ghost use Rattle.ow_board.specs.Board.{size, view_of, IsPassOf, StaysPassOf};
ghost use Rattle.ow_board.specs.View.{KeepsOthers};
ghost use Rattle.ow_desk.specs.Fitting.{IsSlot};
ghost use Rattle.ow_worker.specs.Shown.{GoesOn};
ghost use Rattle.ow_worker.specs.Parts.{Readied};

use crate::fetching::fetch;
use ow_board::{Board, Pass};
use ow_floor::RunOrder;
use ow_invoker::readying::{Readiness, initialise, open};
use ow_slots::Start;
use ow_threads::{Gate, Stage};
use ow_traits::Runner;
use std::alloc::Global;

/// Starts the container of a run, or takes it from the board, and initialises it where that is due. Where the container isn't
/// obtained, the word that was seen in its place is returned.
pub(crate) fn make_ready<R: Runner, G: Gate>(
    alloc: Global,
    board: &Board<R::Container>,
    pass: &mut Pass<R::Container>,
    runner: &mut R,
    gate: &G,
    order: &RunOrder,
) -> Readiness<R::Container, u64>
    requires pass { IsPassOf board.now pass.old × (512 ≤ size board.now) }
    requires slot { IsSlot order.now.slot order.now.generation }
    ensures pass { StaysPassOf board.now pass.old pass.new }
    ensures on { GoesOn (view_of pass.old) (view_of pass.new) }
    ensures runner { Idles (R.gives runner.old) (R.gives runner.new) (R.tally runner.old) (R.tally runner.new) }
    ensures others { KeepsOthers order.now.slot (view_of pass.old) (view_of pass.new) }
    ensures ready { Readied (R.gives runner.old) (R.tally runner.old) (R.tally runner.new) order.now (view_of pass.old) (view_of pass.new) result }
{
    if order.start == Start::Cold {
        return open(alloc, runner, order);
    }
    gate.pass(Stage::BeforeTake(order.slot));
    match fetch(board, pass, order.slot, order.generation) {
        Ok(living) => match order.start {
            Start::Warm => Readiness::Up(living),
            _ => initialise(alloc, runner, living, order),
        },
        Err(seen) => Readiness::NotHad(seen),
    }
}
