// What becomes of a container whose run has a reply.
ghost use Rattle.std.specs.Prelude.{◌≡◌, ◌≤◌, ◌+◌, ℕ, false, None, OnOk, OnErr};
ghost use Rattle.ow_traits.specs.Runner.{Idles, is_answer};
ghost use Rattle.ow_board.specs.Board.{size, view_of, IsPassOf, StaysPassOf, HasPut, FoundTaken};
ghost use Rattle.ow_board.specs.View.{KeepsOthers};
ghost use Rattle.ow_desk.specs.Fitting.{IsSlot};
ghost use Rattle.ow_worker.specs.Shown.{GoesOn, put_second};
ghost use Rattle.ow_worker.specs.Parts.{LaidDown};

use crate::outcome::Laid;
use crate::telling::tell_gone;
use ow_board::{Board, Pass};
use ow_desk::{Desk, Receipts};
use ow_floor::RunOrder;
use ow_invoker::living::{Living, stop};
use ow_threads::Clock;
use ow_traits::{Keeper, RunReply, Runner};
use std::sync::{Mutex, Wait};

/// Puts a container that answered on the board, and stops any other.
pub(crate) fn lay_down<H: Wait, P: Keeper + Drop, R: Runner, C: Clock>(
    rt: &H,
    desk: &Mutex<Desk<P>>,
    board: &Board<R::Container>,
    pass: &mut Pass<R::Container>,
    runner: &mut R,
    clock: &C,
    opened: u64,
    notes: &mut Receipts<P>,
    order: &RunOrder,
    reply: &RunReply,
    held: Option<Living<R::Container>>,
) -> Laid
    requires pass { IsPassOf board.now pass.old × (512 ≤ size board.now) }
    requires slot { IsSlot order.now.slot order.now.generation }
    requires room { 1 ≤ notes.old.room }
    requires none { held ≡ None → is_answer reply.now ≡ false }
    ensures pass { StaysPassOf board.now pass.old pass.new }
    ensures on { GoesOn (view_of pass.old) (view_of pass.new) }
    ensures runner { Idles (R.gives runner.old) (R.gives runner.new) (R.tally runner.old) (R.tally runner.new) }
    ensures room { notes.old.room ≤ notes.new.room + 1 }
    ensures others { KeepsOthers order.now.slot (view_of pass.old) (view_of pass.new) }
    ensures laid { LaidDown (C.tells clock.now) opened order.now reply.now notes.old.notes notes.new.notes (view_of pass.old) (view_of pass.new) result }
{
    let Some(living) = held else {
        return Laid::Stopped;
    };
    if !reply.is_answer() {
        stop(runner, living);
        return Laid::Stopped;
    }
    let second = put_second(clock.now(), opened);
    match put(board, pass, order.slot, order.generation, second, living) {
        Ok(()) => Laid::Put,
        Err(living) => {
            stop(runner, living);
            tell_gone(rt, desk, clock, notes, order.slot, order.generation);
            Laid::Taken
        }
    }
}

/// Puts a container on the board, or gives it back where the slot isn't empty.
pub(crate) fn put<B: Drop>(
    board: &Board<B>,
    pass: &mut Pass<B>,
    slot: u32,
    generation: u32,
    second: u32,
    living: Living<B>,
) -> Result<(), Living<B>>
    requires pass { IsPassOf board.now pass.old × (512 ≤ size board.now) }
    requires slot { IsSlot slot generation }
    ensures pass { StaysPassOf board.now pass.old pass.new }
    ensures others { KeepsOthers slot (view_of pass.old) (view_of pass.new) }
    ensures ok { OnOk result (HasPut slot generation second (view_of pass.old) (view_of pass.new)) }
    ensures taken { OnErr result ((word : ℕ) × FoundTaken slot word (view_of pass.old) (view_of pass.new)) }
{
    let Living { container } = living;
    match board.put(pass, slot, generation, second, container) {
        Ok(()) => Ok(()),
        Err(taken) => Err(Living {
            container: taken.container,
        }),
    }
}

// The second of what is put at a moment, since the opening.
fn put_second(now: u64, opened: u64) -> u32
    ensures { result ≡ put_second now opened }
{
    let seconds = now.saturating_sub(opened) / 1000;
    seconds.min(4_294_967_294) as u32
}
