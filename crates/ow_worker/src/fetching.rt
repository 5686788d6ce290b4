// How a container is taken from the board.
ghost use Rattle.std.specs.Prelude.{◌≡◌, ◌<◌, ◌≤◌, ◌+◌, IfErr, OnOk};
ghost use Rattle.ow_traits.specs.Runner.{Idles};
ghost use Rattle.ow_board.specs.Word.{IsFull};
ghost use Rattle.ow_board.specs.View.{KeepsOthers, SawLast};
ghost use Rattle.ow_board.specs.Board.{size, view_of, IsPassOf, StaysPassOf, HasTaken, FoundGone};
ghost use Rattle.ow_worker.specs.Shown.{GoesOn, WasNotHad, WasTaken};
ghost use Rattle.ow_worker.specs.Parts.{TakenBack};

use crate::telling::tell_gone;
use ow_board::{Board, Gone, Pass, generation_of, is_full};
use ow_desk::{Desk, Receipts};
use ow_invoker::living::{Living, stop};
use ow_threads::Clock;
use ow_traits::{Keeper, Runner};
use std::sync::{Mutex, Wait};

/// Takes the container that was seen from the board, where it still lies there.
pub(crate) fn take<B: Drop>(
    board: &Board<B>,
    pass: &mut Pass<B>,
    slot: u32,
    seen: u64,
) -> Result<Living<B>, Gone>
    requires pass { IsPassOf board.now pass.old × (slot < size board.now) }
    requires full { IsFull seen }
    requires seen { SawLast slot seen (view_of pass.old) }
    ensures pass { StaysPassOf board.now pass.old pass.new }
    ensures ok { OnOk result (HasTaken slot seen (view_of pass.old) (view_of pass.new)) }
    ensures gone { IfErr result (λ e. FoundGone slot seen e.word (view_of pass.old) (view_of pass.new)) }
{
    match board.take(pass, slot, seen) {
        Ok(container) => Ok(Living { container }),
        Err(gone) => Err(gone),
    }
}

/// The container of this generation, or the word that was seen in its place.
pub(crate) fn fetch<B: Drop>(
    board: &Board<B>,
    pass: &mut Pass<B>,
    slot: u32,
    generation: u32,
) -> Result<Living<B>, u64>
    requires { IsPassOf board.now pass.old × (slot < size board.now) }
    ensures pass { StaysPassOf board.now pass.old pass.new }
    ensures on { GoesOn (view_of pass.old) (view_of pass.new) }
    ensures taken { OnOk result (WasTaken slot generation (view_of pass.old).steps (view_of pass.new)) }
    ensures not_had { IfErr result (λ seen. WasNotHad slot generation seen (view_of pass.old).steps (view_of pass.new)) }
    ensures others { KeepsOthers slot (view_of pass.old) (view_of pass.new) }
{
    let seen = board.look(pass, slot);
    if !is_full(seen) || generation_of(seen) != generation {
        return Err(seen);
    }
    match take(board, pass, slot, seen) {
        Ok(living) => Ok(living),
        Err(gone) => Err(gone.word),
    }
}

/// Stops the container of this generation where it still lies on the board, and reports that it is gone.
pub(crate) fn take_back<H: Wait, P: Keeper + Drop, R: Runner, C: Clock>(
    rt: &H,
    desk: &Mutex<Desk<P>>,
    board: &Board<R::Container>,
    pass: &mut Pass<R::Container>,
    runner: &mut R,
    clock: &C,
    notes: &mut Receipts<P>,
    slot: u32,
    generation: u32,
)
    requires pass { IsPassOf board.now pass.old × (slot < size board.now) }
    requires room { 1 ≤ notes.old.room }
    ensures pass { StaysPassOf board.now pass.old pass.new }
    ensures on { GoesOn (view_of pass.old) (view_of pass.new) }
    ensures others { KeepsOthers slot (view_of pass.old) (view_of pass.new) }
    ensures runner { Idles (R.gives runner.old) (R.gives runner.new) (R.tally runner.old) (R.tally runner.new) }
    ensures room { notes.old.room ≤ notes.new.room + 1 }
    ensures back { TakenBack (C.tells clock.now) slot generation notes.old.notes notes.new.notes (view_of pass.old).steps (view_of pass.new) }
{
    if let Ok(living) = fetch(board, pass, slot, generation) {
        stop(runner, living);
        tell_gone(rt, desk, clock, notes, slot, generation);
    }
}
