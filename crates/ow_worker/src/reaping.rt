// The reaper.
ghost use Rattle.std.specs.Prelude.{◌≡◌, ◌-◌, ◌/◌, ◌<◌, ◌≤◌, ℕ, Some, None, IfOk, IfSome, IfNone, OnErr};
ghost use Rattle.ow_traits.specs.Runner.{Idles};
ghost use Rattle.ow_board.specs.Board.{size, view_of, IsPassOf, StaysPassOf};
ghost use Rattle.ow_worker.specs.Reaped.{Deals, HasReaped, KeepsBehind, SlotReaped};

use crate::fetching::take;
use crate::telling::tell_gone;
use crate::warming::PREWARMED;
use ow_board::{Board, Pass, generation_of, is_full, second_of};
use ow_desk::{Desk, Receipts};
use ow_invoker::living::{Living, stop};
use ow_threads::{Clock, Gate, Stage};
use ow_traits::{Keeper, Runner};
use ow_value::NoMemory;
use std::alloc::Global;
use std::sync::{Mutex, Wait};

/// A container may lie on the board for this many seconds.
const MOST_IDLE: u64 = 600;

/// Takes each container that lies on the board for 600 seconds and isn't prewarmed, stops it, and reports that it is gone. It
/// answers how many these are. It waits for the hall only to report that. `opened` is the moment of the hall's opening, in milliseconds.
/// Where memory runs out, the slots up to there stay as they were dealt with, and the others weren't touched.
pub fn reap<H: Wait, P: Keeper + Drop, R: Runner, C: Clock, G: Gate>(
    rt: &H,
    alloc: Global,
    desk: &Mutex<Desk<P>>,
    board: &Board<R::Container>,
    pass: &mut Pass<R::Container>,
    runner: &mut R,
    clock: &C,
    gate: &G,
    opened: u64,
    notes: &mut Receipts<P>,
) -> Result<u32, NoMemory>
    requires { IsPassOf board.now pass.old }
    ensures pass { StaysPassOf board.now pass.old pass.new }
    ensures runner { Idles (R.gives runner.old) (R.gives runner.new) (R.tally runner.old) (R.tally runner.new) }
    ensures ok { IfOk result (λ count. HasReaped (C.tells clock.now) opened notes.old.notes notes.new.notes (view_of pass.old) (view_of pass.new) (size board.now) count) }
    ensures err { OnErr result ((k : ℕ) × (count : ℕ) × (k ≤ size board.now) × HasReaped (C.tells clock.now) opened notes.old.notes notes.new.notes (view_of pass.old) (view_of pass.new) k count × KeepsBehind k (view_of pass.old) (view_of pass.new)) }
{
    let elapsed = seconds_since(clock.now(), opened);
    let mut taken = 0u32;
    for i in 0..board.slots() {
        let Ok(()) = notes.reserve(alloc, 1) else {
            return Err(NoMemory);
        };
        gate.pass(Stage::BeforeReap(i));
        taken += reap_slot(rt, desk, board, pass, runner, clock, notes, i, elapsed);
    }
    Ok(taken)
}

fn seconds_since(now: u64, opened: u64) -> u64
    ensures { result ≡ (now - opened) / 1000 }
{
    now.saturating_sub(opened) / 1000
}

fn reap_slot<H: Wait, P: Keeper + Drop, R: Runner, C: Clock>(
    rt: &H,
    desk: &Mutex<Desk<P>>,
    board: &Board<R::Container>,
    pass: &mut Pass<R::Container>,
    runner: &mut R,
    clock: &C,
    notes: &mut Receipts<P>,
    i: u32,
    elapsed: u64,
) -> u32
    requires pass { IsPassOf board.now pass.old × (i < size board.now) }
    requires room { 1 ≤ notes.old.room }
    ensures pass { StaysPassOf board.now pass.old pass.new }
    ensures runner { Idles (R.gives runner.old) (R.gives runner.new) (R.tally runner.old) (R.tally runner.new) }
    ensures reaped { SlotReaped (C.tells clock.now) i elapsed notes.old.notes notes.new.notes (view_of pass.old) (view_of pass.new) result }
    ensures one { result ≤ 1 }
{
    match deal(board, pass, i, elapsed) {
        None => 0,
        Some((generation, living)) => {
            stop(runner, living);
            tell_gone(rt, desk, clock, notes, i, generation);
            1
        }
    }
}

// Takes the container of a slot where it is due, with its generation.
fn deal<B: Drop>(
    board: &Board<B>,
    pass: &mut Pass<B>,
    i: u32,
    elapsed: u64,
) -> Option<(u32, Living<B>)>
    requires { IsPassOf board.now pass.old × (i < size board.now) }
    ensures pass { StaysPassOf board.now pass.old pass.new }
    ensures none { IfNone result (Deals i elapsed None (view_of pass.old) (view_of pass.new)) }
    ensures some { IfSome result (λ t. Deals i elapsed (Some t.0) (view_of pass.old) (view_of pass.new)) }
{
    let seen = board.look(pass, i);
    if !is_full(seen) {
        return None;
    }
    let second = second_of(seen);
    if second == PREWARMED || elapsed < u64::from(second) + MOST_IDLE {
        return None;
    }
    let generation = generation_of(seen);
    match take(board, pass, i, seen) {
        Ok(living) => Some((generation, living)),
        Err(_) => None,
    }
}
