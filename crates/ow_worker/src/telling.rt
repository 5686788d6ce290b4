// What the hall is asked about an order, and what is reported to it.
ghost use Rattle.std.specs.Prelude.{◌≡◌, ◌≤◌, ◌+◌, IfErr, IfOk, OnOk, OnErr};
ghost use Rattle.ow_decide.specs.declared.events.Event.TheVariants as events;
ghost use Rattle.ow_floor.specs.Calls.{HandsBack};
ghost use Rattle.ow_hall.specs.Comes.{reply_outcome};
ghost use Rattle.ow_desk.specs.Fitting.{Fits};
ghost use Rattle.ow_desk.specs.Notes.{CalledBy};
ghost use Rattle.ow_worker.specs.Noted.{LostAndGone, GoneNoted, LostNoted, NextNoted};
ghost use Rattle.ow_worker.specs.Turned.{ToldBegun};

use ow_desk::{Desk, Receipts};
use ow_floor::{AnswerRefusal, Answered, Happening, Order, RunOrder};
use ow_slots::Start;
use ow_threads::{Bell, Clock, hold};
use ow_traits::{Keeper, RunReply};
use ow_value::NoMemory;
use std::alloc::Global;
use std::sync::{Mutex, Wait};

/// The receipts that a turn may need: that of its order, and one for each slot of the greatest pool.
const MOST_RECEIPTS: u32 = 513;

/// What is to be done. The memory for the receipts of all that may follow is taken first.
pub(crate) fn take_order<H: Wait, P: Keeper + Drop, C: Clock>(
    rt: &H,
    alloc: Global,
    desk: &Mutex<Desk<P>>,
    clock: &C,
    notes: &mut Receipts<P>,
) -> Result<Order, NoMemory>
    ensures order { IfOk result (λ order. NextNoted (C.tells clock.now) notes.old.notes notes.new.notes order) }
    ensures fits { IfOk result Fits }
    ensures room { OnOk result (512 ≤ notes.new.room) }
    ensures wants { OnErr result (notes.new.notes ≡ notes.old.notes) }
{
    notes.reserve(alloc, MOST_RECEIPTS)?;
    notes.next(alloc, &mut *hold(rt, desk), clock.now())
}

/// The container of a start that isn't warm is up and initialised.
pub(crate) fn tell_begun<H: Wait, P: Keeper + Drop, C: Clock>(
    rt: &H,
    desk: &Mutex<Desk<P>>,
    clock: &C,
    notes: &mut Receipts<P>,
    order: &RunOrder,
)
    requires { 1 ≤ notes.old.room }
    ensures begun { ToldBegun (C.tells clock.now) order.now notes.old.notes notes.new.notes }
    ensures room { notes.old.room ≤ notes.new.room + 1 }
{
    if order.start != Start::Warm {
        let _ = notes.begun(&mut *hold(rt, desk), clock.now(), order.run);
    }
}

/// The run is lost.
pub(crate) fn tell_lost<H: Wait, P: Keeper + Drop, C: Clock>(
    rt: &H,
    desk: &Mutex<Desk<P>>,
    clock: &C,
    notes: &mut Receipts<P>,
    run: u64,
)
    requires { 1 ≤ notes.old.room }
    ensures lost { LostNoted (C.tells clock.now) run notes.old.notes notes.new.notes }
    ensures room { notes.old.room ≤ notes.new.room + 1 }
{
    let _ = notes.lost(&mut *hold(rt, desk), clock.now(), run);
}

/// The container of the slot is gone.
pub(crate) fn tell_gone<H: Wait, P: Keeper + Drop, C: Clock>(
    rt: &H,
    desk: &Mutex<Desk<P>>,
    clock: &C,
    notes: &mut Receipts<P>,
    slot: u32,
    generation: u32,
)
    requires { 1 ≤ notes.old.room }
    ensures gone { GoneNoted (C.tells clock.now) slot generation notes.old.notes notes.new.notes }
    ensures room { notes.old.room ≤ notes.new.room + 1 }
{
    let _ = notes.gone(&mut *hold(rt, desk), clock.now(), slot, generation);
}

/// Reports the runner's reply. A reply that isn't taken is handed back. The lock is free again after this call, and the threads
/// that wait for one of the recorded ends are woken.
pub(crate) fn tell_reply<H: Wait, P: Keeper + Drop, C: Clock>(
    rt: &H,
    alloc: Global,
    desk: &Mutex<Desk<P>>,
    clock: &C,
    notes: &mut Receipts<P>,
    run: u64,
    reply: RunReply,
) -> Result<Answered, AnswerRefusal>
    ensures called { CalledBy (C.tells clock.now) (events.Answered run reply) (reply_outcome result) notes.old.notes notes.new.notes }
    ensures back { IfErr result (λ refusal. HandsBack run reply refusal) }
    ensures room { notes.old.room ≤ notes.new.room + 1 }
{
    let answered = notes.answered(alloc, &mut *hold(rt, desk), clock.now(), run, reply);
    ring_ends(clock, &answered);
    answered
}

// Wakes who waits for one of these ends.
fn ring_ends<C: Clock>(clock: &C, answered: &Result<Answered, AnswerRefusal>) {
    if let Ok(Answered::Recorded(happened)) = answered {
        for happening in happened.items() {
            if let Happening::Recorded { id, .. } = happening {
                clock.ring(Bell::End(id.count));
            }
        }
    }
}

/// The run is lost, and so is its container.
pub(crate) fn give_up<H: Wait, P: Keeper + Drop, C: Clock>(
    rt: &H,
    desk: &Mutex<Desk<P>>,
    clock: &C,
    notes: &mut Receipts<P>,
    run: u64,
    slot: u32,
    generation: u32,
)
    requires { 2 ≤ notes.old.room }
    ensures { LostAndGone (C.tells clock.now) run slot generation notes.old.notes notes.new.notes }
{
    tell_lost(rt, desk, clock, notes, run);
    tell_gone(rt, desk, clock, notes, slot, generation);
}
