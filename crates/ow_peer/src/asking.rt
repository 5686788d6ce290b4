// A request, asked of the hall up to its answer.
ghost use Rattle.std.specs.Prelude.{◌≡◌};
ghost use Rattle.ow_decide.specs.declared.events.Event.TheVariants as events;
ghost use Rattle.ow_hall.specs.Comes.{collect_outcome};
ghost use Rattle.ow_desk.specs.Notes.{CalledBy};
ghost use Rattle.ow_peer.specs.Answered.{AnswersTo, AsksFor, Collects};

use ow_decide::{HallCollected, Reply};
use ow_desk::{Desk, Receipts};
use ow_http::{Answer, Request};
use ow_records::Id;
use ow_threads::{Bell, Clock, hold};
use ow_traits::Keeper;
use ow_value::NoMemory;
use std::alloc::Global;
use std::sync::{Mutex, Wait};

/// How long a request that waits for an end pauses between two looks, in milliseconds. A worker's ring ends the pause.
const PAUSE: u64 = 10;

/// The status of what was accepted and isn't waited for.
const ACCEPTED: u16 = 202;

/// The answer to a request. One that waits for an end is collected again and again until it is answered.
pub(crate) fn answer_of<H: Wait, P: Keeper + Drop, C: Clock>(
    rt: &H,
    alloc: Global,
    desk: &Mutex<Desk<P>>,
    clock: &C,
    notes: &mut Receipts<P>,
    request: &Request,
) -> Result<Answer, NoMemory>
    ensures { AnswersTo (C.tells clock.now) request.now notes.old.notes notes.new.notes result }
{
    match ask(rt, alloc, desk, clock, notes, request) {
        Ok(Reply::Now(answer)) => {
            if answer.status == ACCEPTED {
                clock.ring(Bell::Work);
            }
            Ok(answer)
        }
        Ok(Reply::Waiting { id, .. }) => {
            clock.ring(Bell::Work);
            collect_on(rt, alloc, desk, clock, notes, &id)
        }
        Err(e) => Err(e),
    }
}

// What the hall answers at once. The lock is free again after this call.
fn ask<H: Wait, P: Keeper + Drop, C: Clock>(
    rt: &H,
    alloc: Global,
    desk: &Mutex<Desk<P>>,
    clock: &C,
    notes: &mut Receipts<P>,
    request: &Request,
) -> Result<Reply, NoMemory>
    ensures { AsksFor (C.tells clock.now) request.now result notes.old.notes notes.new.notes }
{
    notes.ask(alloc, &mut *hold(rt, desk), clock.now(), request)
}

// What became of an activation. The lock is free again after this call.
fn collect<H: Wait, P: Keeper + Drop, C: Clock>(
    rt: &H,
    alloc: Global,
    desk: &Mutex<Desk<P>>,
    clock: &C,
    notes: &mut Receipts<P>,
    id: &Id,
) -> Result<HallCollected, NoMemory>
    ensures { CalledBy (C.tells clock.now) (events.Collected id.now) (collect_outcome result) notes.old.notes notes.new.notes }
{
    notes.collect(alloc, &mut *hold(rt, desk), clock.now(), id)
}

// The answer of an activation, or that its request's time is over.
fn collect_on<H: Wait, P: Keeper + Drop, C: Clock>(
    rt: &H,
    alloc: Global,
    desk: &Mutex<Desk<P>>,
    clock: &C,
    notes: &mut Receipts<P>,
    id: &Id,
) -> Result<Answer, NoMemory>
    ensures { Collects (C.tells clock.now) id.now notes.old.notes notes.new.notes result }
{
    for _ in rt.forever() {
        clock.pause(Bell::End(id.count), PAUSE);
        match collect(rt, alloc, desk, clock, notes, id) {
            Ok(HallCollected::Reply(answer)) => return Ok(answer),
            Ok(HallCollected::NotYet) => {}
            Ok(HallCollected::Unknown) => {}
            Err(e) => return Err(e),
        }
    }
    Err(NoMemory)
}
