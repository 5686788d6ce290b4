// The calls of a hall, through receipts.
ghost use Rattle.std.specs.Prelude.{◌≡◌, ◌+◌, ◌≤◌, true, IfErr, IfOk};
ghost use Rattle.ow_decide.specs.declared.events.Event.TheVariants as events;
ghost use Rattle.ow_floor.specs.Calls.{HandsBack};
ghost use Rattle.ow_hall.specs.Comes.{IsFired, Outcome, Replies, collect_outcome, done_outcome, drain_outcome, next_outcome, reply_outcome, swept_outcome};
ghost use Rattle.ow_keep.specs.Allowed.{is_note};
ghost use Rattle.ow_desk.specs.Desks.{IsReceived};
ghost use Rattle.ow_desk.specs.Fitting.{Fits};
ghost use Rattle.ow_desk.specs.Notes.{WasCalled};

use crate::desk::Desk;
use crate::receipts::Receipts;
use crate::standing::Standing;
use ow_decide::{Event, Fired, HallCollected, Reply, taken_told};
use ow_floor::{AnswerRefusal, Answered, Drain, FloorRefusal, Order, Swept};
use ow_hall::{
    SweepRefusal, Undone, answered_in, collected_in, drain_in, fired_in, order_in, reply_in,
    reply_of, store_fired, swept_in, unanswered,
};
use ow_http::Request;
use ow_names::FullName;
use ow_records::Id;
use ow_row_text::Note;
use ow_traits::{Keeper, RunReply};
use ow_value::{NoMemory, Params, PlainData, Shared, copied2};
use std::alloc::Global;

impl<P: Keeper + Drop> Receipts<P> {
    /// Answers a request, as `Hall::ask` does.
    pub fn ask(
        &mut self,
        alloc: Global,
        desk: &mut Desk<P>,
        at: u64,
        request: &Request,
    ) -> Result<Reply, NoMemory>
        ensures received { (o : Outcome) × Replies result o × IsReceived P.telling desk.old desk.new at (events.Asked request.now) o self.old.notes self.new.notes }
        ensures called { (o : Outcome) × Replies result o × WasCalled at (events.Asked request.now) o self.old.notes self.new.notes }
    {
        let failed = desk.hall.store_reply(alloc)?;
        let request = Shared::new(alloc, request.copy(alloc)?)?;
        match self.perform(alloc, desk, at, Event::Asked(request)) {
            Ok(told) => Ok(reply_in(told)),
            Err(undone) => {
                let store_failed = undone.failed;
                drop(undone);
                if store_failed {
                    Ok(failed)
                } else {
                    drop(failed);
                    Err(NoMemory)
                }
            }
        }
    }

    /// Fires a trigger in the name of the office and keeps a note with the fire, as `Hall::fire` does.
    pub fn fire(
        &mut self,
        alloc: Global,
        desk: &mut Desk<P>,
        at: u64,
        trigger: &FullName,
        params: Params,
        note: &Note,
    ) -> Result<Fired, NoMemory>
        requires noted { is_note note.now ≡ true }
        ensures received { (o : Outcome) × IsFired result o × IsReceived P.telling desk.old desk.new at (events.Fired trigger.now params note.now) o self.old.notes self.new.notes }
        ensures called { (o : Outcome) × IsFired result o × WasCalled at (events.Fired trigger.now params note.now) o self.old.notes self.new.notes }
    {
        let Ok((trigger, note)) = copied2(alloc, trigger, note) else {
            drop(params);
            return Err(NoMemory);
        };
        let event = Event::Fired {
            trigger,
            params,
            note,
        };
        match self.perform(alloc, desk, at, event) {
            Ok(told) => Ok(fired_in(told)),
            Err(undone) => {
                let failed = undone.failed;
                drop(undone);
                if failed {
                    Ok(store_fired())
                } else {
                    Err(NoMemory)
                }
            }
        }
    }

    /// What became of an activation, as `Hall::collect` reports it.
    pub fn collect(
        &mut self,
        alloc: Global,
        desk: &mut Desk<P>,
        at: u64,
        id: &Id,
    ) -> Result<HallCollected, NoMemory>
        ensures received { IsReceived P.telling desk.old desk.new at (events.Collected id.now) (collect_outcome result) self.old.notes self.new.notes }
        ensures called { WasCalled at (events.Collected id.now) (collect_outcome result) self.old.notes self.new.notes }
    {
        match self.perform(alloc, desk, at, Event::Collected(*id)) {
            Ok(told) => Ok(collected_in(told)),
            Err(undone) => {
                drop(undone);
                Err(NoMemory)
            }
        }
    }

    /// What is to be done next, as `Hall::next` answers it. A board of 512 slots takes its slots and generations.
    pub fn next(&mut self, alloc: Global, desk: &mut Desk<P>, at: u64) -> Result<Order, NoMemory>
        ensures received { IsReceived P.telling desk.old desk.new at events.Next (next_outcome result) self.old.notes self.new.notes }
        ensures called { WasCalled at events.Next (next_outcome result) self.old.notes self.new.notes }
        ensures fits { IfOk result Fits }
        ensures room { self.old.room ≤ self.new.room + 1 }
    {
        match self.perform(alloc, desk, at, Event::Next) {
            Ok(told) => Ok(order_in(told)),
            Err(undone) => {
                drop(undone);
                Err(NoMemory)
            }
        }
    }

    /// The container of the run is up, as `Hall::begun` takes it. This takes no memory.
    pub fn begun(&mut self, desk: &mut Desk<P>, at: u64, run: u64) -> Result<(), FloorRefusal>
        requires { 1 ≤ self.old.room }
        ensures received { IsReceived P.telling desk.old desk.new at (events.Begun run) (done_outcome result) self.old.notes self.new.notes }
        ensures called { WasCalled at (events.Begun run) (done_outcome result) self.old.notes self.new.notes }
        ensures room { self.old.room ≤ self.new.room + 1 }
    {
        let before = Standing::of(desk.hall.book(), at);
        let taken = desk.hall.begun(at, run);
        self.note(before, Event::Begun { run }, taken_told(taken));
        taken
    }

    /// The run is lost, as `Hall::lost` takes it. This takes no memory.
    pub fn lost(&mut self, desk: &mut Desk<P>, at: u64, run: u64) -> Result<(), FloorRefusal>
        requires { 1 ≤ self.old.room }
        ensures received { IsReceived P.telling desk.old desk.new at (events.Lost run) (done_outcome result) self.old.notes self.new.notes }
        ensures called { WasCalled at (events.Lost run) (done_outcome result) self.old.notes self.new.notes }
        ensures room { self.old.room ≤ self.new.room + 1 }
    {
        let before = Standing::of(desk.hall.book(), at);
        let taken = desk.hall.lost(at, run);
        self.note(before, Event::Lost { run }, taken_told(taken));
        taken
    }

    /// The container of the slot is gone, as `Hall::gone` takes it. This takes no memory.
    pub fn gone(
        &mut self,
        desk: &mut Desk<P>,
        at: u64,
        slot: u32,
        generation: u32,
    ) -> Result<(), FloorRefusal>
        requires { 1 ≤ self.old.room }
        ensures received { IsReceived P.telling desk.old desk.new at (events.Gone slot generation) (done_outcome result) self.old.notes self.new.notes }
        ensures called { WasCalled at (events.Gone slot generation) (done_outcome result) self.old.notes self.new.notes }
        ensures room { self.old.room ≤ self.new.room + 1 }
    {
        let before = Standing::of(desk.hall.book(), at);
        let taken = desk.hall.gone(at, slot, generation);
        self.note(before, Event::Gone { slot, generation }, taken_told(taken));
        taken
    }

    /// Records the end of what the run carries, as `Hall::answered` does. A refusal hands the reply back.
    pub fn answered(
        &mut self,
        alloc: Global,
        desk: &mut Desk<P>,
        at: u64,
        run: u64,
        reply: RunReply,
    ) -> Result<Answered, AnswerRefusal>
        ensures received { IsReceived P.telling desk.old desk.new at (events.Answered run reply) (reply_outcome result) self.old.notes self.new.notes }
        ensures called { WasCalled at (events.Answered run reply) (reply_outcome result) self.old.notes self.new.notes }
        ensures back { IfErr result (λ refusal. HandsBack run reply refusal) }
        ensures room { self.old.room ≤ self.new.room + 1 }
    {
        match self.perform(alloc, desk, at, Event::Answered { run, reply }) {
            Ok(told) => answered_in(told),
            Err(Undone { event, failed }) => Err(unanswered(reply_of(event), failed)),
        }
    }

    /// Records the ends of what all late runs carry, as `Hall::sweep` does.
    pub fn sweep(
        &mut self,
        alloc: Global,
        desk: &mut Desk<P>,
        at: u64,
    ) -> Result<Swept, SweepRefusal>
        ensures received { IsReceived P.telling desk.old desk.new at events.Sweep (swept_outcome result) self.old.notes self.new.notes }
        ensures called { WasCalled at events.Sweep (swept_outcome result) self.old.notes self.new.notes }
    {
        match self.perform(alloc, desk, at, Event::Sweep) {
            Ok(told) => Ok(swept_in(told)),
            Err(undone) => {
                let failed = undone.failed;
                drop(undone);
                if failed {
                    Err(SweepRefusal::StoreFault)
                } else {
                    Err(SweepRefusal::NoMemory)
                }
            }
        }
    }

    /// Takes no more invocations from now on, as `Hall::drain` does.
    pub fn drain(&mut self, alloc: Global, desk: &mut Desk<P>, at: u64) -> Result<Drain, NoMemory>
        ensures received { IsReceived P.telling desk.old desk.new at events.Drain (drain_outcome result) self.old.notes self.new.notes }
        ensures called { WasCalled at events.Drain (drain_outcome result) self.old.notes self.new.notes }
    {
        match self.perform(alloc, desk, at, Event::Drain) {
            Ok(told) => Ok(drain_in(told)),
            Err(undone) => {
                drop(undone);
                Err(NoMemory)
            }
        }
    }
}
