// The events that reach the service, and their answers.
use crate::replies::{Called, Deployed, Fired, HallCollected, Reply};
use ow_entity::Drafts;
use ow_floor::{Answered, Drain, FloorRefusal, Happened, Order, Swept};
use ow_http::{Answer, Request};
use ow_names::FullName;
use ow_records::Id;
use ow_row_text::Note;
use ow_traits::{Rows, RunReply};
use ow_value::{NoMemory, Params, PlainData, Shared, copied2};
use std::alloc::Global;

/// An event that reaches the service from outside.
#[derive(Drop)]
pub enum Event {
    /// The service is opened over the kept rows.
    Opened(Rows),
    /// A client makes a request.
    Asked(Shared<Request>),
    /// The office itself calls an action.
    Called {
        name: FullName,
        params: Params,
    },
    /// The office itself fires a trigger. The note is kept, unless the fire is refused.
    Fired {
        trigger: FullName,
        params: Params,
        note: Note,
    },
    /// The office itself puts entities, all or none.
    Deployed(Drafts),
    /// A runner asks what to run.
    Next,
    /// The container of a run is up, and its action initialised.
    Begun {
        run: u64,
    },
    /// A runner replies to a run.
    Answered {
        run: u64,
        reply: RunReply,
    },
    /// A run is lost: no reply of it will come.
    Lost {
        run: u64,
    },
    /// The container of a slot is gone.
    Gone {
        slot: u32,
        generation: u32,
    },
    /// What late runs carry is to end.
    Sweep,
    /// What became of an activation is requested. A request waits for the end of that activation.
    Collected(Id),
    /// The office asks whether all has ended, and takes no more calls.
    Drain,
    /// The service starts again over what it keeps. No earlier run is live any more.
    Reopened,
}

/// The answer to an event, also where it isn't booked.
#[derive(Drop)]
pub enum Told {
    /// To an opening: what was recorded.
    Opened(Happened),
    /// To a request.
    Asked(Reply),
    /// To a request that finds the book full. It isn't booked.
    Full(Answer),
    /// To a call of the office.
    Called(Called),
    /// To a fire of the office.
    Fired(Fired),
    /// To a deployment.
    Deployed(Deployed),
    /// To a runner that asks.
    Next(Order),
    /// To the reply of a runner.
    Answered(Answered),
    /// To the reply of a runner to a run that isn't live, which is handed back. It isn't booked.
    NoRun { run: u64, reply: RunReply },
    /// To a beginning, a loss or a going that was accepted.
    Done,
    /// To a beginning, a loss or a going that was refused. It isn't booked.
    Refused(FloorRefusal),
    /// To a sweep.
    Swept(Swept),
    /// To the collection of an activation. It isn't booked where there is no answer yet.
    Collected(HallCollected),
    /// To the office that drains.
    Drain(Drain),
    /// To a reopening: what was recorded.
    Reopened(Happened),
}

impl PlainData for Event {
    fn same(&self, other: &Event) -> bool {
        match (self, other) {
            (Event::Opened(a), Event::Opened(b)) => a.same(b),
            (Event::Asked(a), Event::Asked(b)) => a.same(b),
            (
                Event::Called { name, params },
                Event::Called {
                    name: other_name,
                    params: other_params,
                },
            ) => name.same(other_name) && params.same(other_params),
            (
                Event::Fired {
                    trigger,
                    params,
                    note,
                },
                Event::Fired {
                    trigger: other_trigger,
                    params: other_params,
                    note: other_note,
                },
            ) => trigger.same(other_trigger) && params.same(other_params) && note.same(other_note),
            (Event::Deployed(a), Event::Deployed(b)) => a.same(b),
            (
                Event::Answered { run, reply },
                Event::Answered {
                    run: other_run,
                    reply: other_reply,
                },
            ) => run == other_run && reply.same(other_reply),
            (Event::Begun { run }, Event::Begun { run: other_run })
            | (Event::Lost { run }, Event::Lost { run: other_run }) => run == other_run,
            (
                Event::Gone { slot, generation },
                Event::Gone {
                    slot: other_slot,
                    generation: other_generation,
                },
            ) => slot == other_slot && generation == other_generation,
            (Event::Collected(a), Event::Collected(b)) => a == b,
            (Event::Next, Event::Next)
            | (Event::Sweep, Event::Sweep)
            | (Event::Drain, Event::Drain)
            | (Event::Reopened, Event::Reopened) => true,
            _ => false,
        }
    }

    fn copy(&self, alloc: Global) -> Result<Event, NoMemory> {
        match self {
            Event::Opened(rows) => Ok(Event::Opened(rows.copy(alloc)?)),
            Event::Asked(request) => Ok(Event::Asked(request.copy(alloc)?)),
            Event::Called { name, params } => {
                let name = name.copy(alloc)?;
                let params = params.copy(alloc)?;
                Ok(Event::Called { name, params })
            }
            Event::Fired {
                trigger,
                params,
                note,
            } => {
                let trigger = trigger.copy(alloc)?;
                let (params, note) = copied2(alloc, params, note)?;
                Ok(Event::Fired {
                    trigger,
                    params,
                    note,
                })
            }
            Event::Deployed(drafts) => Ok(Event::Deployed(drafts.copy(alloc)?)),
            Event::Next => Ok(Event::Next),
            Event::Begun { run } => Ok(Event::Begun { run: *run }),
            Event::Answered { run, reply } => Ok(Event::Answered {
                run: *run,
                reply: reply.copy(alloc)?,
            }),
            Event::Lost { run } => Ok(Event::Lost { run: *run }),
            Event::Gone { slot, generation } => Ok(Event::Gone {
                slot: *slot,
                generation: *generation,
            }),
            Event::Sweep => Ok(Event::Sweep),
            Event::Collected(id) => Ok(Event::Collected(*id)),
            Event::Drain => Ok(Event::Drain),
            Event::Reopened => Ok(Event::Reopened),
        }
    }
}

impl PlainData for Told {
    fn same(&self, other: &Told) -> bool {
        match (self, other) {
            (Told::Opened(a), Told::Opened(b)) => a.same(b),
            (Told::Asked(a), Told::Asked(b)) => a.same(b),
            (Told::Full(a), Told::Full(b)) => a.same(b),
            (Told::Called(a), Told::Called(b)) => a.same(b),
            (Told::Fired(a), Told::Fired(b)) => a.same(b),
            (Told::Deployed(a), Told::Deployed(b)) => a.same(b),
            (Told::Next(a), Told::Next(b)) => a.same(b),
            (Told::Answered(a), Told::Answered(b)) => a.same(b),
            (
                Told::NoRun { run, reply },
                Told::NoRun {
                    run: other_run,
                    reply: other_reply,
                },
            ) => run == other_run && reply.same(other_reply),
            (Told::Done, Told::Done) => true,
            (Told::Refused(a), Told::Refused(b)) => a == b,
            (Told::Swept(a), Told::Swept(b)) => a.same(b),
            (Told::Collected(a), Told::Collected(b)) => a.same(b),
            (Told::Drain(a), Told::Drain(b)) => a == b,
            (Told::Reopened(a), Told::Reopened(b)) => a.same(b),
            _ => false,
        }
    }

    fn copy(&self, alloc: Global) -> Result<Told, NoMemory> {
        match self {
            Told::Opened(happened) => Ok(Told::Opened(happened.copy(alloc)?)),
            Told::Asked(reply) => Ok(Told::Asked(reply.copy(alloc)?)),
            Told::Full(answer) => Ok(Told::Full(answer.copy(alloc)?)),
            Told::Called(called) => Ok(Told::Called(called.copy(alloc)?)),
            Told::Fired(fired) => Ok(Told::Fired(fired.copy(alloc)?)),
            Told::Deployed(deployed) => Ok(Told::Deployed(deployed.copy(alloc)?)),
            Told::Next(order) => Ok(Told::Next(order.copy(alloc)?)),
            Told::Answered(answered) => Ok(Told::Answered(answered.copy(alloc)?)),
            Told::NoRun { run, reply } => Ok(Told::NoRun {
                run: *run,
                reply: reply.copy(alloc)?,
            }),
            Told::Done => Ok(Told::Done),
            Told::Refused(refusal) => Ok(Told::Refused(*refusal)),
            Told::Swept(swept) => Ok(Told::Swept(swept.copy(alloc)?)),
            Told::Collected(collected) => Ok(Told::Collected(collected.copy(alloc)?)),
            Told::Drain(drain) => Ok(Told::Drain(*drain)),
            Told::Reopened(happened) => Ok(Told::Reopened(happened.copy(alloc)?)),
        }
    }
}
