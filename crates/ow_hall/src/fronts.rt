// What the calls return, by the answers to their events.
ghost use Rattle.std.specs.Prelude.{◌≡◌, Some, IsSome, List, ℕ};
ghost use Rattle.ow_floor.specs.declared.answers.Happening.{Happening};
ghost use Rattle.ow_decide.specs.Asking.{reply_in};
ghost use Rattle.ow_hall.specs.Comes.{Answers, replied_in, reply_outcome, store_failed};
ghost use Rattle.ow_traits.specs.declared.replies.RunReply.{RunReply};
ghost use Rattle.ow_decide.specs.declared.replies.Called.TheVariants as called;
ghost use Rattle.ow_decide.specs.declared.replies.Deployed.TheVariants as deployed;
ghost use Rattle.ow_decide.specs.declared.replies.Fired.TheVariants as fired;

use ow_decide::{Called, Deployed, Event, Fired, HallCollected, Reply, Told};
use ow_floor::{AnswerRefusal, Answered, Drain, Happened, Order, Swept};
use ow_http::{Reason, ServiceRefusal};
use ow_traits::RunReply;

/// The reply to a request. An answer that the book is full looks like any other.
pub fn reply_in(told: Told) -> Reply
    requires { IsSome (reply_in told) }
    ensures { reply_in told ≡ Some result }
{
    match told {
        Told::Asked(reply) => reply,
        Told::Full(answer) => Reply::Now(answer),
        _ => unreachable!(),
    }
}

/// What a call of the office is answered.
pub(crate) fn called_in(told: Told) -> Called
    requires { (c : Called) × (told ≡ Told.Called c) }
    ensures { told ≡ Told.Called result }
{
    match told {
        Told::Called(called) => called,
        _ => unreachable!(),
    }
}

/// What a call of the office is answered where the store fails.
pub(crate) fn store_called() -> Called
    ensures { result ≡ called.Refused store_failed }
{
    Called::Refused(Reason::Service(ServiceRefusal::StoreFault))
}

/// What a fire of the office is answered.
pub fn fired_in(told: Told) -> Fired
    requires { (f : Fired) × (told ≡ Told.Fired f) }
    ensures { told ≡ Told.Fired result }
{
    match told {
        Told::Fired(fired) => fired,
        _ => unreachable!(),
    }
}

/// What a fire of the office is answered where the store fails.
pub fn store_fired() -> Fired
    ensures { result ≡ fired.Refused store_failed }
{
    Fired::Refused(Reason::Service(ServiceRefusal::StoreFault))
}

/// What a deployment is answered.
pub(crate) fn deployed_in(told: Told) -> Deployed
    requires { (d : Deployed) × (told ≡ Told.Deployed d) }
    ensures { told ≡ Told.Deployed result }
{
    match told {
        Told::Deployed(deployed) => deployed,
        _ => unreachable!(),
    }
}

/// What a deployment is answered where the store fails.
pub(crate) fn store_deployed() -> Deployed
    ensures { result ≡ deployed.Refused 0 store_failed }
{
    Deployed::Refused {
        place: 0,
        reason: Reason::Service(ServiceRefusal::StoreFault),
    }
}

/// The order for a runner that requests one.
pub fn order_in(told: Told) -> Order
    requires { (o : Order) × (told ≡ Told.Next o) }
    ensures { told ≡ Told.Next result }
{
    match told {
        Told::Next(order) => order,
        _ => unreachable!(),
    }
}

/// The answer to a runner's reply.
pub fn answered_in(told: Told) -> Result<Answered, AnswerRefusal>
    requires { IsSome (replied_in told) }
    ensures { Answers told ≡ reply_outcome result }
{
    match told {
        Told::Answered(answered) => Ok(answered),
        Told::NoRun { run, reply } => Err(AnswerRefusal::NoRun { run, reply }),
        _ => unreachable!(),
    }
}

/// What is answered to a sweep.
pub fn swept_in(told: Told) -> Swept
    requires { (s : Swept) × (told ≡ Told.Swept s) }
    ensures { told ≡ Told.Swept result }
{
    match told {
        Told::Swept(swept) => swept,
        _ => unreachable!(),
    }
}

/// What is answered to a reopening.
pub(crate) fn reopened_in(told: Told) -> Happened
    requires { (hs : List Happening) × (told ≡ Told.Reopened hs) }
    ensures { told ≡ Told.Reopened result }
{
    match told {
        Told::Reopened(happened) => happened,
        _ => unreachable!(),
    }
}

/// What is answered of an activation that is collected.
pub fn collected_in(told: Told) -> HallCollected
    requires { (c : HallCollected) × (told ≡ Told.Collected c) }
    ensures { told ≡ Told.Collected result }
{
    match told {
        Told::Collected(collected) => collected,
        _ => unreachable!(),
    }
}

/// The answer to the office's drain.
pub fn drain_in(told: Told) -> Drain
    requires { (d : Drain) × (told ≡ Told.Drain d) }
    ensures { told ≡ Told.Drain result }
{
    match told {
        Told::Drain(drain) => drain,
        _ => unreachable!(),
    }
}

/// The reply of a runner, to be handed back.
pub fn reply_of(event: Event) -> RunReply
    requires { (run : ℕ) × ((reply : RunReply) × (event ≡ Event.Answered run reply)) }
    ensures { (run : ℕ) × (event ≡ Event.Answered run result) }
{
    match event {
        Event::Answered { reply, .. } => reply,
        _ => unreachable!(),
    }
}
