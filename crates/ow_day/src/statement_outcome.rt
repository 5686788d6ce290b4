// The outcomes of statements.
use ow_decide::{Called, HallCollected, Reply};
use ow_floor::{Answered, Drain, FloorRefusal, Happened, Order, Swept};
use ow_http::Reason;
use ow_invoker::Turned;

/// The outcome of a statement. Its lines are a function of this.
#[derive(Drop)]
pub enum StatementOutcome {
    /// It has no answer.
    Silent,
    /// Why the words of a call result in no event.
    Refused(Reason),
    /// What is answered to the bytes of an `ask`.
    Asked(Reply),
    /// What became of a call.
    Called(Called),
    /// What is to be done.
    Ordered(Order),
    /// What was to be done in a turn, and the outcome.
    Turned(Turned),
    /// What became of a runner's reply.
    Answered(Answered),
    /// No live run has the number to which a runner replies.
    NoRun(u64),
    /// The report on a container was accepted.
    Taken,
    /// Why it was not.
    Denied(FloorRefusal),
    /// What a sweep did.
    Swept(Swept),
    /// What is answered of an activation that is collected.
    Collected(HallCollected),
    /// Whether all that was accepted has ended.
    Drained(Drain),
    /// What a reopening recorded.
    Reopened(Happened),
    /// The store failed, and nothing has happened.
    StoreFault,
}
