// The outcome of a request, before it is answered.
ghost use Rattle.std.specs.Prelude.{◌≡◌, None, Some, IfOk};
ghost use Rattle.ow_value.specs.View.{view};
ghost use Rattle.ow_floor.specs.View.{Shown};
ghost use Rattle.ow_floor.specs.declared.activations.Plan.{Plan};
ghost use Rattle.ow_decide.specs.Asking.{ask_decision, no_content, plan_done, refusal_told};
ghost use Rattle.ow_reads.specs.Reading.{good};
ghost use Rattle.ow_decide.specs.Sight.{Sight};
ghost use Rattle.ow_decide.specs.Waiting.{invoked_reply, waits_of};
ghost use Rattle.ow_decide.specs.declared.events.Told.TheVariants as told;
ghost use Rattle.ow_decide.specs.Making.{Carries, CommitsDone, IsTaken, change_of, commit_of, done_of, one_of};

use crate::commits::Made;
use crate::events::Told;
use crate::reasons::tells_full;
use crate::replies::Reply;
use crate::step::{RowChange, Step};
use crate::waits::{Shows, Waits, invoked_reply, waits_of};
use ow_commits::Following;
use ow_floor::{Moves, Plan};
use ow_http::{Answer, Reason, refusal};
use ow_records::{Fire, Id};
use ow_rules::Rules;
use ow_tables::Ready;
use ow_value::{Bytes, NoMemory, Pairs, Val, write_val};
use std::alloc::Global;

/// The outcome of a request.
#[derive(Drop)]
pub(crate) enum Served {
    /// The outcome is settled: an answer, or a change that was made ready.
    Done(Done),
    /// This plan is to be accepted. Where a request waits for its end until a moment, `shows` says what that request is shown.
    Accepts { plan: Plan, shows: Shows },
    /// This fire is to be made, and these rules to be followed.
    Fires { fire: Fire, rules: Rules },
}

/// A refusal, a value to be shown, a change that was made ready, or nothing.
#[derive(Drop)]
pub(crate) enum Done {
    /// The request is refused, for this reason.
    Refused(Reason),
    /// This is shown.
    Shown(Val),
    /// This change was made ready, with what is shown of it and what is to be committed.
    Changed {
        ready: Ready,
        shown: Val,
        commit: Following,
    },
    /// A trigger is fired that no active rule follows: nothing happens.
    Quiet,
}

impl Done {
    /// The step of this outcome: the answer to the request, and the change.
    pub(crate) fn step(self, alloc: Global) -> Result<Step, NoMemory>
        ensures ok { IfOk result (λ s. (S : Sight) → CommitsDone self S → Carries s (ask_decision (done_of self)) S) }
        ensures change { IfOk result (λ s. s.change ≡ one_of (change_of self)) }
    {
        let Ok(told) = self.told(alloc) else {
            drop(self);
            return Err(NoMemory);
        };
        let (change, commit) = self.parts();
        Ok(Step {
            told,
            change,
            waits: Waits::Keep,
            moves: Moves::new(alloc),
            commit,
            others: None,
        })
    }

    fn told(&self, alloc: Global) -> Result<Told, NoMemory>
        ensures { IfOk result (λ t. t ≡ (ask_decision (done_of self.now)).told) }
    {
        match self {
            Done::Refused(reason) => refusal_told(alloc, reason),
            Done::Shown(value) | Done::Changed { shown: value, .. } => {
                Ok(Told::Asked(Reply::Now(good(alloc, value)?)))
            }
            Done::Quiet => Ok(Told::Asked(Reply::Now(no_content()))),
        }
    }

    // The change, and what is committed of it.
    fn parts(self) -> (RowChange, Option<Following>)
        ensures change { result.0 ≡ one_of (change_of self) }
        ensures commit { result.1 ≡ commit_of self }
    {
        match self {
            Done::Changed { ready, commit, .. } => (RowChange::One(ready), Some(commit)),
            _ => (RowChange::Nothing, None),
        }
    }
}

/// The step that answers a request whose plan, under this id, was accepted or refused. `until` is the moment until which the request
/// waits, if it waits.
pub(crate) fn accepted(
    alloc: Global,
    id: Id,
    until: Option<u64>,
    shows: Shows,
    taken: Result<Made, Reason>,
) -> Result<Step, NoMemory>
    ensures ok { IfOk result (λ s. (S : Sight) (plan : Plan) (v : Shown) → plan.id ≡ id → plan.until ≡ until → IsTaken taken plan S v → Carries s (ask_decision (plan_done S plan shows)) S) }
    ensures change { IfOk result (λ s. s.change ≡ RowChange.Nothing) }
{
    match taken {
        Ok(made) => invoked(alloc, id, until, shows, made),
        Err(reason) => Done::Refused(reason).step(alloc),
    }
}

// The step that answers a request whose plan was accepted.
fn invoked(
    alloc: Global,
    id: Id,
    until: Option<u64>,
    shows: Shows,
    made: Made,
) -> Result<Step, NoMemory>
    ensures ok { IfOk result (λ s. s ≡ record { told = told.Asked (invoked_reply id until); change = RowChange.Nothing; waits = waits_of id shows until; moves = made.moves; commit = Some made.commit; others = None }) }
{
    let Ok(reply) = invoked_reply(alloc, id, until) else {
        drop(made);
        return Err(NoMemory);
    };
    let Made { moves, commit } = made;
    Ok(Step {
        told: Told::Asked(reply),
        change: RowChange::Nothing,
        waits: waits_of(id, shows, until),
        moves,
        commit: Some(commit),
        others: None,
    })
}

// An answer without a body.
fn no_content() -> Answer
    ensures { result ≡ no_content }
{
    Answer {
        status: 204,
        headers: Pairs::new(),
        body: Bytes::new(),
    }
}

fn good(alloc: Global, value: &Val) -> Result<Answer, NoMemory>
    ensures { IfOk result (λ a. a ≡ good (view value.now)) }
{
    let body = Bytes::from_vec(write_val(alloc, value)?)?;
    Ok(Answer {
        status: 200,
        headers: Pairs::new(),
        body,
    })
}

// The answer to a refused request. Where the reason is that the book is full, it is `Told::Full`, which isn't booked.
fn refusal_told(alloc: Global, reason: &Reason) -> Result<Told, NoMemory>
    ensures { IfOk result (λ t. t ≡ refusal_told reason.now) }
{
    let answer = refusal(alloc, reason)?;
    if tells_full(reason) {
        return Ok(Told::Full(answer));
    }
    Ok(Told::Asked(Reply::Now(answer)))
}
