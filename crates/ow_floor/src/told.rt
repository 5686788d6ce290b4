// The calls of a floor that return what happened instead of noting what moved.
ghost use Rattle.std.specs.Prelude.{◌≡◌, ◌+◌, ◌++◌, length, map, IfOk, IfErr, OnOk, OnErr, IsSome, false};
ghost use Rattle.ow_floor.specs.View.{last_of};
ghost use Rattle.ow_floor.specs.Trace.{Trace, open_items, shown, shown_records};
ghost use Rattle.ow_floor.specs.Laws.{Grows, Stands};
ghost use Rattle.ow_floor.specs.Calls.{AnswersSo, GrowsBy, HandsBack, abandon_items, abandoned_ends, accept_items, answer_to, answered_by, answered_items, busy_run, happened, happened_accepted, is_store_fault, record_abandoned, sorted_by_id, swept_ends, swept_items};

use crate::{AnswerRefusal, Answered, Floor, Happened, Moves, Plan, Swept};
use ow_traits::RunReply;
use ow_value::NoMemory;
use std::alloc::Global;

impl Floor {
    /// As `accept_into`, and returns what happened.
    pub fn accept(&mut self, alloc: Global, at: u64, plan: Plan) -> Result<Happened, NoMemory>
        requires next { plan.id.count ≡ last_of self.old.now.drawn plan.id.namespace + 1 }
        ensures told { IfOk result (λ h. h ≡ happened_accepted plan.id) }
        ensures ok { OnOk result (Grows self.old.now self.new.now (λ T. accept_items at plan)) }
        ensures before { self.new.before ≡ self.old.before }
    {
        let mut moves = Moves::new(alloc);
        self.accept_into(alloc, at, plan, &mut moves)?;
        Happened::of_moves(alloc, moves.items())
    }

    /// As `replied_into`, and returns what happened. None where no slot is busy with this run.
    pub fn replied(
        &mut self,
        alloc: Global,
        at: u64,
        run: u64,
        reply: &RunReply,
    ) -> Result<Option<Answered>, NoMemory>
        ensures told { IfOk result (λ answer. (T : Trace) → Stands self.old.now T → answer ≡ answer_to at run reply.now T) }
        ensures ok { OnOk result (Grows self.old.now self.new.now (λ T. answered_items at run reply.now T)) }
        ensures live { OnErr result ((T : Trace) → Stands self.old.now T → IsSome (busy_run run (shown T))) }
        ensures before { self.new.before ≡ self.old.before }
    {
        let mut moves = Moves::new(alloc);
        let Some(recorded) = self.replied_into(alloc, at, run, reply, &mut moves)? else {
            return Ok(None);
        };
        let happened = Happened::of_moves(alloc, moves.items())?;
        Ok(Some(answered_by(run, recorded, happened)))
    }

    /// As `replied`, with the reply itself: a refusal hands it back. The floor keeps neither the parameters nor the logs.
    pub fn answered(
        &mut self,
        alloc: Global,
        at: u64,
        run: u64,
        reply: RunReply,
    ) -> Result<Answered, AnswerRefusal>
        ensures told { AnswersSo self.old.now at run reply result }
        ensures ok { GrowsBy self.old.now self.new.now (λ T. answered_items at run reply T) result }
        ensures refused { IfErr result (λ refusal. HandsBack run reply refusal) }
        ensures store { IfErr result (λ refusal. is_store_fault refusal ≡ false) }
        ensures before { self.new.before ≡ self.old.before }
    {
        match self.replied(alloc, at, run, &reply) {
            Ok(Some(answered)) => Ok(answered),
            Ok(None) => Err(AnswerRefusal::NoRun { run, reply }),
            Err(NoMemory) => Err(AnswerRefusal::NoMemory(reply)),
        }
    }

    /// As `sweep_into`, and returns what happened.
    pub fn sweep(&mut self, alloc: Global, at: u64) -> Result<Swept, NoMemory>
        ensures told { IfOk result (λ s. (T : Trace) → Stands self.old.now T → (s.happened ≡ happened (swept_ends at T)) × (s.late ≡ length (swept_ends at T))) }
        ensures ok { OnOk result (Grows self.old.now self.new.now (λ T. swept_items at T)) }
        ensures before { self.new.before ≡ self.old.before }
    {
        let mut moves = Moves::new(alloc);
        let late = self.sweep_into(alloc, at, &mut moves)?;
        let happened = Happened::of_moves(alloc, moves.items())?;
        Ok(Swept { happened, late })
    }

    /// As `abandon_into`, and returns what happened.
    pub fn abandon(&mut self, alloc: Global, at: u64) -> Result<Happened, NoMemory>
        ensures told { IfOk result (λ h. (T : Trace) → Stands self.old.now T → h ≡ happened (abandoned_ends at T)) }
        ensures ok { OnOk result (Grows self.old.now self.new.now (λ T. abandon_items at T)) }
        ensures recorded { OnOk result ((T : Trace) → Stands self.old.now T → self.new.now.records ≡ shown_records T ++ map (record_abandoned at) (sorted_by_id (open_items T))) }
        ensures before { self.new.before ≡ self.old.before }
    {
        let mut moves = Moves::new(alloc);
        self.abandon_into(alloc, at, &mut moves)?;
        Happened::of_moves(alloc, moves.items())
    }
}

// The answer to a reply of the run: it is late where a sweep recorded what the run carries.
fn answered_by(run: u64, recorded: Option<u64>, happened: Happened) -> Answered
    ensures { result ≡ answered_by run recorded happened }
{
    match recorded {
        Some(at) => Answered::Late { run, at },
        None => Answered::Recorded(happened),
    }
}
