// The floor and its calls. Each adds items to the trace. What was before a hold is kept until it is settled.
ghost use Rattle.std.specs.Prelude.{◌≡◌, ◌+◌, ◌-◌, ◌<◌, ◌≤◌, ◌++◌, [], ◌∷◌, length, find, map, None, Some, true, false, option_copied, IfOk, IfSome, OnOk, OnErr, IfErr, IsSome};
ghost use Rattle.std.specs.List.{AllByRecursion};
ghost use Rattle.ow_records.specs.Known.{IsId, IsKnown, IsKnownUnrecorded};
ghost use Rattle.ow_records.specs.Unrecorded.{unrecorded_of};
ghost use Rattle.ow_floor.specs.View.{archived_on, is_of, last_of};
ghost use Rattle.ow_floor.specs.Frames.{is_frame, own_of};
ghost use Rattle.ow_floor.specs.Trace.{Drained, Opened, Trace, drawn, frames, is_draining, last, latest, open_items, open_task, shown, shown_records, task_by};
ghost use Rattle.ow_floor.specs.Growth.{AreResumable, IsFresh};
ghost use Rattle.ow_floor.specs.Laws.{Grows, Stands};
ghost use Rattle.ow_traits.specs.Prewarms.{AreWantsSized};
ghost use Rattle.ow_floor.specs.Collecting.{collected, collected_by, collection_of};
ghost use Rattle.ow_floor.specs.Owed.{owed, owed_of};
ghost use Rattle.ow_floor.specs.Calls.{AllRecorded, HasWork, abandon_items, accept_items, activation_of, answered_items, archive_items, begun_answer, begun_items, busy_run, compose_items, drain_answer, drain_by, draw_items, due_by, due_in, fire_items, gone_answer, gone_items, leaves_alive, lost_answer, lost_items, moved, next_items, next_order, note_swept_items, overrun_first, has_items, record_abandoned, reply_recorded, resume_items, sorted_by_id, swept_ends, swept_items, unrecorded_by, unrecorded_in};

use crate::activations::part_of;
use crate::ends::{abandon, end_composite, end_first_late, end_run, sweep};
use crate::known::known_tasks;
use crate::lists::Lists;
use crate::orders::next_order;
use crate::places::last_of;
use crate::resuming::{open_task, records_of, unrecorded};
use crate::runs::{begin_run, generation_in, lose_run, recorded_in};
use crate::{Collected, Drain, FloorRefusal, Moves, Order, Plan};
use ow_packages::Effective;
use ow_records::{
    Activation, Form, Frame, Id, ReadyRecord, Record, Records, Response, Unrecorded, known_ids,
    known_records,
};
use ow_traits::{Prewarms, RunReply};
use ow_value::{NoMemory, Params, Scratch, Shared};
use std::alloc::Global;
use std::marker::Model;

/// What was accepted: the activations that have not ended, by acceptance, the live runs, and the records. First come the records that were
/// taken over from an earlier run, and then the records of the activations that have ended, by their ends. Of an ended activation the floor
/// holds its id, its record until it is archived, and the moment until which its request waits, where one waits and the activation was
/// accepted since the last opening.
#[derive(Drop)]
pub struct Floor {
    lists: Lists,
    // In which answers are read.
    scratch: Scratch,
}

impl Model for Floor {
    ghost use Rattle.std.specs.Coded.{codes};
    ghost use Rattle.ow_value.specs.Code.{value_code};
    ghost use Rattle.ow_floor.specs.View.{FloorView};
    ghost use Rattle.ow_floor.specs.Store.{IsGood, IsGoodPast, show, show_past};

    ghost Value = { FloorView };

    ghost coded = { Prim.hlevel (codes, value_code) };

    ghost view = { λ f. record { now = show f.lists.now; before = show_past f.lists.past } };

    ghost invariant = { λ f. IsGood f.lists.now × IsGoodPast f.lists.past };
}

impl Floor {
    /// A floor where nothing has happened. Its containers hold at most `pool` MB together. `wants` are the containers that are wanted ahead
    /// of runs; each has the memory of some action. The floor isn't held.
    pub fn new(alloc: Global, pool: u32, wants: Prewarms) -> Result<Floor, NoMemory>
        requires { AreWantsSized wants }
        ensures stands { IfOk result (λ floor. Stands floor.now (Opened pool wants ∷ [])) }
        ensures before { IfOk result (λ floor. floor.before ≡ None) }
    {
        let lists = Lists::new(alloc, pool, wants)?;
        Ok(Floor {
            lists,
            scratch: Scratch::new(alloc),
        })
    }

    /// The last count of an id that was accepted in this namespace, 0 at first.
    pub fn last(&self, namespace: u64) -> u64
        ensures value { result ≡ last_of self.now.now.drawn namespace }
        ensures trace { (T : Trace) → Stands self.now.now T → result ≡ last T namespace }
    {
        last_of(self.lists.drawn(), namespace)
    }

    /// The moment of the newest thing that happened, in milliseconds, 0 at first.
    pub fn latest(&self) -> u64
        ensures value { result ≡ self.now.now.latest }
        ensures trace { (T : Trace) → Stands self.now.now T → result ≡ latest T }
    {
        self.lists.marks().latest
    }

    /// Whether the last of `drain` and `abandon` was `drain`.
    pub fn is_draining(&self) -> bool
        ensures value { result ≡ self.now.now.draining }
        ensures trace { (T : Trace) → Stands self.now.now T → result ≡ is_draining T }
    {
        self.lists.marks().draining
    }

    /// How many activations have not ended.
    pub fn busy(&self) -> u64
        ensures value { result ≡ length self.now.now.open_items }
        ensures trace { (T : Trace) → Stands self.now.now T → result ≡ length (open_items T) }
    {
        (self.lists.spots().len() - self.lists.ended()) as u64
    }

    /// How many entries are owed: how many beginnings, replies or losses, and goings may still come.
    pub fn owed(&self) -> usize
        ensures value { result ≡ owed_of self.now.now }
        ensures trace { (T : Trace) → Stands self.now.now T → result ≡ owed T }
    {
        self.lists.marks().owed
    }

    /// The records that were taken over, and after them the records of the activations that have ended, by their ends. Records that were
    /// archived aren't among them.
    pub fn records(&self) -> &Records
        ensures { result.now.items ≡ self.now.now.records }
    {
        self.lists.records()
    }

    /// Makes known what the types guarantee of the activations that have not ended, of the last ids and of the records. It looks at all of
    /// them.
    pub fn known_parts(&self)
        ensures unended { (T : Trace) → Stands self.now.now T → AllByRecursion (λ o. IsKnownUnrecorded (unrecorded_of o.task)) (open_items T) }
        ensures drawn { (T : Trace) → Stands self.now.now T → AllByRecursion IsId (drawn T) }
        ensures records { (T : Trace) → Stands self.now.now T → AllByRecursion IsKnown (shown_records T) }
    {
        known_tasks(self.lists.tasks());
        known_ids(self.lists.drawn());
        known_records(self.lists.records().items());
    }

    /// Copies of the records whose end is at most `until`, in milliseconds, by their ids: those that `archive` takes out.
    pub fn due(&self, until: u64) -> Result<Vec<Record>, NoMemory>
        ensures value { IfOk result (λ rs. rs.items ≡ due_by until self.now.now.records) }
        ensures trace { IfOk result (λ rs. (T : Trace) → Stands self.now.now T → rs.items ≡ due_in until T) }
    {
        self.lists.records().due(until)
    }

    /// The end of an activation for which a request waits: its record, where it has ended and wasn't archived. It takes no memory.
    pub fn collect(&self, at: u64, id: &Id) -> Result<Collected<'_>, FloorRefusal>
        ensures told { (T : Trace) → Stands self.now.now T → collection_of result ≡ collected at id.now T }
        ensures unknown { IfErr result (λ refusal. refusal ≡ FloorRefusal.NotFound) }
    {
        collected_by(at, self.lists.until(*id), self.lists.record_of(*id))
    }

    /// What is kept of the activation of this id, where it was accepted and hasn't ended.
    pub fn unrecorded(&self, alloc: Global, id: &Id) -> Result<Option<Unrecorded>, NoMemory>
        ensures value { IfOk result (λ u. u ≡ unrecorded_by (find (is_of id.now) self.now.now.open_items)) }
        ensures trace { IfOk result (λ u. (T : Trace) → Stands self.now.now T → u ≡ unrecorded_in id.now T) }
    {
        unrecorded(alloc, &self.lists, *id)
    }

    /// The activation of this id, where it was accepted and hasn't ended. It takes no memory.
    pub fn activation(&self, id: &Id) -> Option<&Activation>
        ensures value { option_copied result ≡ task_by (find (is_of id.now) self.now.now.open_items) }
        ensures trace { (T : Trace) → Stands self.now.now T → option_copied result ≡ open_task T id.now }
    {
        open_task(&self.lists, *id)
    }

    /// From now on the state of this moment is kept. It takes no memory, and nothing is copied.
    pub fn hold(&mut self)
        ensures now { self.new.now ≡ self.old.now }
        ensures held { self.new.before ≡ Some self.old.now }
    {
        self.lists.hold();
    }

    /// Ends the hold. With `keep` what was done since stays, and without it is taken back. It takes no memory.
    pub fn settle(&mut self, keep: bool)
        ensures kept { keep ≡ true → self.new.now ≡ self.old.now }
        ensures back { keep ≡ false → IfSome self.old.before (λ v. self.new.now ≡ v) }
        ensures done { self.new.before ≡ None }
    {
        if keep {
            self.lists.keep();
        } else {
            self.lists.take_back();
        }
    }

    /// Takes back what was done since the hold, which goes on. It takes no memory.
    pub fn back(&mut self)
        ensures now { IfSome self.old.before (λ v. self.new.now ≡ v) }
        ensures free { self.old.before ≡ None → self.new.now ≡ self.old.now }
        ensures before { self.new.before ≡ self.old.before }
    {
        self.lists.back();
    }

    /// Takes over what is known of an earlier run: the last ids of its namespaces, and its records. Nothing has happened to an activation
    /// yet. Without memory both are dropped.
    pub fn resume(
        &mut self,
        alloc: Global,
        counts: Vec<Id>,
        records: Vec<Record>,
    ) -> Result<(), NoMemory>
        requires fresh { IsFresh self.old.now }
        requires resumable { AreResumable counts.items records.items }
        requires free { self.old.before ≡ None }
        ensures ok { OnOk result (Grows self.old.now self.new.now (λ T. resume_items counts.items records.items)) }
        ensures err { OnErr result (self.new.now ≡ self.old.now) }
        ensures before { self.new.before ≡ None }
    {
        let records = records_of(alloc, records)?;
        self.lists.resume(counts, records);
        Ok(())
    }

    /// Accepts an activation, which waits from now on, and notes that it moved. `at` is the moment, in milliseconds. Without
    /// memory the plan is dropped.
    pub fn accept_into(
        &mut self,
        alloc: Global,
        at: u64,
        plan: Plan,
        moves: &mut Moves,
    ) -> Result<(), NoMemory>
        requires next { plan.id.count ≡ last_of self.old.now.drawn plan.id.namespace + 1 }
        ensures moved { OnOk result (moves.new ≡ moves.old ++ moved (accept_items at plan)) }
        ensures ok { OnOk result (Grows self.old.now self.new.now (λ T. accept_items at plan)) }
        ensures firing { OnOk result (self.new.now.firing ≡ self.old.now.firing) }
        ensures before { self.new.before ≡ self.old.before }
    {
        let task = Shared::new(alloc, activation_of(at, plan))?;
        moves.note_accepted(alloc, &task)?;
        self.lists.frame_accepted(alloc, part_of(task.get()))?;
        self.lists.accept(task)?;
        Ok(())
    }

    /// Draws an id for a fire at this moment, in milliseconds, and notes it. The fire is recorded by `fire`; what is accepted in between
    /// has later ids.
    pub fn draw(&mut self, at: u64, id: Id, moves: &mut Moves) -> Result<(), NoMemory>
        requires next { id.count ≡ last_of self.old.now.drawn id.namespace + 1 }
        ensures moved { OnOk result (moves.new ≡ moves.old ++ moved (draw_items at id)) }
        ensures ok { OnOk result (Grows self.old.now self.new.now (λ T. draw_items at id)) }
        ensures firing { OnOk result (self.new.now.firing ≡ Some id) }
        ensures before { self.new.before ≡ self.old.before }
    {
        self.lists.draw(at, id)?;
        moves.note_drawn(id)
    }

    /// Records the fire whose id was drawn last, and notes it. Without memory the record is dropped.
    pub fn fire(&mut self, alloc: Global, fired: Record, moves: &mut Moves) -> Result<(), NoMemory>
        requires drawn { self.old.now.firing ≡ Some fired.id }
        ensures moved { OnOk result (moves.new ≡ moves.old ++ moved (fire_items fired)) }
        ensures ok { OnOk result (Grows self.old.now self.new.now (λ T. fire_items fired)) }
        ensures before { self.new.before ≡ self.old.before }
    {
        let ready = ReadyRecord::new(alloc, fired)?;
        self.lists.fire(ready)?;
        moves.note_fired(alloc, self.lists.records())
    }

    /// What is to be done next: what has waited longest runs, containers are removed to make room for it, or, where nothing waits, a
    /// container starts ahead. Runs are numbered from 1, together with the runs of containers that start ahead.
    pub fn next(&mut self, alloc: Global, at: u64) -> Result<Order, NoMemory>
        ensures told { IfOk result (λ order. (T : Trace) → Stands self.old.now T → order ≡ next_order T) }
        ensures ok { OnOk result (Grows self.old.now self.new.now (λ T. next_items at T)) }
        ensures wanted { OnErr result ((T : Trace) → Stands self.old.now T → HasWork (shown T)) }
        ensures before { self.new.before ≡ self.old.before }
    {
        next_order(alloc, &mut self.lists, at)
    }

    /// The container of the run is up and its action initialised. Refused where no slot has the run and awaits its beginning.
    pub fn begun(&mut self, at: u64, run: u64) -> Result<(), FloorRefusal>
        requires { self.old.before ≡ None }
        ensures told { (T : Trace) → Stands self.old.now T → result ≡ begun_answer run T }
        ensures grows { Grows self.old.now self.new.now (λ T. begun_items at run T) }
        ensures before { self.new.before ≡ None }
    {
        if self.lists.begin(at, run).is_err() {
            return Err(FloorRefusal::NoRun { run });
        }
        begin_run(&mut self.lists, at, run);
        Ok(())
    }

    /// The run is lost: what it carries waits again at its place by acceptance, unless it has ended. Refused where no slot has the run.
    pub fn lost(&mut self, at: u64, run: u64) -> Result<(), FloorRefusal>
        requires { self.old.before ≡ None }
        ensures told { (T : Trace) → Stands self.old.now T → result ≡ lost_answer run T }
        ensures grows { Grows self.old.now self.new.now (λ T. lost_items at run T) }
        ensures before { self.new.before ≡ None }
    {
        if self.lists.lose(at, run).is_err() {
            return Err(FloorRefusal::NoRun { run });
        }
        lose_run(&mut self.lists, run);
        Ok(())
    }

    /// The container of a slot is gone. Refused where the slot has no container of this generation that could be gone.
    pub fn gone(&mut self, at: u64, slot: u32, generation: u32) -> Result<(), FloorRefusal>
        requires { self.old.before ≡ None }
        ensures told { (T : Trace) → Stands self.old.now T → result ≡ gone_answer slot generation T }
        ensures grows { Grows self.old.now self.new.now (λ T. gone_items at slot generation T) }
        ensures before { self.new.before ≡ None }
    {
        if self.lists.go(at, slot, generation).is_err() {
            let kept = generation_in(self.lists.slots(), slot);
            return Err(FloorRefusal::NoSlot { slot, kept });
        }
        Ok(())
    }

    /// Takes a runner's reply: what the run carries ends, unless a sweep recorded it before. Returns the moment of that sweep, in
    /// milliseconds, where there was one. None where no slot is busy with this run.
    pub fn replied_into(
        &mut self,
        alloc: Global,
        at: u64,
        run: u64,
        reply: &RunReply,
        moves: &mut Moves,
    ) -> Result<Option<Option<u64>>, NoMemory>
        ensures told { IfOk result (λ recorded. (T : Trace) → Stands self.old.now T → recorded ≡ reply_recorded run T) }
        ensures moved { OnOk result ((T : Trace) → Stands self.old.now T → moves.new ≡ moves.old ++ moved (answered_items at run reply.now T)) }
        ensures ok { OnOk result (Grows self.old.now self.new.now (λ T. answered_items at run reply.now T)) }
        ensures live { OnErr result ((T : Trace) → Stands self.old.now T → IsSome (busy_run run (shown T))) }
        ensures before { self.new.before ≡ self.old.before }
    {
        let Some(recorded) = recorded_in(self.lists.slots(), run) else {
            return Ok(None);
        };
        let Some(place) = self.lists.run_place(run) else {
            return Ok(None);
        };
        let Some(berth) = self.lists.runs()[place] else {
            return Ok(None);
        };
        end_run(
            alloc,
            &mut self.lists,
            &mut self.scratch,
            at,
            berth.run,
            reply,
            moves,
        )?;
        self.lists
            .answer(alloc, at, run, leaves_alive(reply), place)?;
        Ok(Some(recorded))
    }

    /// Ends each activation whose live run is late, by the runs' orders, and returns how many these are. The runs stay live.
    pub fn sweep_into(&mut self, alloc: Global, at: u64, moves: &mut Moves) -> Result<u64, NoMemory>
        ensures late { IfOk result (λ late. (T : Trace) → Stands self.old.now T → late ≡ length (swept_ends at T)) }
        ensures moved { OnOk result ((T : Trace) → Stands self.old.now T → moves.new ≡ moves.old ++ moved (swept_items at T)) }
        ensures ok { OnOk result (Grows self.old.now self.new.now (λ T. swept_items at T)) }
        ensures before { self.new.before ≡ self.old.before }
    {
        let before = moves.items().len();
        sweep(alloc, &mut self.lists, &mut self.scratch, at, moves)?;
        self.lists.note_moment(at);
        Ok((moves.items().len() - before) as u64)
    }

    /// Ends what the first late run carries, by the runs' orders, and returns whether there was one. The run stays live.
    pub fn overrun(&mut self, alloc: Global, at: u64, moves: &mut Moves) -> Result<bool, NoMemory>
        ensures late { IfOk result (λ late. (T : Trace) → Stands self.old.now T → late ≡ has_items (overrun_first at T)) }
        ensures moved { OnOk result ((T : Trace) → Stands self.old.now T → moves.new ≡ moves.old ++ moved (overrun_first at T)) }
        ensures ok { OnOk result (Grows self.old.now self.new.now (λ T. overrun_first at T)) }
        ensures before { self.new.before ≡ self.old.before }
    {
        end_first_late(alloc, &mut self.lists, &mut self.scratch, at, moves)
    }

    /// All that is late was swept at this moment, in milliseconds. It takes no memory.
    pub fn note_swept(&mut self, at: u64)
        ensures ok { Grows self.old.now self.new.now (λ T. note_swept_items at) }
        ensures before { self.new.before ≡ self.old.before }
    {
        self.lists.note_moment(at);
    }

    /// Archives the records whose end is at most `until`, in milliseconds: they are no longer among the records. Their ids stay recorded.
    /// Nothing is held, and it takes no memory.
    pub fn archive(&mut self, until: u64)
        requires { self.old.before ≡ None }
        ensures now { self.new.now ≡ archived_on until self.old.now }
        ensures grows { Grows self.old.now self.new.now (λ T. archive_items until T) }
        ensures before { self.new.before ≡ None }
    {
        self.lists.archive(until);
    }

    /// What is kept of the composite while it is open. It takes no memory.
    pub fn framed(&self, id: &Id) -> Option<&Frame>
        ensures value { option_copied result ≡ find (is_frame id.now) self.now.now.frames }
        ensures trace { (T : Trace) → Stands self.now.now T → option_copied result ≡ find (is_frame id.now) (frames T) }
    {
        self.lists.frame(*id)
    }

    /// Ends a composite with this response, where it is open, and notes it. Its logs are the ids of its children.
    pub fn compose(
        &mut self,
        alloc: Global,
        at: u64,
        id: Id,
        response: Response,
        moves: &mut Moves,
    ) -> Result<(), NoMemory>
        ensures moved { OnOk result ((T : Trace) → Stands self.old.now T → moves.new ≡ moves.old ++ moved (compose_items at id response T)) }
        ensures ok { OnOk result (Grows self.old.now self.new.now (λ T. compose_items at id response T)) }
        ensures firing { OnOk result (self.new.now.firing ≡ self.old.now.firing) }
        ensures before { self.new.before ≡ self.old.before }
    {
        end_composite(
            alloc,
            &mut self.lists,
            &mut self.scratch,
            at,
            id,
            response,
            moves,
        )
    }

    /// Ends each open activation as abandoned, by its id. From then on no run is live, no container is there, and it doesn't drain.
    pub fn abandon_into(
        &mut self,
        alloc: Global,
        at: u64,
        moves: &mut Moves,
    ) -> Result<(), NoMemory>
        ensures moved { OnOk result ((T : Trace) → Stands self.old.now T → moves.new ≡ moves.old ++ moved (abandon_items at T)) }
        ensures ok { OnOk result (Grows self.old.now self.new.now (λ T. abandon_items at T)) }
        ensures recorded { OnOk result ((T : Trace) → Stands self.old.now T → self.new.now.records ≡ shown_records T ++ map (record_abandoned at) (sorted_by_id (open_items T))) }
        ensures before { self.new.before ≡ self.old.before }
    {
        abandon(alloc, &mut self.lists, &mut self.scratch, at, moves)?;
        self.lists.reopen(alloc, at)?;
        Ok(())
    }

    /// From now on the floor drains. Returns whether all activations have ended. This takes no memory.
    pub fn drain(&mut self, at: u64) -> Drain
        ensures told { (T : Trace) → Stands self.old.now T → result ≡ drain_answer T }
        ensures grows { Grows self.old.now self.new.now (λ T. Drained at ∷ []) }
        ensures recorded { (T : Trace) → Stands self.old.now T → AllRecorded T result }
        ensures before { self.new.before ≡ self.old.before }
    {
        let busy = self.busy();
        let count = (self.lists.spots().len() - self.lists.marks().opened) as u64;
        self.lists.drain(at);
        drain_by(busy, count)
    }
}

// The activation that a plan becomes at this moment.
fn activation_of(at: u64, plan: Plan) -> Activation
    ensures { result ≡ activation_of at plan }
{
    let Plan {
        id,
        namespace,
        effective,
        params,
        subject,
        cause,
        until,
        form,
        role,
        top,
        depth,
    } = plan;
    let Effective {
        action,
        params: own,
        binding,
    } = effective;
    Activation {
        id,
        at,
        namespace,
        action,
        binding,
        params,
        subject,
        cause,
        until,
        form,
        role,
        top,
        depth,
        own: own_of(form, own),
    }
}

// The parameters that an action has itself, which a conductor keeps.
fn own_of(form: Form, own: Params) -> Params
    ensures { result ≡ own_of form own }
{
    match form {
        Form::Leaf | Form::Sequence => Params::new(),
        Form::Conductor => own,
    }
}

// Whether the container can be used again.
fn leaves_alive(reply: &RunReply) -> bool
    ensures { result ≡ leaves_alive reply.now }
{
    matches!(reply, RunReply::Answer { .. })
}

// The answer about an activation whose request waits until the moment `until`, where one waits.
fn collected_by(
    at: u64,
    until: Option<u64>,
    ended: Option<&Record>,
) -> Result<Collected<'_>, FloorRefusal>
    ensures told { collection_of result ≡ collected_by at until (option_copied ended.entry) }
    ensures unknown { IfErr result (λ refusal. refusal ≡ FloorRefusal.NotFound) }
{
    match (until, ended) {
        (None, _) => Err(FloorRefusal::NotFound),
        (Some(_), Some(record)) => Ok(Collected::Recorded(record)),
        (Some(until), None) if at < until => Ok(Collected::NotYet),
        (Some(_), None) => Ok(Collected::Elapsed),
    }
}

// The answer to a drain where `busy` activations have not ended, and `count` were accepted.
fn drain_by(busy: u64, count: u64) -> Drain
    ensures { result ≡ drain_by busy count }
{
    if busy == 0 {
        Drain::Drained(count)
    } else {
        Drain::StillOpen(busy)
    }
}
