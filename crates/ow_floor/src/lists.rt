// The lists of a floor as they are kept. What is taken out leaves its place empty, so the other places stay.
ghost use Rattle.std.specs.Prelude.{◌≡◌, ◌<◌, ◌≤◌, ◌^◌, ◌++◌, [], ◌∷◌, length, None, Some, true, false, option_copied, IfOk, IfSome, IsOk, OnOk, OnErr, replicate, slice_get, slice_set};
ghost use Rattle.std.specs.List.{find};
ghost use Rattle.ow_floor.specs.Undoable.{past};
ghost use Rattle.ow_records.specs.Records.{is_of_id};
ghost use Rattle.ow_floor.specs.View.{is_number, is_of, put_id, wait_in, waits};
ghost use Rattle.ow_floor.specs.Trace.{blocked_by};
ghost use Rattle.ow_entity.specs.declared.bounds.TheConstants.{LEAST_MEMORY};
ghost use Rattle.ow_slots.specs.Slots.{IsThere, first_with, gone_answer, run_answer, vacant_slot};
ghost use Rattle.ow_slots.specs.State.{IsUnrecorded, IsVacant, StartFits, awaits, holds, runs};
ghost use Rattle.ow_pool.specs.Keeping.{CanAllGo, IsCarriedOut};
ghost use Rattle.ow_pool.specs.Rules.{IsHeadSized, place_of};
ghost use Rattle.ow_slot_laws.specs.Life.{Event, Removed};
ghost use Rattle.ow_slot_laws.specs.Owed.{may_begin, owed, owed_by};
ghost use Rattle.ow_slots.specs.declared.states.State.TheVariants.{Busy};
ghost use Rattle.ow_floor.specs.Trace.{slot_count};
ghost use Rattle.ow_floor.specs.Store.{AreGone, CellOf, IsGood, SpotOf, Store, accepted_in, answered_in, archived_in, at_moment, drained_in, drawn_in, empty_of, ended_in, event_in, fired_in, freed_in, ordered_in, prewarmed_in, reopened_in, resumed_in, run_in, run_put, taken_back, with_frames, with_owed};
ghost use Rattle.ow_floor.specs.Frames.{frames_accepted, frames_ended, is_frame};

use crate::activations::Part;
use crate::kept_frames::KeptFrames;
use crate::kept_slots::KeptSlots;
use crate::places::{namespace_place, open_place, run_place, until, waiting_place};
use crate::undoable::Undoable;
use crate::{PrewarmOrder, Run, State};
use ow_entity::LEAST_MEMORY;
use ow_pool::{Head, Place, place};
use ow_records::{Activation, Frame, Id, ReadyRecord, Record, Records, Response};
use ow_slots::{Key, Slot, SlotRefusal, Slots, Start, State as SlotState, Work};
use ow_traits::Prewarms;
use ow_value::{NoMemory, Shared};
use std::alloc::Global;
use std::marker::Model;

/// The state of an activation that has not ended.
#[derive(Clone, Copy)]
pub(crate) struct Spot {
    pub(crate) state: State,
}

/// A live run, and the place of the activation that it carries.
#[derive(Clone, Copy)]
pub(crate) struct Berth {
    pub(crate) run: Run,
    pub(crate) place: usize,
}

/// An activation for whose end a request waits, and the moment until which it waits, in milliseconds.
#[derive(Clone, Copy)]
pub(crate) struct Blocking {
    pub(crate) id: Id,
    pub(crate) until: u64,
}

/// The moment of the newest thing, how many were accepted before the last opening, how many entries are owed, whether the floor drains, and
/// the id of a fire that isn't recorded yet.
#[derive(Clone, Copy)]
pub(crate) struct Marks {
    pub(crate) latest: u64,
    pub(crate) opened: usize,
    pub(crate) owed: usize,
    pub(crate) draining: bool,
    pub(crate) firing: Option<Id>,
}

/// The lists. They can be held.
#[derive(Drop)]
pub(crate) struct Lists {
    spots: Undoable<Spot>,
    tasks: Undoable<Option<Shared<Activation>>>,
    runs: Undoable<Option<Berth>>,
    frames: KeptFrames,
    slots: KeptSlots,
    records: Records,
    // How many records there were at the hold.
    records_held: usize,
    // The ids of what has ended and of fires, by their order. They stay when records are archived.
    recorded: Undoable<Id>,
    // The last id of each namespace.
    drawn: Undoable<Id>,
    // The activations accepted since the last opening for whose end a request waits.
    blocking: Undoable<Blocking>,
    marks: Marks,
    // In MB.
    pool: u32,
    wants: Prewarms,
    held: bool,
    // The marks at the hold.
    before: Marks,
    // How many first places hold no activation any more, and how many hold no run any more.
    tasks_gone: usize,
    runs_gone: usize,
}

impl Model for Lists {
    ghost use Rattle.std.specs.Prelude.{take};
    ghost use Rattle.std.specs.Coded.{codes};
    ghost use Rattle.ow_value.specs.Code.{value_code};
    ghost use Rattle.ow_floor.specs.Undoable.{past};
    ghost use Rattle.ow_floor.specs.Store.{StoreView, past_of};

    ghost Value = { StoreView };

    ghost coded = { Prim.hlevel (codes, value_code) };

    ghost view = { λ l. record {
      now = record {
        spots = l.spots.now;
        tasks = l.tasks.now;
        runs = l.runs.now;
        frames = l.frames.now;
        slots = l.slots.now;
        records = l.records.items;
        recorded = l.recorded.now;
        drawn = l.drawn.now;
        blocking = l.blocking.now;
        marks = l.marks;
        pool = l.pool;
        wants = l.wants;
      };
      past = past_of l.pool l.wants (past l.held l.spots.before) (past l.held l.tasks.before) (past l.held l.runs.before) (past l.held l.frames.before) (past l.held l.slots.before)
          (past l.held (take l.records_held l.records.items)) (past l.held l.recorded.before) (past l.held l.drawn.before) (past l.held l.blocking.before) (past l.held l.before);
    } };

    ghost use Rattle.std.specs.Prelude.{◌≤◌, length};
    ghost use Rattle.ow_floor.specs.Store.{AreGone};

    ghost invariant = { λ l. AreGone l.tasks_gone l.tasks.now × AreGone l.runs_gone l.runs.now × (l.records_held ≤ length l.records.items) };
}

const NO_MARKS: Marks = Marks {
    latest: 0,
    opened: 0,
    owed: 0,
    draining: false,
    firing: None,
};

impl Lists {
    /// Empty lists, which aren't held. All slots of the pool are vacant.
    pub(crate) fn new(alloc: Global, pool: u32, wants: Prewarms) -> Result<Lists, NoMemory>
        ensures now { IfOk result (λ l. l.now ≡ record { spots = []; tasks = []; runs = []; frames = []; slots = replicate (slot_count pool) vacant_slot; records = []; recorded = []; drawn = []; blocking = []; marks = record { latest = 0; opened = 0; owed = 0; draining = false; firing = None }; pool = pool; wants = wants }) }
        ensures held { IfOk result (λ l. l.past ≡ None) }
    {
        let slots = KeptSlots::new(alloc, pool / LEAST_MEMORY)?;
        Ok(Lists {
            spots: Undoable::new(alloc),
            tasks: Undoable::new(alloc),
            runs: Undoable::new(alloc),
            frames: KeptFrames::new(alloc),
            slots,
            records: Records::new(alloc),
            records_held: 0,
            recorded: Undoable::new(alloc),
            drawn: Undoable::new(alloc),
            blocking: Undoable::new(alloc),
            marks: NO_MARKS,
            pool,
            wants,
            held: false,
            before: NO_MARKS,
            tasks_gone: 0,
            runs_gone: 0,
        })
    }

    pub(crate) fn spots(&self) -> &[Spot]
        ensures { result.now ≡ self.now.now.spots }
    {
        self.spots.items()
    }

    pub(crate) fn tasks(&self) -> &[Option<Shared<Activation>>]
        ensures { result.now ≡ self.now.now.tasks }
    {
        self.tasks.items()
    }

    /// The place of the first activation that waits.
    pub(crate) fn waiting_place(&self) -> Option<usize>
        requires { length self.now.now.tasks ≡ length self.now.now.spots }
        ensures { SpotOf waits self.now.now.spots self.now.now.tasks result }
    {
        waiting_place(self.spots.items(), self.tasks.items(), self.tasks_gone)
    }

    /// The place of the open activation of this id.
    pub(crate) fn open_place(&self, id: Id) -> Option<usize>
        requires { length self.now.now.tasks ≡ length self.now.now.spots }
        ensures { SpotOf (is_of id) self.now.now.spots self.now.now.tasks result }
    {
        open_place(self.spots.items(), self.tasks.items(), self.tasks_gone, id)
    }

    /// The place of the live run of this number.
    pub(crate) fn run_place(&self, run: u64) -> Option<usize>
        ensures { CellOf run_in (is_number run) self.now.now.runs result }
    {
        run_place(self.runs.items(), self.runs_gone, run)
    }

    pub(crate) fn runs(&self) -> &[Option<Berth>]
        ensures { result.now ≡ self.now.now.runs }
    {
        self.runs.items()
    }

    pub(crate) fn slots(&self) -> &Slots
        ensures { result.now ≡ self.now.now.slots }
    {
        self.slots.slots()
    }

    /// What is to be done next for the head, or ahead of any.
    pub(crate) fn place(&self, head: Option<&Head>) -> Place
        requires lists_fit { IsGood self.now.now }
        requires head { IsHeadSized (option_copied head) }
        ensures value { result ≡ place_of self.now.now.slots (option_copied head.entry) self.now.now.wants self.now.now.pool }
        ensures kept { IsCarriedOut self.now.now.slots (option_copied head.entry) self.now.now.pool result }
    {
        place(self.slots.slots(), head, self.wants.as_slice(), self.pool)
    }

    /// The records that are shown. The ones that were taken over come first.
    pub(crate) fn records(&self) -> &Records
        ensures { result.now.items ≡ self.now.now.records }
    {
        &self.records
    }

    /// How many activations have ended.
    pub(crate) fn ended(&self) -> usize
        ensures { result ≡ length self.now.now.recorded }
    {
        self.recorded.items().len()
    }

    /// The record of an activation that has ended, where it is shown.
    pub(crate) fn record_of(&self, id: Id) -> Option<&Record>
        ensures { option_copied result ≡ find (is_of_id id) self.now.now.records }
    {
        match self.records.get(&id) {
            Ok(ended) => Some(ended),
            Err(_) => None,
        }
    }

    pub(crate) fn drawn(&self) -> &[Id]
        ensures { result.now ≡ self.now.now.drawn }
    {
        self.drawn.items()
    }

    /// What is kept of the composite while it is open.
    pub(crate) fn frame(&self, id: Id) -> Option<&Frame>
        ensures { option_copied result ≡ find (is_frame id) self.now.now.frames }
    {
        self.frames.frame(id)
    }

    /// The moment until which the request that made this activation waits, where one waits.
    pub(crate) fn until(&self, id: Id) -> Option<u64>
        ensures { result ≡ wait_in id self.now.now.blocking }
    {
        until(self.blocking.items(), id)
    }

    pub(crate) fn marks(&self) -> Marks
        ensures { result ≡ self.now.now.marks }
    {
        self.marks
    }

    /// Holds the lists: from now on their present state is kept. This takes no memory.
    pub(crate) fn hold(&mut self)
        ensures { self.new ≡ record { now = self.old.now; past = Some self.old.now } }
    {
        self.spots.hold();
        self.tasks.hold();
        self.runs.hold();
        self.frames.hold();
        self.slots.hold();
        self.records_held = self.records.len();
        self.recorded.hold();
        self.drawn.hold();
        self.blocking.hold();
        self.before = self.marks;
        self.held = true;
    }

    /// Ends the hold, and drops what was before. This takes no memory.
    pub(crate) fn keep(&mut self)
        ensures { self.new ≡ record { now = self.old.now; past = None } }
    {
        self.hold();
        self.held = false;
    }

    /// Takes the lists back to what they were at the hold, where they are held, and ends the hold. This takes no memory.
    pub(crate) fn take_back(&mut self)
        ensures { self.new ≡ record { now = taken_back self.old.past self.old.now; past = None } }
    {
        if self.held {
            self.spots.take_back();
            self.tasks.take_back();
            self.runs.take_back();
            self.frames.take_back();
            self.slots.take_back();
            self.records.cut(self.records_held);
            self.recorded.take_back();
            self.drawn.take_back();
            self.blocking.take_back();
            self.marks = self.before;
            self.tasks_gone = 0;
            self.runs_gone = 0;
        }
        self.held = false;
    }

    /// Takes the lists back to what they were at the hold, where they are held. The hold goes on. This takes no memory.
    pub(crate) fn back(&mut self)
        ensures { self.new ≡ record { now = taken_back self.old.past self.old.now; past = self.old.past } }
    {
        if self.held {
            self.take_back();
            self.hold();
        }
    }
}

// The last id of its namespace is this one from now on. There is room.
fn note_id(drawn: &mut Undoable<Id>, held: bool, id: Id)
    requires space { 1 ≤ drawn.old.space }
    requires slack { held ≡ true → 1 ≤ drawn.old.slack }
    ensures now { drawn.new.now ≡ put_id id drawn.old.now }
    ensures held { past held drawn.new.before ≡ past held drawn.old.before }
{
    match namespace_place(drawn.items(), id.namespace) {
        Some(place) => drawn.set(held, place, id),
        None => drawn.push(held, id),
    }
}

// A request waits for the end of this activation from now on, where it has an until. There is room.
fn note_until(blocking: &mut Undoable<Blocking>, held: bool, id: Id, until: Option<u64>)
    requires space { 1 ≤ blocking.old.space }
    requires slack { held ≡ true → 1 ≤ blocking.old.slack }
    ensures now { blocking.new.now ≡ blocked_by id until blocking.old.now }
    ensures held { past held blocking.new.before ≡ past held blocking.old.before }
{
    if let Some(until) = until {
        blocking.push(held, Blocking { id, until });
    }
}

// How many first places are known to be empty: at most two more than `gone`. Each place is looked at twice at most, so the places that are
// looked at are no more than twice the changes.
fn further<T>(cells: &[Option<T>], gone: usize) -> usize
    requires { AreGone gone cells.now }
    ensures { AreGone result cells.now }
{
    one_further(cells, one_further(cells, gone))
}

fn one_further<T>(cells: &[Option<T>], gone: usize) -> usize
    requires { AreGone gone cells.now }
    ensures { AreGone result cells.now }
{
    if gone < cells.len() && cells[gone].is_none() {
        return gone + 1;
    }
    gone
}

/// Puts another thing, or none, at this place. Returns how many first places are known to be empty. There is room for the change.
pub(crate) fn set_cell<T: Drop>(
    cells: &mut Undoable<Option<T>>,
    gone: usize,
    held: bool,
    place: usize,
    cell: Option<T>,
) -> usize
    requires place { place < length cells.old.now }
    requires slack { held ≡ true → 1 ≤ cells.old.slack }
    requires gone { AreGone gone cells.old.now }
    ensures now { cells.new.now ≡ slice_set cells.old.now place cell }
    ensures held { past held cells.new.before ≡ past held cells.old.before }
    ensures gone { AreGone result cells.new.now }
{
    cells.set(held, place, cell);
    further(cells.items(), gone.min(place))
}

// The marks at this moment, with what these slots owe.
fn marked(slots: &Slots, marks: Marks, at: u64) -> Marks
    ensures { result ≡ with_owed at (owed slots.now) marks }
{
    Marks {
        latest: at,
        owed: owed_in(slots.as_slice()),
        ..marks
    }
}

// How many events may still come of what these slots hold.
fn owed_in(slots: &[Slot]) -> usize
    requires { length slots.now < 2 ^ 32 }
    ensures { result ≡ owed slots.now }
{
    let mut sum = 0;
    for i in 0..slots.len() {
        sum += owed_by(&slots[i].state);
    }
    sum
}

// How many events may still come of what a slot holds.
fn owed_by(state: &SlotState) -> usize
    ensures value { result ≡ owed_by state.now }
    ensures bounded { result ≤ 3 }
{
    match state {
        SlotState::Vacant => 0,
        SlotState::Opening { .. } => 3,
        SlotState::Busy(work) => owed_work(work),
        _ => 1,
    }
}

fn owed_work(work: &Work) -> usize
    ensures value { result ≡ owed_by (Busy work.now) }
    ensures bounded { result ≤ 3 }
{
    let begins = if may_begin(work) { 1 } else { 0 };
    let goes = if work.gone { 0 } else { 1 };
    1 + begins + goes
}

fn may_begin(work: &Work) -> bool
    ensures { result ≡ may_begin work.now }
{
    match work.start {
        Start::Warm => false,
        _ => work.begun.is_none(),
    }
}

/// Makes room for one more.
pub(crate) fn make_room<T: Drop>(kept: &mut Undoable<T>, held: bool) -> Result<(), NoMemory>
    ensures now { kept.new.now ≡ kept.old.now }
    ensures before { kept.new.before ≡ kept.old.before }
    ensures space { OnOk result (1 ≤ kept.new.space) }
    ensures slack { OnOk result (held ≡ true → 1 ≤ kept.new.slack) }
{
    kept.reserve()?;
    kept.reserve_step(held)
}

// As many empty places as there are cells.
fn empty_places<T: Drop, U>(alloc: Global, cells: &[Option<U>]) -> Result<Vec<Option<T>>, NoMemory>
    ensures { IfOk result (λ v. v.items ≡ empty_of cells.now) }
{
    let mut places = Vec::new(alloc);
    for _ in cells {
        places.push(None)?;
    }
    Ok(places)
}

impl Lists {
    /// An activation is added at the end, and waits.
    pub(crate) fn accept(&mut self, task: Shared<Activation>) -> Result<(), NoMemory>
        ensures now { OnOk result (self.new.now ≡ accepted_in task self.old.now) }
        ensures err { OnErr result (self.new.now ≡ self.old.now) }
        ensures held { self.new.past ≡ self.old.past }
    {
        let held = self.held;
        if make_room(&mut self.tasks, held).is_err()
            || make_room(&mut self.spots, held).is_err()
            || make_room(&mut self.drawn, held).is_err()
            || make_room(&mut self.blocking, held).is_err()
        {
            drop(task);
            return Err(NoMemory);
        }
        let id = task.get().id;
        let at = task.get().at;
        let until = task.get().until;
        let spot = Spot {
            state: State::Waiting,
        };
        self.tasks.push(held, Some(task));
        self.spots.push(held, spot);
        note_id(&mut self.drawn, held, id);
        note_until(&mut self.blocking, held, id, until);
        self.marks.latest = at;
        Ok(())
    }

    /// An activation of this part is accepted in its composition.
    #[tactic(auto, using(crate::proofs::Showing::framed_good))]
    pub(crate) fn frame_accepted(&mut self, alloc: Global, part: Part) -> Result<(), NoMemory>
        ensures made { OnOk result (self.new.now ≡ with_frames (frames_accepted part self.old.now.frames) self.old.now) }
        ensures now { self.new.now ≡ with_frames self.new.now.frames self.old.now }
        ensures lists_fit { IsGood self.old.now → IsGood self.new.now }
        ensures held { self.new.past ≡ self.old.past }
    {
        self.frames.accept(alloc, self.held, part)
    }

    /// An activation of this part ends in its composition, with this response.
    #[tactic(auto, using(crate::proofs::Showing::framed_good))]
    pub(crate) fn frame_ended(
        &mut self,
        alloc: Global,
        part: Part,
        response: &Response,
    ) -> Result<(), NoMemory>
        ensures made { OnOk result (self.new.now ≡ with_frames (frames_ended part response.now self.old.now.frames) self.old.now) }
        ensures now { self.new.now ≡ with_frames self.new.now.frames self.old.now }
        ensures lists_fit { IsGood self.old.now → IsGood self.new.now }
        ensures held { self.new.past ≡ self.old.past }
    {
        self.frames.end(alloc, self.held, part, response)
    }

    /// An id is drawn for a fire at this moment.
    pub(crate) fn draw(&mut self, at: u64, id: Id) -> Result<(), NoMemory>
        ensures now { OnOk result (self.new.now ≡ drawn_in at id self.old.now) }
        ensures err { OnErr result (self.new.now ≡ self.old.now) }
        ensures held { self.new.past ≡ self.old.past }
    {
        make_room(&mut self.drawn, self.held)?;
        note_id(&mut self.drawn, self.held, id);
        self.marks.latest = at;
        self.marks.firing = Some(id);
        Ok(())
    }

    /// The fire is recorded. It takes a place that holds no activation.
    pub(crate) fn fire(&mut self, ended: ReadyRecord) -> Result<(), NoMemory>
        ensures now { OnOk result (self.new.now ≡ fired_in ended self.old.now) }
        ensures err { OnErr result (self.new.now ≡ self.old.now) }
        ensures held { self.new.past ≡ self.old.past }
    {
        let held = self.held;
        if self.records.reserve().is_err()
            || make_room(&mut self.tasks, held).is_err()
            || make_room(&mut self.spots, held).is_err()
            || make_room(&mut self.recorded, held).is_err()
        {
            drop(ended);
            return Err(NoMemory);
        }
        let spot = Spot {
            state: State::Waiting,
        };
        self.marks.latest = ended.record().span.start();
        self.marks.firing = None;
        let id = ended.record().id;
        self.records.add(ended);
        self.tasks.push(held, None);
        self.spots.push(held, spot);
        self.recorded.push(held, id);
        Ok(())
    }

    /// A run of the activation at this place starts in its slot.
    pub(crate) fn order(
        &mut self,
        alloc: Global,
        place: usize,
        run: Run,
        key: Key,
    ) -> Result<(), NoMemory>
        requires place { place < length self.old.now.spots }
        requires fits { IsThere (StartFits run.start) (slice_get self.old.now.slots run.slot) }
        ensures now { OnOk result (self.new.now ≡ ordered_in place run key self.old.now) }
        ensures err { OnErr result (self.new.now ≡ self.old.now) }
        ensures held { self.new.past ≡ self.old.past }
    {
        let held = self.held;
        if self.spots.reserve_step(held).is_err() || make_room(&mut self.runs, held).is_err() {
            drop(key);
            return Err(NoMemory);
        }
        self.slots
            .assign(alloc, held, run.slot, run.number, key, run.start, run.at)?;
        let spot = Spot {
            state: State::Running(run.number),
        };
        self.spots.set(held, place, spot);
        self.runs.push(held, Some(Berth { run, place }));
        self.marks = marked(self.slots.slots(), self.marks, run.at);
        Ok(())
    }

    /// A container starts ahead of any run of an action.
    pub(crate) fn prewarm(
        &mut self,
        alloc: Global,
        at: u64,
        order: PrewarmOrder,
    ) -> Result<(), NoMemory>
        requires { IsThere IsVacant (slice_get self.old.now.slots order.slot) }
        ensures now { OnOk result (self.new.now ≡ prewarmed_in at order self.old.now) }
        ensures err { OnErr result (self.new.now ≡ self.old.now) }
        ensures held { self.new.past ≡ self.old.past }
    {
        let held = self.held;
        make_room(&mut self.runs, held)?;
        self.slots.preopen(alloc, held, order.slot, order.run, order.kind, order.memory)?;
        self.runs.push(held, None);
        self.marks = marked(self.slots.slots(), self.marks, at);
        Ok(())
    }

    /// The containers of these slots are to be removed. Without memory some are.
    pub(crate) fn remove(&mut self, alloc: Global, at: u64, slots: &[u32]) -> Result<(), NoMemory>
        requires lists_fit { IsGood self.old.now }
        requires fits { CanAllGo slots.now self.old.now.slots }
        ensures now { OnOk result (self.new.now ≡ event_in at (Removed slots.now) self.old.now) }
        ensures lists_fit { IsGood self.new.now }
        ensures held { self.new.past ≡ self.old.past }
    {
        let done = self.slots.remove(alloc, self.held, slots);
        self.marks = marked(self.slots.slots(), self.marks, at);
        done
    }

    /// The run at this place is answered; `alive` where its container can run again.
    pub(crate) fn answer(
        &mut self,
        alloc: Global,
        at: u64,
        run: u64,
        alive: bool,
        place: usize,
    ) -> Result<(), NoMemory>
        requires { place < length self.old.now.runs }
        ensures now { OnOk result (self.new.now ≡ answered_in at run alive place self.old.now) }
        ensures err { OnErr result (self.new.now ≡ self.old.now) }
        ensures held { self.new.past ≡ self.old.past }
    {
        self.runs.reserve_step(self.held)?;
        self.slots.answered(alloc, self.held, run, alive, at)?;
        self.runs_gone = set_cell(&mut self.runs, self.runs_gone, self.held, place, None);
        self.marks = marked(self.slots.slots(), self.marks, at);
        Ok(())
    }

    /// What the run carries is recorded as overrun.
    pub(crate) fn overrun(&mut self, alloc: Global, at: u64, run: u64) -> Result<(), NoMemory>
        requires { IsThere IsUnrecorded (first_with (runs run) self.old.now.slots) }
        ensures now { OnOk result (self.new.now ≡ event_in at (Event.Overran run at) self.old.now) }
        ensures err { OnErr result (self.new.now ≡ self.old.now) }
        ensures held { self.new.past ≡ self.old.past }
    {
        self.slots.overrun(alloc, self.held, run, at)?;
        self.marks = marked(self.slots.slots(), self.marks, at);
        Ok(())
    }

    /// The container of the run is initialised. Nothing is held.
    pub(crate) fn begin(&mut self, at: u64, run: u64) -> Result<(), SlotRefusal>
        requires { self.old.past ≡ None }
        ensures answer { result ≡ run_answer run (λ s. tt) (first_with (awaits run) self.old.now.slots) }
        ensures now { OnOk result (self.new.now ≡ event_in at (Event.Begun run at) self.old.now) }
        ensures err { OnErr result (self.new.now ≡ self.old.now) }
        ensures held { self.new.past ≡ None }
    {
        self.slots.begun(run, at)?;
        self.marks = marked(self.slots.slots(), self.marks, at);
        Ok(())
    }

    /// The run is lost. Nothing is held.
    pub(crate) fn lose(&mut self, at: u64, run: u64) -> Result<(), SlotRefusal>
        requires { self.old.past ≡ None }
        ensures answer { result ≡ run_answer run (λ s. tt) (first_with (holds run) self.old.now.slots) }
        ensures now { OnOk result (self.new.now ≡ event_in at (Event.Lost run) self.old.now) }
        ensures err { OnErr result (self.new.now ≡ self.old.now) }
        ensures held { self.new.past ≡ None }
    {
        self.slots.lost(run)?;
        self.marks = marked(self.slots.slots(), self.marks, at);
        Ok(())
    }

    /// The container of the slot is gone. Nothing is held.
    pub(crate) fn go(&mut self, at: u64, slot: u32, generation: u32) -> Result<(), SlotRefusal>
        requires { self.old.past ≡ None }
        ensures answer { result ≡ gone_answer slot generation (slice_get self.old.now.slots slot) }
        ensures now { OnOk result (self.new.now ≡ event_in at (Event.Gone slot generation) self.old.now) }
        ensures err { OnErr result (self.new.now ≡ self.old.now) }
        ensures held { self.new.past ≡ None }
    {
        self.slots.gone(slot, generation)?;
        self.marks = marked(self.slots.slots(), self.marks, at);
        Ok(())
    }

    /// Puts another run, or none, at this place. Nothing is held.
    pub(crate) fn put_run(&mut self, place: usize, cell: Option<Berth>)
        requires place { place < length self.old.now.runs }
        requires free { self.old.past ≡ None }
        ensures now { self.new.now ≡ run_put place cell self.old.now }
        ensures held { self.new.past ≡ None }
    {
        self.runs_gone = set_cell(&mut self.runs, self.runs_gone, self.held, place, cell);
    }

    /// The activation at this place waits again. Where nothing is held, this takes no memory.
    pub(crate) fn free(&mut self, place: usize) -> Result<(), NoMemory>
        requires { place < length self.old.now.spots }
        ensures now { OnOk result (self.new.now ≡ freed_in place self.old.now) }
        ensures err { OnErr result (self.new.now ≡ self.old.now) }
        ensures held { self.new.past ≡ self.old.past }
        ensures free { self.old.past ≡ None → IsOk result }
    {
        let spot = Spot {
            state: State::Waiting,
        };
        self.spots.reserve_step(self.held)?;
        self.spots.set(self.held, place, spot);
        Ok(())
    }

    /// The activation at this place has ended at this moment.
    pub(crate) fn end(&mut self, at: u64, place: usize, ended: ReadyRecord) -> Result<(), NoMemory>
        requires { place < length self.old.now.tasks }
        ensures now { OnOk result (self.new.now ≡ ended_in at place ended self.old.now) }
        ensures err { OnErr result (self.new.now ≡ self.old.now) }
        ensures held { self.new.past ≡ self.old.past }
    {
        let held = self.held;
        if self.records.reserve().is_err()
            || make_room(&mut self.recorded, held).is_err()
            || self.tasks.reserve_step(held).is_err()
        {
            drop(ended);
            return Err(NoMemory);
        }
        self.marks.latest = at;
        let id = ended.record().id;
        self.records.add(ended);
        self.recorded.push(held, id);
        self.tasks.set(held, place, None);
        self.tasks_gone = further(self.tasks.items(), self.tasks_gone);
        Ok(())
    }

    /// These last ids and records are taken over. Nothing is held.
    pub(crate) fn resume(&mut self, counts: Vec<Id>, records: Records)
        requires { self.old.past ≡ None }
        ensures now { self.new.now ≡ resumed_in counts.items records.items self.old.now }
        ensures held { self.new.past ≡ None }
    {
        self.drawn.replace(self.held, counts);
        self.records_held = records.len();
        self.records = records;
        self.marks.latest = 0;
        self.marks.firing = None;
    }

    /// The records whose end is at most `until` are dropped. Their ids stay. Nothing is held, and it takes no memory.
    pub(crate) fn archive(&mut self, until: u64)
        requires { self.old.past ≡ None }
        ensures now { self.new.now ≡ archived_in until self.old.now }
        ensures held { self.new.past ≡ None }
    {
        self.records.retire(until);
        self.records_held = self.records.len();
    }

    /// The moment of the newest thing is this one.
    pub(crate) fn note_moment(&mut self, at: u64)
        ensures now { self.new.now ≡ at_moment at self.old.now }
        ensures held { self.new.past ≡ self.old.past }
    {
        self.marks.latest = at;
    }

    pub(crate) fn drain(&mut self, at: u64)
        ensures now { self.new.now ≡ drained_in at self.old.now }
        ensures held { self.new.past ≡ self.old.past }
    {
        self.marks.latest = at;
        self.marks.draining = true;
    }

    /// No run is live any more, and no container is there.
    pub(crate) fn reopen(&mut self, alloc: Global, at: u64) -> Result<(), NoMemory>
        ensures now { OnOk result (self.new.now ≡ reopened_in at self.old.now) }
        ensures err { OnErr result (self.new.now ≡ self.old.now) }
        ensures held { self.new.past ≡ self.old.past }
    {
        let held = self.held;
        self.runs.reserve_step(held)?;
        self.blocking.reserve_step(held)?;
        let runs = empty_places(alloc, self.runs.items())?;
        if self.slots.empty(alloc, held).is_err() {
            drop(runs);
            return Err(NoMemory);
        }
        self.runs.replace(held, runs);
        self.blocking.replace(held, Vec::new(alloc));
        let opened = Marks {
            opened: self.spots.items().len(),
            draining: false,
            firing: None,
            ..self.marks
        };
        self.marks = marked(self.slots.slots(), opened, at);
        Ok(())
    }
}
