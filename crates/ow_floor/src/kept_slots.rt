// Slots that can be held: what was before is kept as the slots that were changed since.
ghost use Rattle.std.specs.Prelude.{◌≡◌, ◌≤◌, ◌<◌, ◌^◌, ℕ, position, replicate, slice_get, true, false, vec_len, vec_capacity, IfOk, OnOk, OnErr};
ghost use Rattle.ow_slots.specs.Slots.{IsThere, change, change_first, first_with, gone_answer, has, run_answer, vacant_slot};
ghost use Rattle.ow_slots.specs.State.{IsUnrecorded, IsVacant, StartFits, after_gone, answered_state, assigned, awaits, begun_state, holds, lost_state, opened, overrun_state, recorded_of, runs, with_state};
ghost use Rattle.ow_pool.specs.Keeping.{CanAllGo, removed};
ghost use Rattle.ow_pool.specs.Rules.{IsWithinPool};
ghost use Rattle.ow_slot_laws.specs.Fitting.{emptied};
ghost use Rattle.ow_floor.specs.Undoable.{all_noted, past, restore, restored, run_noted, slot_noted};

use ow_slots::{Key, Slot, SlotRefusal, Slots, Start, State};
use ow_traits::Kind;
use ow_value::{NoMemory, PlainData};
use std::alloc::Global;
use std::marker::Model;
use std::mem;

/// What undoes one change.
#[derive(Drop)]
pub(crate) enum SlotStep {
    /// This slot was at this place.
    Was(u32, Slot),
    /// These were all.
    All(Slots),
}

/// Slots that can be held.
#[derive(Drop)]
pub(crate) struct KeptSlots {
    slots: Slots,
    steps: Vec<SlotStep>,
}

impl Model for KeptSlots {
    ghost use Rattle.ow_floor.specs.Undoable.{SlotsView, restored};

    ghost Value = { SlotsView };

    ghost view = { λ k. record { now = k.slots; before = restored k.steps.items k.slots } };
}

impl KeptSlots {
    /// `count` slots, all vacant.
    pub(crate) fn new(alloc: Global, count: u32) -> Result<KeptSlots, NoMemory>
        ensures { IfOk result (λ k. k.now ≡ replicate count vacant_slot) }
    {
        let slots = Slots::new(alloc, count)?;
        Ok(KeptSlots {
            slots,
            steps: Vec::new(alloc),
        })
    }

    /// The slots now.
    pub(crate) fn slots(&self) -> &Slots
        ensures { result.now ≡ self.now.now }
    {
        &self.slots
    }

    /// A run starts in the slot.
    pub(crate) fn assign(
        &mut self,
        alloc: Global,
        held: bool,
        slot: u32,
        run: u64,
        key: Key,
        start: Start,
        at: u64,
    ) -> Result<(), NoMemory>
        requires { IsThere (StartFits start) (slice_get self.old.now slot) }
        ensures now { OnOk result (self.new.now ≡ change slot (assigned run key start at) self.old.now) }
        ensures err { OnErr result (self.new.now ≡ self.old.now) }
        ensures held { past held self.new.before ≡ past held self.old.before }
    {
        if note(alloc, &mut self.steps, &self.slots, held, slot).is_err() {
            drop(key);
            return Err(NoMemory);
        }
        self.slots.assign(slot, run, key, start, at);
        Ok(())
    }

    /// A container starts in the slot ahead of any run of an action.
    pub(crate) fn preopen(
        &mut self,
        alloc: Global,
        held: bool,
        slot: u32,
        run: u64,
        kind: Kind,
        memory: u32,
    ) -> Result<(), NoMemory>
        requires { IsThere IsVacant (slice_get self.old.now slot) }
        ensures now { OnOk result (self.new.now ≡ change slot (opened run kind memory) self.old.now) }
        ensures err { OnErr result (self.new.now ≡ self.old.now) }
        ensures held { past held self.new.before ≡ past held self.old.before }
    {
        note(alloc, &mut self.steps, &self.slots, held, slot)?;
        self.slots.preopen(slot, run, kind, memory);
        Ok(())
    }

    /// The containers of these slots are to be removed. Without memory some are.
    pub(crate) fn remove(
        &mut self,
        alloc: Global,
        held: bool,
        slots: &[u32],
    ) -> Result<(), NoMemory>
        requires { CanAllGo slots.now self.old.now }
        ensures now { OnOk result (self.new.now ≡ removed slots.now self.old.now) }
        ensures within { (pool : ℕ) → IsWithinPool self.old.now pool → IsWithinPool self.new.now pool }
        ensures held { past held self.new.before ≡ past held self.old.before }
    {
        remove_all(alloc, &mut self.slots, &mut self.steps, held, slots)
    }

    /// The run is answered; `alive` where its container can run again.
    pub(crate) fn answered(
        &mut self,
        alloc: Global,
        held: bool,
        run: u64,
        alive: bool,
        at: u64,
    ) -> Result<(), NoMemory>
        ensures now { OnOk result (self.new.now ≡ change_first (has (runs run)) (with_state (answered_state alive at)) self.old.now) }
        ensures err { OnErr result (self.new.now ≡ self.old.now) }
        ensures held { past held self.new.before ≡ past held self.old.before }
    {
        note_run(alloc, &mut self.steps, &self.slots, held, run)?;
        let _ = self.slots.answered(run, alive, at);
        Ok(())
    }

    /// The activation of the run is recorded as overrun, at this moment.
    pub(crate) fn overrun(
        &mut self,
        alloc: Global,
        held: bool,
        run: u64,
        at: u64,
    ) -> Result<(), NoMemory>
        requires { IsThere IsUnrecorded (first_with (runs run) self.old.now) }
        ensures now { OnOk result (self.new.now ≡ change_first (has (runs run)) (with_state (overrun_state at)) self.old.now) }
        ensures err { OnErr result (self.new.now ≡ self.old.now) }
        ensures held { past held self.new.before ≡ past held self.old.before }
    {
        note_run(alloc, &mut self.steps, &self.slots, held, run)?;
        self.slots.overrun(run, at);
        Ok(())
    }

    /// Every slot is vacant.
    pub(crate) fn empty(&mut self, alloc: Global, held: bool) -> Result<(), NoMemory>
        ensures now { OnOk result (self.new.now ≡ emptied self.old.now) }
        ensures err { OnErr result (self.new.now ≡ self.old.now) }
        ensures held { past held self.new.before ≡ past held self.old.before }
    {
        make_room(&mut self.steps, held)?;
        let vacant = self.slots.emptied(alloc)?;
        let old = mem::replace(&mut self.slots, vacant);
        keep_all(&mut self.steps, held, old);
        Ok(())
    }

    /// The container of the run is initialised, at this moment. Nothing is held.
    pub(crate) fn begun(&mut self, run: u64, at: u64) -> Result<(), SlotRefusal>
        ensures answer { result ≡ run_answer run (λ s. tt) (first_with (awaits run) self.old.now) }
        ensures now { self.new.now ≡ change_first (has (awaits run)) (with_state (begun_state at)) self.old.now }
        ensures err { OnErr result (self.new.now ≡ self.old.now) }
    {
        self.slots.begun(run, at)
    }

    /// The run is lost. Nothing is held.
    pub(crate) fn lost(&mut self, run: u64) -> Result<Option<u64>, SlotRefusal>
        ensures answer { result ≡ run_answer run (λ s. recorded_of s.state) (first_with (holds run) self.old.now) }
        ensures now { self.new.now ≡ change_first (has (holds run)) (with_state lost_state) self.old.now }
        ensures err { OnErr result (self.new.now ≡ self.old.now) }
    {
        self.slots.lost(run)
    }

    /// The container of this generation is gone from the slot. Nothing is held.
    pub(crate) fn gone(&mut self, slot: u32, generation: u32) -> Result<(), SlotRefusal>
        ensures answer { result ≡ gone_answer slot generation (slice_get self.old.now slot) }
        ensures now { self.new.now ≡ change slot (after_gone generation) self.old.now }
        ensures err { OnErr result (self.new.now ≡ self.old.now) }
    {
        self.slots.gone(slot, generation)
    }

    /// From now on what they are now is kept. It takes no memory.
    pub(crate) fn hold(&mut self)
        ensures now { self.new.now ≡ self.old.now }
        ensures before { self.new.before ≡ self.old.now }
    {
        self.steps.clear();
    }

    /// They are again what they were at the hold. It takes no memory.
    pub(crate) fn take_back(&mut self)
        ensures { self.new.now ≡ self.old.before }
    {
        restore_all(&mut self.slots, &mut self.steps);
    }
}

// Makes room for one step, where it is held.
fn make_room(steps: &mut Vec<SlotStep>, held: bool) -> Result<(), NoMemory>
    ensures items { steps.new.items ≡ steps.old.items }
    ensures room { OnOk result (held ≡ true → vec_len steps.new < vec_capacity steps.new) }
{
    if held {
        steps.reserve(1)?;
    }
    Ok(())
}

// Keeps all slots as they were, where it is held.
fn keep_all(steps: &mut Vec<SlotStep>, held: bool, slots: Slots)
    requires { held ≡ true → vec_len steps.old < vec_capacity steps.old }
    ensures { steps.new.items ≡ all_noted held slots steps.old.items }
{
    if held {
        steps.push_reserved(SlotStep::All(slots));
    } else {
        drop(slots);
    }
}

// Keeps the slot as it is, where it is held.
fn note(
    alloc: Global,
    steps: &mut Vec<SlotStep>,
    slots: &Slots,
    held: bool,
    slot: u32,
) -> Result<(), NoMemory>
    ensures ok { OnOk result (steps.new.items ≡ slot_noted held slot slots.now steps.old.items) }
    ensures err { OnErr result (steps.new.items ≡ steps.old.items) }
{
    if !held {
        return Ok(());
    }
    match slots.get(slot) {
        Some(found) => {
            let old = found.copy(alloc)?;
            steps.push(SlotStep::Was(slot, old))?;
            Ok(())
        }
        None => Ok(()),
    }
}

// The containers of these slots are to be removed. Without memory some are.
fn remove_all(
    alloc: Global,
    slots: &mut Slots,
    steps: &mut Vec<SlotStep>,
    held: bool,
    numbers: &[u32],
) -> Result<(), NoMemory>
    requires { CanAllGo numbers.now slots.old }
    ensures now { OnOk result (slots.new ≡ removed numbers.now slots.old) }
    ensures within { (pool : ℕ) → IsWithinPool slots.old pool → IsWithinPool slots.new pool }
    ensures held { past held (restored steps.new.items slots.new) ≡ past held (restored steps.old.items slots.old) }
{
    for i in 0..numbers.len() {
        note(alloc, steps, slots, held, numbers[i])?;
        slots.remove(numbers[i]);
    }
    Ok(())
}

// Keeps the slot that is busy with the run as it is, where one is and it is held.
fn note_run(
    alloc: Global,
    steps: &mut Vec<SlotStep>,
    slots: &Slots,
    held: bool,
    run: u64,
) -> Result<(), NoMemory>
    ensures ok { OnOk result (steps.new.items ≡ run_noted held (position (has (runs run)) slots.now) slots.now steps.old.items) }
    ensures err { OnErr result (steps.new.items ≡ steps.old.items) }
{
    match running(slots, run) {
        Some(slot) => note(alloc, steps, slots, held, slot),
        None => Ok(()),
    }
}

// The number of the first slot that is busy with the run.
fn running(slots: &Slots, run: u64) -> Option<u32>
    ensures { result ≡ position (has (runs run)) slots.now }
{
    let all = slots.as_slice();
    match running_position(all, run) {
        Some(place) => Some(place as u32),
        None => None,
    }
}

/// The place of the first slot that is busy with the run.
pub(crate) fn running_position(slots: &[Slot], run: u64) -> Option<usize>
    ensures { result ≡ position (has (runs run)) slots.now }
{
    slots.iter().position(|slot| is_running(&slot.state, run))
}

fn is_running(state: &State, run: u64) -> bool
    ensures { result ≡ runs run state.now }
{
    match state {
        State::Busy(work) => work.run == run,
        _ => false,
    }
}

// Undoes one change.
fn restore(slots: &mut Slots, step: SlotStep)
    ensures { slots.new ≡ restore step slots.old }
{
    match step {
        SlotStep::Was(slot, old) => put_back(slots, slot, old),
        SlotStep::All(old) => *slots = old,
    }
}

// The slot is this one again, where it is there.
fn put_back(slots: &mut Slots, slot: u32, old: Slot)
    ensures { slots.new ≡ change slot (λ s. old) slots.old }
{
    if (slot as usize) < slots.as_slice().len() {
        slots.restore(slot, old);
    } else {
        drop(old);
    }
}

// Undoes all changes, the last first.
fn restore_all(slots: &mut Slots, steps: &mut Vec<SlotStep>)
    ensures { slots.new ≡ restored steps.old.items slots.old }
{
    while let Some(step) = steps.pop() {
        restore(slots, step);
    }
}
