// All slots, and their calls.
ghost use Rattle.std.specs.Prelude.{◌≡◌, ◌<◌, ◌^◌, ◌↔◌, length, IfOk, IsTrue, map, replicate, slice_get};
ghost use Rattle.std.specs.Option.{option_copied};
ghost use Rattle.ow_slots.specs.Slots.{IsThere, change, change_first, first_with, gone_answer, has, run_answer, vacant_slot};
ghost use Rattle.ow_slots.specs.State.{CanGo, IsUnrecorded, IsVacant, StartFits, after_gone, answered_state, assigned, awaits, begun_state, holds, lost_state, opened, overrun_state, recorded_of, removed_state, runs, with_state};
ghost use Rattle.ow_slots.specs.declared.states.State.TheVariants.{Vacant};

use crate::keys::{Key, Start};
use crate::places::{awaiting, holding, running};
use crate::refusal::SlotRefusal;
use crate::states::{Slot, State};
use ow_traits::Kind;
use ow_value::NoMemory;
use std::alloc::Global;
use std::marker::Model;
use std::mem;

/// Slots, numbered from 0. Contracts see the list of them. Only to make them takes memory.
#[derive(Drop)]
pub struct Slots {
    slots: Vec<Slot>,
}

impl Model for Slots {
    ghost use Rattle.std.specs.Prelude.{◌<◌, ◌^◌, List, length};
    ghost use Rattle.ow_slots.specs.declared.states.Slot.{Slot};

    ghost Value = { List Slot };

    ghost view = { λ s. s.slots.items };

    ghost invariant = { λ s. length s.slots.items < 2 ^ 32 };
}

impl Slots {
    /// `count` slots, all vacant.
    pub fn new(alloc: Global, count: u32) -> Result<Slots, NoMemory>
        ensures { IfOk result (λ s. s ≡ replicate count vacant_slot) }
    {
        let mut slots = Vec::with_capacity(alloc, count as usize)?;
        for _ in 0..count {
            slots.push(Slot {
                generation: 0,
                state: State::Vacant,
            })?;
        }
        Ok(Slots { slots })
    }

    /// As many slots, of the same generations, all vacant.
    pub fn emptied(&self, alloc: Global) -> Result<Slots, NoMemory>
        ensures { IfOk result (λ s. s ≡ map (with_state (λ state. Vacant)) self.now) }
    {
        let slots = vacant_slots(alloc, &self.slots)?;
        Ok(Slots { slots })
    }

    /// All slots, by number.
    pub fn as_slice(&self) -> &[Slot]
        ensures value { result.now ≡ self.now }
        ensures bounded { length self.now < 2 ^ 32 }
    {
        self.slots.as_slice()
    }

    /// The slot of this number, where it is there.
    pub fn get(&self, slot: u32) -> Option<&Slot>
        ensures { option_copied result ≡ slice_get self.now slot }
    {
        self.slots.get(slot as usize)
    }

    /// Whether a run can start so in the slot.
    pub fn fits(&self, slot: u32, start: Start) -> bool
        ensures { IsTrue result ↔ IsThere (StartFits start) (slice_get self.now slot) }
    {
        match self.get(slot) {
            Some(found) => found.fits(start),
            None => false,
        }
    }

    /// Whether the container of the slot can be removed.
    pub fn can_remove(&self, slot: u32) -> bool
        ensures { IsTrue result ↔ IsThere CanGo (slice_get self.now slot) }
    {
        match self.get(slot) {
            Some(found) => found.can_go(),
            None => false,
        }
    }

    /// Whether a slot is busy with the run, and its activation isn't recorded as overrun.
    pub fn is_unrecorded(&self, run: u64) -> bool
        ensures { IsTrue result ↔ IsThere IsUnrecorded (first_with (runs run) self.now) }
    {
        match running(&self.slots, run) {
            Some(place) => self.slots[place].state.recorded().is_none(),
            None => false,
        }
    }

    /// A run starts in the slot.
    pub fn assign(&mut self, slot: u32, run: u64, key: Key, start: Start, at: u64)
        requires { IsThere (StartFits start) (slice_get self.old slot) }
        ensures { self.new ≡ change slot (assigned run key start at) self.old }
    {
        self.slots[slot as usize].assign(run, key, start, at);
    }

    /// A container starts in the slot ahead of any run of an action.
    pub fn preopen(&mut self, slot: u32, run: u64, kind: Kind, memory: u32)
        requires { IsThere IsVacant (slice_get self.old slot) }
        ensures { self.new ≡ change slot (opened run kind memory) self.old }
    {
        self.slots[slot as usize].open(run, kind, memory);
    }

    /// The container of the run is initialised, at this moment.
    pub fn begun(&mut self, run: u64, at: u64) -> Result<(), SlotRefusal>
        ensures answer { result ≡ run_answer run (λ s. tt) (first_with (awaits run) self.old) }
        ensures slots { self.new ≡ change_first (has (awaits run)) (with_state (begun_state at)) self.old }
    {
        let place = match awaiting(&self.slots, run) {
            Some(place) => place,
            None => return Err(SlotRefusal::NoRun { run }),
        };
        self.slots[place].begin(at);
        Ok(())
    }

    /// The run is answered; `alive` where its container can run again. Returns the moment at which it was recorded as overrun, where it
    /// was.
    pub fn answered(&mut self, run: u64, alive: bool, at: u64) -> Result<Option<u64>, SlotRefusal>
        ensures answer { result ≡ run_answer run (λ s. recorded_of s.state) (first_with (runs run) self.old) }
        ensures slots { self.new ≡ change_first (has (runs run)) (with_state (answered_state alive at)) self.old }
    {
        let place = match running(&self.slots, run) {
            Some(place) => place,
            None => return Err(SlotRefusal::NoRun { run }),
        };
        Ok(self.slots[place].answer(alive, at))
    }

    /// The run is lost. Returns the moment at which it was recorded as overrun, where it was.
    pub fn lost(&mut self, run: u64) -> Result<Option<u64>, SlotRefusal>
        ensures answer { result ≡ run_answer run (λ s. recorded_of s.state) (first_with (holds run) self.old) }
        ensures slots { self.new ≡ change_first (has (holds run)) (with_state lost_state) self.old }
    {
        let place = match holding(&self.slots, run) {
            Some(place) => place,
            None => return Err(SlotRefusal::NoRun { run }),
        };
        Ok(self.slots[place].lose())
    }

    /// The container of this generation is gone from the slot.
    pub fn gone(&mut self, slot: u32, generation: u32) -> Result<(), SlotRefusal>
        ensures answer { result ≡ gone_answer slot generation (slice_get self.old slot) }
        ensures slots { self.new ≡ change slot (after_gone generation) self.old }
    {
        let place = slot as usize;
        if place >= self.slots.len() {
            return Err(SlotRefusal::NoSlot {
                slot,
                generation: 0,
            });
        }
        self.slots[place].go(slot, generation)
    }

    /// The activation of the run is recorded as overrun, at this moment.
    pub fn overrun(&mut self, run: u64, at: u64)
        requires { IsThere IsUnrecorded (first_with (runs run) self.old) }
        ensures { self.new ≡ change_first (has (runs run)) (with_state (overrun_state at)) self.old }
    {
        if let Some(place) = running(&self.slots, run) {
            self.slots[place].overrun(at);
        }
    }

    /// The container of the slot is to be removed. It holds its memory until it is gone.
    pub fn remove(&mut self, slot: u32)
        requires { IsThere CanGo (slice_get self.old slot) }
        ensures { self.new ≡ change slot (with_state removed_state) self.old }
    {
        self.slots[slot as usize].remove();
    }

    /// The slot is this one again.
    pub fn restore(&mut self, slot: u32, old: Slot)
        requires { slot < length self.old }
        ensures { self.new ≡ change slot (λ s. old) self.old }
    {
        drop(mem::replace(&mut self.slots[slot as usize], old));
    }
}

// As many, of the same generations, all vacant.
fn vacant_slots(alloc: Global, slots: &[Slot]) -> Result<Vec<Slot>, NoMemory>
    ensures { IfOk result (λ v. v.items ≡ map (with_state (λ state. Vacant)) slots.now) }
{
    let mut vacant = Vec::new(alloc);
    for slot in slots {
        vacant.push(slot.vacated())?;
    }
    Ok(vacant)
}
