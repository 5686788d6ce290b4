// A spawner in memory, which needs no thread, and of which some calls are to fail.
ghost use Rattle.std.specs.Prelude.{◌≡◌, ◌+◌, ◌-◌, ◌^◌, ◌↔◌, min, [], Contains, IsTrue};
ghost use Rattle.ow_threads.specs.Slots.{after_join, seen, task_due};

use crate::{Begun, Spawner, Task};
use ow_value::NoMemory;
use std::alloc::Global;
use std::mem;
use std::snapshot::Snapshot;

/// Keeps the tasks that are begun, and runs each when it is joined. The calls of `begin` whose numbers are in `failing` get no
/// thread; the first has the number 0. A call that finds no memory gets none either.
#[derive(Drop)]
pub struct RefusingSpawner<T: Task> {
    slots: Vec<Slot<T>>,
    calls: u64,
    failing: Vec<u64>,
    faults: u64,
}

// A task that was started.
#[derive(Drop)]
enum Slot<T: Drop> {
    // It is still to be run.
    Waiting(T),
    // It was run and joined.
    Joined(Snapshot<T>),
}

impl<T: Task> RefusingSpawner<T> {
    /// A spawner that has started nothing, with no fault yet. This takes no memory.
    pub fn new(alloc: Global, failing: Vec<u64>) -> Self
        ensures tasks { ⟦<RefusingSpawner<T> as Spawner<T>>⟧.tasks result ≡ [] }
        ensures faults { ⟦<RefusingSpawner<T> as Spawner<T>>⟧.faults result ≡ 0 }
    {
        RefusingSpawner {
            slots: Vec::new(alloc),
            calls: 0,
            failing,
            faults: 0,
        }
    }
}

impl<T: Task> Spawner<T> for RefusingSpawner<T> {
    ghost use Rattle.std.specs.Prelude.{map};
    ghost use Rattle.ow_threads.specs.Slots.{seen};

    ghost faults = { λ s. s.faults };

    ghost tasks = { λ s. map seen s.slots.items };

    fn faults(&self) -> u64 {
        self.faults
    }

    fn begin(&mut self, task: T, here: bool) -> Begun<T::Done> {
        let fails = is_failing(&mut self.calls, &self.failing);
        if fails || self.slots.reserve(1).is_err() {
            self.faults = self.faults.saturating_add(1);
            return if here {
                Begun::Ran(task.run())
            } else {
                Begun::Refused
            };
        }
        self.slots.push_reserved(Slot::Waiting(task));
        Begun::Started
    }

    fn join(&mut self, alloc: Global, from: u64) -> Result<Vec<T::Done>, NoMemory> {
        let mut dones = Vec::with_capacity(alloc, self.slots.len())?;
        let mut slots = Vec::with_capacity(alloc, self.slots.len())?;
        let all = mem::replace(&mut self.slots, Vec::new(alloc));
        let mut number = 0u64;
        for slot in all {
            let (slot, task) = slot_after(slot, number < from);
            slots.push_reserved(slot);
            number += 1;
            if let Some(task) = task {
                dones.push_reserved(task.run());
            }
        }
        self.slots = slots;
        Ok(dones)
    }
}

// Counts a call, and answers whether it is to fail.
fn is_failing(calls: &mut u64, failing: &[u64]) -> bool
    ensures listed { IsTrue result ↔ Contains failing.now calls.old }
    ensures calls { calls.new ≡ min (calls.old + 1) (2 ^ 64 - 1) }
{
    let number = *calls;
    *calls = calls.saturating_add(1);
    failing.contains(&number)
}

// A slot after a join, and the task that the join is to run, if any. A slot that stays is left for a later join.
fn slot_after<T: Drop>(slot: Slot<T>, stays: bool) -> (Slot<T>, Option<T>)
    ensures slot { seen result.0 ≡ after_join stays (seen slot) }
    ensures task { result.1 ≡ task_due stays (seen slot) }
{
    match slot {
        Slot::Waiting(task) => {
            if stays {
                return (Slot::Waiting(task), None);
            }
            (Slot::Joined(Snapshot::of(&task)), Some(task))
        }
        Slot::Joined(told) => (Slot::Joined(told), None),
    }
}
