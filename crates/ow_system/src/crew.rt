// Tasks that threads run.
ghost use Rattle.std.specs.Prelude.{◌≡◌, ◌≤◌, [], true, false, length, MatchOption, MatchResult, vec_capacity, vec_len};
ghost use Rattle.ow_threads.specs.Tasks.{AllEnd, Began, Joined, joined, pending};

use crate::Leave;
use crate::slots::{Ends, Run, Running, Slot};
use crate::unjoined::Unjoined;
use ow_threads::{Begun, Task};
use ow_value::NoMemory;
use std::alloc::{AllocError, Global};
use std::marker::Model;
use std::snapshot::Snapshot;
use std::sync::Arc;
use std::sync::atomic::{AtomicBool, Ordering};
use std::thread::Threads;
use std::{mem, thread};

/// Starts tasks, each in a thread of its own, and waits for them, as a spawner does. The tasks that it started are numbered from 0.
///
/// A contract sees it as its count of faults and the tasks that it started, each with whether it is joined. Threads that aren't joined
/// before it is dropped go on by themselves, and the end of the program may cut them off. A thread that has run its task is joined at one
/// of the next calls of `begin`, so that few threads are kept however many tasks are started; the task's result is kept for `join`.
#[derive(Drop)]
pub struct Crew<L: Leave + Drop, T: Task> {
    leave: L,
    slots: Vec<Slot<T>>,
    unjoined: Unjoined,
    faults: u64,
}

impl<L: Leave + Drop, T: Task> Model for Crew<L, T> {
    ghost use Rattle.ow_system.specs.CrewView.{CrewView};

    ghost Value = { CrewView T };

    ghost view = { λ s. record { faults = s.faults; tasks = s.slots.items } };
}

impl<L: Leave + Drop, T: Task> Crew<L, T> {
    /// A crew that has started nothing, with no fault yet. This takes no memory.
    pub fn new(alloc: Global, leave: L) -> Self
        ensures tasks { result.tasks ≡ [] }
        ensures faults { result.faults ≡ 0 }
    {
        Crew {
            leave,
            slots: Vec::new(alloc),
            unjoined: Unjoined::new(alloc),
            faults: 0,
        }
    }

    /// How many calls of `begin` got no thread. The count saturates at the greatest u64.
    pub fn faults(&self) -> u64
        ensures { result ≡ self.now.faults }
    {
        self.faults
    }

    /// How many tasks it has started.
    pub fn started(&self) -> u64
        ensures { result ≡ length self.now.tasks }
    {
        self.slots.len() as u64
    }

    /// Starts a task. Where no thread is available, also when memory ran out, the count of faults rises, and this call runs the task if
    /// `here` holds, or else drops it.
    pub fn begin<R: Threads>(&mut self, rt: &R, task: T, here: bool) -> Begun<T::Done>
        ensures { Began T.ends self.old.faults self.new.faults self.old.tasks self.new.tasks task here result }
    {
        self.unjoined.join_ended(rt, &mut self.slots);
        if self.leave.refuses()
            || self.slots.reserve(1).is_err()
            || self.unjoined.reserve().is_err()
        {
            self.faults = self.faults.saturating_add(1);
            return if here {
                Begun::Ran(task.run())
            } else {
                Begun::Refused
            };
        }
        let alloc = *self.slots.allocator();
        match start(rt, alloc, task, here) {
            Ok(slot) => {
                self.unjoined.push_reserved(self.slots.len());
                self.slots.push_reserved(slot);
                Begun::Started
            }
            Err(ran) => {
                self.faults = self.faults.saturating_add(1);
                match ran {
                    Some(done) => Begun::Ran(done),
                    None => Begun::Refused,
                }
            }
        }
    }

    /// Waits for the tasks numbered `from` or more that aren't joined yet, and returns their results in order.
    /// Where memory runs out it joins none.
    pub fn join<R: Threads>(
        &mut self,
        rt: &R,
        alloc: Global,
        from: u64,
    ) -> Result<Vec<T::Done>, NoMemory>
        ensures joined { Joined T.ends (λ v. v.items) self.old.tasks self.new.tasks from result }
        ensures faults { self.new.faults ≡ self.old.faults }
    {
        let mut dones = Vec::with_capacity(alloc, self.slots.len())?;
        let mut slots = Vec::with_capacity(alloc, self.slots.len())?;
        let all = mem::replace(&mut self.slots, Vec::new(alloc));
        join_all(rt, all, from, &mut slots, &mut dones);
        self.slots = slots;
        Ok(dones)
    }
}

// Starts a thread that runs the task. Where none is available, the task is run here, if it may be, or dropped.
fn start<R: Threads, T: Task>(
    rt: &R,
    alloc: Global,
    task: T,
    here: bool,
) -> Result<Slot<T>, Option<T::Done>>
    ensures { MatchResult result (λ s. s ≡ (task, false)) (λ e. MatchOption e (here ≡ false) (λ d. (here ≡ true) × T.ends task d)) }
{
    let Ok((has_ended, raised)) = flag(alloc) else {
        return Err(if here { Some(task.run()) } else { None });
    };
    let told = Snapshot::of(&task);
    let promise = Ends {
        task: Snapshot::of(&task),
    };
    let run = move || -> T::Done
        ensures { T.ends task result }
    {
        let done = task.run();
        raised.store(true, Ordering::SeqCst);
        done
    };
    match thread::spawn_with(rt, promise, run) {
        Ok(thread) => Ok(Slot {
            task: told,
            run: Run::Alive(Running { has_ended, thread }),
        }),
        Err(refused) => Err(if here { Some((refused.value)()) } else { None }),
    }
}

// A flag that isn't raised, for two owners.
fn flag(alloc: Global) -> Result<(Arc<AtomicBool, Global>, Arc<AtomicBool, Global>), AllocError> {
    let ours = Arc::new(alloc, AtomicBool::new(false))?;
    let theirs = Arc::try_clone(&ours)?;
    Ok((ours, theirs))
}

// Joins all slots in order, except the ones numbered below `from`. There is room for what they become and for their results.
fn join_all<R: Threads, T: Task>(
    rt: &R,
    all: Vec<Slot<T>>,
    from: u64,
    slots: &mut Vec<Slot<T>>,
    dones: &mut Vec<T::Done>,
)
    requires slots { (slots.old.items ≡ []) × (vec_len all ≤ vec_capacity slots.old) }
    requires dones { (dones.old.items ≡ []) × (vec_len all ≤ vec_capacity dones.old) }
    ensures slots { slots.new.items ≡ joined from all.items }
    ensures dones { AllEnd T.ends (pending from all.items) dones.new.items }
{
    let mut number = 0u64;
    for slot in all {
        let mut slot = slot;
        slot.join(rt, number < from, dones);
        slots.push_reserved(slot);
        number += 1;
    }
}
