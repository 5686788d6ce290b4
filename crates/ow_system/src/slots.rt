// A task that was started, and its thread until it is joined.
ghost use Rattle.std.specs.Prelude.{◌≡◌, ◌≤◌, ◌<◌, ◌+◌, vec_capacity, vec_len};
ghost use Rattle.ow_system.specs.Slots.{OneDone};
ghost use Rattle.ow_threads.specs.Slots.{after_join, task_due};

use ow_threads::Task;
use std::alloc::Global;
use std::marker::Model;
use std::mem;
use std::snapshot::Snapshot;
use std::sync::Arc;
use std::sync::atomic::{AtomicBool, Ordering};
use std::thread::{Promise, PromisedHandle, Threads};

// The promise of a thread: its result is one that the task may have.
#[derive(Drop)]
pub(crate) struct Ends<T: Task> {
    pub(crate) task: Snapshot<T>,
}

impl<T: Task> Promise<T::Done> for Ends<T> {
    ghost kept_by = { λ p r. T.ends p.task.value r };
}

// A thread that runs a task, and raises the flag when it has run it.
#[derive(Drop)]
pub(crate) struct Running<T: Task> {
    pub(crate) has_ended: Arc<AtomicBool, Global>,
    pub(crate) thread: PromisedHandle<T::Done, Ends<T>>,
}

// The state of a task that was started.
#[derive(Drop)]
pub(crate) enum Run<T: Task> {
    // A thread runs it or has run it.
    Alive(Running<T>),
    // Its thread was joined, and this is its result, which nobody has received yet.
    Ended(T::Done),
    // The call that waited for it has received its result.
    Over,
}

// A task that was started. A contract sees the task and whether it is joined, as those who wait for it know it.
pub(crate) struct Slot<T: Task> {
    pub(crate) task: Snapshot<T>,
    pub(crate) run: Run<T>,
}

impl<T: Task> Model for Slot<T> {
    ghost use Rattle.std.specs.Prelude.{Bool};
    ghost use Rattle.ow_system.specs.Runs.{MayStand, is_over};

    ghost Value = { T × Bool };

    ghost view = { λ s. (s.task.value, is_over s.run) };

    ghost invariant = { λ s. MayStand T.ends s.task.value s.run };
}

// Written out, since a derived one would pass a `Run` by value to a function of its own, and such a call gets no proof.
impl<T: Task> Drop for Slot<T> {
    fn drop(self) {
        let Slot { task: _, run } = self;
        match run {
            Run::Alive(running) => drop(running),
            Run::Ended(done) => drop(done),
            Run::Over => {}
        }
    }
}

impl<T: Task> Slot<T> {
    // Joins the thread if it has run the task, and answers whether there is no thread now. The task's result is kept.
    pub(crate) fn join_ended<R: Threads>(&mut self, rt: &R) -> bool
        ensures { self.new ≡ self.old }
    {
        if let Run::Alive(running) = &self.run
            && !running.has_ended.load(Ordering::SeqCst)
        {
            return false;
        }
        match mem::replace(&mut self.run, Run::Over) {
            Run::Alive(running) => self.run = Run::Ended(running.thread.join(rt)),
            run => self.run = run,
        }
        true
    }

    // Waits for the task, unless it stays or was joined, and appends its result to the others.
    pub(crate) fn join<R: Threads>(&mut self, rt: &R, stays: bool, dones: &mut Vec<T::Done>)
        requires { vec_len dones.old < vec_capacity dones.old }
        ensures slot { self.new ≡ after_join stays self.old }
        ensures done { OneDone T.ends (task_due stays self.old) dones.old.items dones.new.items }
        ensures len { vec_len dones.new ≤ vec_len dones.old + 1 }
        ensures capacity { vec_capacity dones.new ≡ vec_capacity dones.old }
    {
        if stays {
            return;
        }
        match mem::replace(&mut self.run, Run::Over) {
            Run::Alive(running) => dones.push_reserved(running.thread.join(rt)),
            Run::Ended(done) => dones.push_reserved(done),
            Run::Over => {}
        }
    }
}
