// Which slots have a thread, so that threads which have run their task are joined before somebody waits for them.
ghost use Rattle.std.specs.Prelude.{◌≡◌, ◌<◌, IfOk, vec_capacity, vec_len};

use crate::slots::Slot;
use ow_threads::Task;
use std::alloc::{AllocError, Global};
use std::thread::Threads;

// How many threads one call looks at.
const LOOKS: usize = 4;

// The numbers of the slots whose threads aren't joined, and which of them is looked at next. It may have numbers of slots that were
// joined, until it reaches them.
#[derive(Drop)]
pub(crate) struct Unjoined {
    numbers: Vec<usize>,
    at: usize,
}

impl Unjoined {
    // No numbers. This takes no memory.
    pub(crate) fn new(alloc: Global) -> Unjoined {
        Unjoined {
            numbers: Vec::new(alloc),
            at: 0,
        }
    }

    // Makes room for one number.
    pub(crate) fn reserve(&mut self) -> Result<(), AllocError>
        ensures { IfOk result (λ _. vec_len self.new.numbers < vec_capacity self.new.numbers) }
    {
        self.numbers.reserve(1)
    }

    // Adds the number of a slot that has a thread. There is room for it.
    pub(crate) fn push_reserved(&mut self, number: usize)
        requires { vec_len self.old.numbers < vec_capacity self.old.numbers }
    {
        self.numbers.push_reserved(number);
    }

    // Looks at the next few threads, and joins the ones that have run their task. Where each call is followed by one new thread at
    // most, fewer threads are kept than twice as many as ever run at the same time, and a few.
    pub(crate) fn join_ended<R: Threads, T: Task>(&mut self, rt: &R, slots: &mut Vec<Slot<T>>)
        ensures { slots.new.items ≡ slots.old.items }
    {
        for _ in 0..LOOKS {
            self.look(rt, slots);
        }
    }

    // Looks at the next thread.
    fn look<R: Threads, T: Task>(&mut self, rt: &R, slots: &mut Vec<Slot<T>>)
        ensures { slots.new.items ≡ slots.old.items }
    {
        if self.at >= self.numbers.len() {
            self.at = 0;
        }
        let Some(number) = self.numbers.get(self.at) else {
            return;
        };
        if is_joined(rt, slots, *number) {
            self.numbers.swap_remove(self.at);
        } else {
            self.at += 1;
        }
    }
}

// Joins the thread of the slot of this number if it has run its task, and answers whether the slot has no thread now.
fn is_joined<R: Threads, T: Task>(rt: &R, slots: &mut Vec<Slot<T>>, number: usize) -> bool
    ensures { slots.new.items ≡ slots.old.items }
{
    let Some(slot) = slots.get_mut(number) else {
        return true;
    };
    slot.join_ended(rt)
}
