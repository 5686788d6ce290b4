// Moments. The moments of the last minute are counted.
ghost use Rattle.std.specs.Prelude.{◌≡◌, ◌≤◌, ◌<◌, ◌+◌, [], ◌-◌, count_by, OnOk, ℕ};
ghost use Rattle.ow_tenant.specs.Notes.{counts_at};
ghost use Rattle.ow_tenant.specs.Queue.{AllUpTo, LetsGo, Rise, with_one};
ghost use Rattle.std.specs.VecDeque.{deque_capacity, deque_len};

use ow_value::NoMemory;
use std::alloc::Global;
use std::collections::VecDeque;
use std::marker::Model;

/// How long a moment counts, in milliseconds.
const MINUTE: u64 = 60_000;

/// Moments that don't fall. A moment that doesn't count any more is dropped when another is added.
#[derive(Drop)]
pub(crate) struct Queue {
    moments: VecDeque<u64>,
}

impl Model for Queue {
    ghost use Rattle.std.specs.Prelude.{◌-◌};
    ghost use Rattle.std.specs.VecDeque.{deque_capacity, deque_len};
    ghost use Rattle.ow_tenant.specs.Queue.{Kept};

    ghost Value = { Kept };

    ghost view = { λ q. record { moments = q.moments.items; room = deque_capacity q.moments - deque_len q.moments } };
}

impl Queue {
    /// No moment. This takes no memory.
    pub(crate) fn new(alloc: Global) -> Queue
        ensures { result.moments ≡ [] }
    {
        Queue {
            moments: VecDeque::new(alloc),
        }
    }

    /// How many of the moments count at `now`.
    pub(crate) fn count(&self, now: u64) -> usize
        ensures { Rise self.now.moments → result ≡ count_by (counts_at now) self.now.moments }
    {
        match now.checked_sub(MINUTE) {
            Some(last) => self.moments.len() - self.moments.partition_point(|at| *at <= last),
            None => self.moments.len(),
        }
    }

    /// Makes room for that many.
    pub(crate) fn reserve(&mut self, count: usize) -> Result<(), NoMemory>
        ensures moments { self.new.moments ≡ self.old.moments }
        ensures more { self.old.room ≤ self.new.room }
        ensures room { OnOk result (count ≤ self.new.room) }
    {
        self.moments.reserve(count)?;
        Ok(())
    }

    /// One more moment, which is none before the others. It takes no memory.
    pub(crate) fn add(&mut self, at: u64)
        requires { 0 < self.old.room }
        ensures room { self.old.room ≤ self.new.room + 1 }
        ensures counts { (now : ℕ) → at ≤ now → count_by (counts_at now) self.new.moments ≡ with_one (counts_at now at) (count_by (counts_at now) self.old.moments) }
        ensures order { Rise self.old.moments → AllUpTo at self.old.moments → Rise self.new.moments }
        ensures latest { AllUpTo at self.old.moments → AllUpTo at self.new.moments }
    {
        drop_old(&mut self.moments, at);
        self.moments.push_back_reserved(at);
    }
}

// Drops the moments at the front that don't count at `now` any more.
fn drop_old(moments: &mut VecDeque<u64>, now: u64)
    ensures lets_go { LetsGo now moments.old.items moments.new.items }
    ensures capacity { deque_capacity moments.new ≡ deque_capacity moments.old }
    ensures fewer { deque_len moments.new ≤ deque_len moments.old }
{
    while let Some(first) = moments.front() {
        if now.saturating_sub(*first) < MINUTE {
            break;
        }
        let _ = moments.pop_front();
    }
}
