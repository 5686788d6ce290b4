// Tasks, and who begins them and waits for them.
ghost use Rattle.std.specs.Prelude.{◌≡◌, ℕ, List, Bool};
ghost use Rattle.ow_threads.specs.Tasks.{Began, Joined};

use ow_value::NoMemory;
use std::alloc::Global;

/// What became of a task that was to be begun.
#[derive(Drop)]
pub enum Begun<D: Drop> {
    /// It was started, and can be joined.
    Started,
    /// No thread was available, and the call ran the task itself: this is the task's result.
    Ran(D),
    /// No thread was available, and the task was dropped.
    Refused,
}

/// Work that a thread may do.
pub trait Task: Drop + Send + 'static {
    /// The result of the work.
    type Done: Drop + Send + 'static;

    /// The results that this task may have.
    ghost ends: { Self → Self.Done → Type 0 };

    /// Does the work.
    fn run(self) -> Self::Done
        ensures { ends self result };
}

/// Starts tasks and waits for them. The tasks that it started are numbered from 0.
pub trait Spawner<T: Task> {
    /// How many calls of `begin` got no thread.
    ghost faults: { Self → ℕ };

    /// The tasks that were started, each with whether it is joined.
    ghost tasks: { Self → List (T × Bool) };

    /// How many calls of `begin` got no thread. The count saturates at the greatest u64.
    fn faults(&self) -> u64
        ensures { result ≡ faults self.now };

    /// Starts a task. Where no thread is available the count of faults rises, and this call runs the task if `here` holds,
    /// or else drops it.
    fn begin(&mut self, task: T, here: bool) -> Begun<T::Done>
        ensures { Began T.ends (faults self.old) (faults self.new) (tasks self.old) (tasks self.new) task here result };

    /// Waits for the tasks numbered `from` or more that aren't joined yet, and returns their results in order.
    /// Where memory runs out it joins none.
    fn join(&mut self, alloc: Global, from: u64) -> Result<Vec<T::Done>, NoMemory>
        ensures joined { Joined T.ends (λ v. v.items) (tasks self.old) (tasks self.new) from result }
        ensures faults { faults self.new ≡ faults self.old };
}
