// What became of a turn.
ghost use Rattle.std.specs.Prelude.{◌≡◌, ◌<◌, true};
ghost use Rattle.ow_desk.specs.Fitting.{IsSlot};

use ow_floor::RunOrder;
use ow_traits::RunReply;

/// What became of the container of a run that has a reply.
#[derive(Clone, Copy, Debug, PartialEq, Eq)]
pub enum Laid {
    /// It lies on the board.
    Put,
    /// The word of its slot was taken. It was stopped, and has been reported as gone.
    Taken,
    /// It was stopped, or never came up. It hasn't been reported as gone yet.
    Stopped,
}

/// A reply that is still to be booked. It can't be dropped: `again` spends it.
pub struct Job {
    pub(crate) order: RunOrder,
    pub(crate) reply: RunReply,
    pub(crate) laid: Laid,
    ghost fits: { IsSlot order.slot order.generation },
}

impl Job {
    /// The order of the run.
    pub fn order(&self) -> &RunOrder
        ensures { result.now ≡ self.now.order }
    {
        &self.order
    }

    /// What the runner replied to it.
    pub fn reply(&self) -> &RunReply
        ensures { result.now ≡ self.now.reply }
    {
        &self.reply
    }

    /// What became of its container.
    pub fn laid(&self) -> Laid
        ensures { result ≡ self.now.laid }
    {
        self.laid
    }
}

/// The result of a turn.
pub enum Turn {
    /// A run has its reply, which was reported to the hall: the hall has it, or answered that it came late or to no run.
    Ran,
    /// Containers that were to make room were looked for, and what lay there is gone.
    Removed,
    /// A container was started ahead, or did not come up.
    Warmed,
    /// The container of a run wasn't obtained: this word was seen in its place. The run is lost.
    Lost { seen: u64 },
    /// Nothing is to be done.
    Idle,
    /// The store failed at a reply, which is still to be booked.
    StoreFault(Job),
    /// Memory ran out: for a reply, which is still to be booked, or before there was one.
    NoMemory(Option<Job>),
}

/// The result of a sweep.
#[derive(Clone, Copy, Debug, PartialEq, Eq)]
pub enum Watch {
    /// What late runs carry has ended.
    Swept,
    /// The store failed. Nothing has ended.
    StoreFault,
    /// No memory was left.
    NoMemory,
}

/// What came of a prewarming.
#[derive(Clone, Copy, Debug, PartialEq, Eq)]
pub(crate) enum Warming {
    // The container is up, and lies on the board.
    Up,
    // The runner refused its start.
    Down,
    // The word of its slot was taken, and the container is stopped.
    Taken,
    // Memory ran out.
    Wanting,
}
