// What may refuse a thread before one is asked of the system.
ghost use Rattle.std.specs.Prelude.{◌≡◌, ◌+◌, ◌-◌, ◌^◌, ◌↔◌, min, Contains, IsTrue, false};

/// May refuse a thread before one is asked of the system, as a system that has none left would.
pub trait Leave {
    /// Whether the task that is to be begun gets no thread.
    fn refuses(&mut self) -> bool;
}

/// Refuses no thread.
#[derive(Clone, Copy, Debug)]
pub struct Always {}

impl Always {
    /// One that refuses nothing.
    pub fn new() -> Always {
        Always {}
    }
}

impl Leave for Always {
    fn refuses(&mut self) -> bool
        ensures { result ≡ false }
    {
        false
    }
}

/// Refuses the threads whose numbers are in `failing`; the first requested thread has the number 0.
#[derive(Drop)]
pub struct RefusingLeave {
    calls: u64,
    failing: Vec<u64>,
}

impl RefusingLeave {
    /// No thread was requested yet.
    pub fn new(failing: Vec<u64>) -> RefusingLeave
        ensures calls { result.calls ≡ 0 }
        ensures failing { result.failing ≡ failing }
    {
        RefusingLeave { calls: 0, failing }
    }
}

impl Leave for RefusingLeave {
    fn refuses(&mut self) -> bool
        ensures listed { IsTrue result ↔ Contains self.old.failing.items self.old.calls }
        ensures calls { self.new.calls ≡ min (self.old.calls + 1) (2 ^ 64 - 1) }
        ensures failing { self.new.failing ≡ self.old.failing }
    {
        let number = self.calls;
        self.calls = self.calls.saturating_add(1);
        self.failing.contains(&number)
    }
}
