// The clock, and a clock in memory that doesn't move.
ghost use Rattle.std.specs.Prelude.{◌≡◌, ℕ, Option, Some, IfSome};

/// What a pause waits for beside its time.
#[derive(Clone, Copy, Debug, PartialEq, Eq)]
pub enum Bell {
    /// Something was accepted that a worker may run. One worker that waits is enough.
    Work,
    /// An activation of this count has ended, of whichever namespace.
    End(u64),
    /// The service closes.
    Close,
}

/// Returns the moment, and lets a worker wait.
pub trait Clock {
    /// The moment in milliseconds, where the clock reports it.
    ghost tells: { Self → Option ℕ };

    /// The moment, in milliseconds. It may be earlier than one that was returned before.
    fn now(&self) -> u64
        ensures { IfSome (tells self.now) (λ t. result ≡ t) };

    /// Waits for at most `ms` milliseconds, or for the bell. It may end at once: how long it takes is not promised.
    fn pause(&self, bell: Bell, ms: u64);

    /// Lets pauses that wait for this bell end early, those of other threads too. Where nothing waits it does nothing.
    fn ring(&self, bell: Bell);
}

/// A clock that always returns one moment. Its pauses end at once.
#[derive(Clone, Copy, Debug)]
pub struct FixedClock {
    at: u64,
}

impl FixedClock {
    /// A clock of this moment, in milliseconds.
    pub fn new(at: u64) -> FixedClock
        ensures { ⟦<FixedClock as Clock>⟧.tells result ≡ Some at }
    {
        FixedClock { at }
    }
}

impl Clock for FixedClock {
    ghost tells = { λ c. Some c.at };

    fn now(&self) -> u64 {
        self.at
    }

    fn pause(&self, _bell: Bell, _ms: u64) {}

    fn ring(&self, _bell: Bell) {}
}
