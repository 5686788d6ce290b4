// Numbers between bounds, and the limits of runs.
ghost use Rattle.std.specs.Prelude.{◌≡◌};
ghost use Rattle.ow_value.specs.Decimal.{if_within};
ghost use Rattle.ow_entity.specs.Bounds.{IsBetween};

use std::marker::Model;

/// The least time of a run, in milliseconds.
pub const LEAST_TIMEOUT: u32 = 100;

/// The most time of a run, in milliseconds.
pub const MOST_TIMEOUT: u32 = 300_000;

/// The least memory of a run, in MB.
pub const LEAST_MEMORY: u32 = 128;

/// The most memory of a run, in MB.
pub const MOST_MEMORY: u32 = 512;

/// The least size of what a run logs, in MB.
pub const LEAST_LOGS: u32 = 0;

/// The most size of what a run logs, in MB.
pub const MOST_LOGS: u32 = 10;

/// The time of a run of an action whose body names none, in milliseconds.
pub const DEFAULT_TIMEOUT: u32 = 60_000;

/// The memory of a run of an action whose body names none, in MB.
pub const DEFAULT_MEMORY: u32 = 256;

/// The size of what a run of an action logs whose body names none, in MB.
pub const DEFAULT_LOGS: u32 = 10;

/// A number from `LEAST` to `MOST`.
#[derive(Clone, Copy, PartialEq, Eq, Debug, Drop)]
pub struct Bounded<const LEAST: u32, const MOST: u32> {
    number: u32,
}

impl<const LEAST: u32, const MOST: u32> Model for Bounded<LEAST, MOST> {
    ghost use Rattle.std.specs.Prelude.{ℕ};
    ghost use Rattle.ow_entity.specs.Bounds.{IsBetween};

    ghost Value = { ℕ };

    ghost view = { λ a. a.number };

    ghost invariant = { λ a. IsBetween LEAST MOST a.number };

    ghost inverse = { λ n. record { number = n } };
}

impl<const LEAST: u32, const MOST: u32> Bounded<LEAST, MOST> {
    /// The number, where it lies within the bounds.
    pub fn of(number: u64) -> Option<Bounded<LEAST, MOST>>
        ensures { result ≡ if_within LEAST MOST number }
    {
        if LEAST as u64 <= number && number <= MOST as u64 {
            Some(Bounded {
                number: number as u32,
            })
        } else {
            None
        }
    }

    /// The number.
    pub fn get(&self) -> u32
        ensures value { result ≡ self.now }
        ensures within { IsBetween LEAST MOST result }
    {
        self.number
    }
}

/// How long a run may take, in milliseconds.
pub type Timeout = Bounded<LEAST_TIMEOUT, MOST_TIMEOUT>;

/// How much memory a run may take, in MB.
pub type Memory = Bounded<LEAST_MEMORY, MOST_MEMORY>;

/// How much a run may log, in MB.
pub type Logs = Bounded<LEAST_LOGS, MOST_LOGS>;

/// What a run of an action may take.
#[derive(Clone, Copy, PartialEq, Eq, Debug, Drop)]
pub struct Limits {
    /// The time that it may take.
    pub timeout: Timeout,
    /// The memory that it may take.
    pub memory: Memory,
    /// What it may log.
    pub logs: Logs,
}

impl Limits {
    ghost use Rattle.ow_entity.specs.FitAction.{IsFitLimits};

    /// The limits of an action whose body names none, which are those of the OpenWhisk documentation.
    pub const DEFAULT: Limits = Limits {
        timeout: Bounded {
            number: DEFAULT_TIMEOUT,
        },
        memory: Bounded {
            number: DEFAULT_MEMORY,
        },
        logs: Bounded {
            number: DEFAULT_LOGS,
        },
    };

    // Makes known that each limit lies within its bounds.
    pub(crate) fn known(self)
        ensures { IsFitLimits self }
    {
        self.timeout.get();
        self.memory.get();
        self.logs.get();
    }
}

/// The limits that a body gives.
#[derive(Clone, Copy, PartialEq, Eq, Debug, Drop)]
pub struct GivenLimits {
    /// The time that a run may take.
    pub timeout: Option<Timeout>,
    /// The memory that it may take.
    pub memory: Option<Memory>,
    /// What it may log.
    pub logs: Option<Logs>,
}

impl GivenLimits {
    /// No limit is given.
    pub const NONE: GivenLimits = GivenLimits {
        timeout: None,
        memory: None,
        logs: None,
    };
}
