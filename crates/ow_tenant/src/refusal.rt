// Why the office table was not read, or a request not allowed by it.
ghost use Rattle.std.specs.Prelude.{◌≡◌};
ghost use Rattle.ow_tenant.specs.Refusal.{tenant_number, window_number};

use ow_traits::Failed;
use ow_value::NoMemory;

/// Why the office table was not read, or a request not allowed by it.
#[derive(Clone, Copy, Debug, PartialEq, Eq, Drop)]
pub enum TenantRefusal {
    /// The first row that breaks a rule, counted from 1. It is 0 where the table is too long.
    BadRow { row: u64 },
    /// The source of the table failed, and its count of faults rose.
    ReadFault,
    /// No memory was left for the table.
    NoMemory,
    /// No key, or one that the table doesn't have.
    UnknownKey,
    /// The key doesn't have the right, or there is no such namespace.
    NotGranted,
}

/// Why an invocation or a fire is over a limit: how many there are, and how many there may be.
#[derive(Clone, Copy, Debug, PartialEq, Eq, Drop)]
pub enum WindowRefusal {
    /// Of the invocations in the last minute.
    MinuteLimit { count: u64, allowed: u64 },
    /// Of the invocations that have not ended.
    ConcurrentLimit { count: u64, allowed: u64 },
    /// Of the fires in the last minute.
    FireLimit { count: u64, allowed: u64 },
}

impl TenantRefusal {
    /// The number by which a client distinguishes the refusals. A fault of reading and out of memory have 0.
    pub fn number(self) -> u32
        ensures { result ≡ tenant_number self }
    {
        match self {
            TenantRefusal::BadRow { .. } => 22,
            TenantRefusal::UnknownKey => 23,
            TenantRefusal::NotGranted => 24,
            TenantRefusal::ReadFault => 0,
            TenantRefusal::NoMemory => 0,
        }
    }
}

impl WindowRefusal {
    /// The number by which a client distinguishes the refusals.
    pub fn number(self) -> u32
        ensures { result ≡ window_number self }
    {
        match self {
            WindowRefusal::MinuteLimit { .. } => 25,
            WindowRefusal::ConcurrentLimit { .. } => 26,
            WindowRefusal::FireLimit { .. } => 27,
        }
    }
}

impl From<NoMemory> for TenantRefusal {
    ghost use Rattle.std.specs.Prelude.{◌≡◌};
    ghost use Rattle.ow_tenant.specs.declared.refusal.TenantRefusal.TheVariants.{NoMemory};

    ghost from_gives = { λ _ e. e ≡ NoMemory };

    fn from(_none: NoMemory) -> TenantRefusal {
        TenantRefusal::NoMemory
    }
}

impl From<Failed> for TenantRefusal {
    ghost use Rattle.std.specs.Prelude.{◌≡◌};
    ghost use Rattle.ow_tenant.specs.declared.refusal.TenantRefusal.TheVariants.{ReadFault};

    ghost from_gives = { λ _ e. e ≡ ReadFault };

    fn from(_failed: Failed) -> TenantRefusal {
        TenantRefusal::ReadFault
    }
}
