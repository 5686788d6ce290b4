// How much a namespace may ask for.
ghost use Rattle.std.specs.Prelude.{◌≡◌};
ghost use Rattle.ow_tenant.specs.Limits.{default_limits};

use ow_value::{NoMemory, PlainData};
use std::alloc::Global;

/// How much a namespace may ask for.
#[derive(Clone, Copy, Debug, PartialEq, Eq, Drop)]
pub struct NamespaceLimits {
    /// How many invocations in 60,000 milliseconds.
    pub per_minute: u32,
    /// How many invocations that have not ended.
    pub concurrent: u32,
    /// How many fires of triggers in 60,000 milliseconds.
    pub fires: u32,
}

impl NamespaceLimits {
    /// The limits of a namespace of which the table says nothing else.
    pub fn defaults() -> NamespaceLimits
        ensures { result ≡ default_limits }
    {
        NamespaceLimits {
            per_minute: 120,
            concurrent: 100,
            fires: 60,
        }
    }
}

impl PlainData for NamespaceLimits {
    fn same(&self, other: &NamespaceLimits) -> bool {
        self.per_minute == other.per_minute
            && self.concurrent == other.concurrent
            && self.fires == other.fires
    }

    fn copy(&self, _alloc: Global) -> Result<NamespaceLimits, NoMemory> {
        Ok(*self)
    }
}
