// What several records count for.
ghost use Rattle.std.specs.Prelude.{◌≡◌, ◌∷◌, [], ◌+◌, ◌*◌, ◌-◌, ◌<◌, ◌≤◌, ◌^◌, ℕ, Option};
ghost use Rattle.ow_usage.specs.Cells.{IsCountable, duration, held_for, memory_in, memory_time, plus, totals_of};

use ow_entity::Limits;
use ow_records::Record;

/// What several records count for.
#[derive(Clone, Copy, PartialEq, Eq, Debug, Drop)]
pub struct Totals {
    /// How many there are.
    pub activations: u64,
    /// How many of them have a code above 0.
    pub failed: u64,
    /// How long they took in all, in milliseconds.
    pub ms: u128,
    /// The memory that they held over time, in MB times milliseconds.
    pub mbms: u128,
}

impl Totals {
    /// Of no record.
    pub const NONE: Totals = Totals {
        activations: 0,
        failed: 0,
        ms: 0,
        mbms: 0,
    };

    /// Of one record.
    pub(crate) fn of(record: &Record) -> Totals
        requires { IsCountable record.now }
        ensures { result ≡ totals_of (record.now ∷ []) }
    {
        Totals {
            activations: 1,
            failed: u64::from(record.response.code() > 0),
            ms: u128::from(record.span.duration()),
            mbms: memory_time(record),
        }
    }

    /// Of both.
    pub(crate) fn plus(self, other: Totals) -> Totals
        requires activations { self.activations + other.activations < 2 ^ 64 }
        requires failed { self.failed + other.failed < 2 ^ 64 }
        requires ms { self.ms + other.ms < 2 ^ 128 }
        requires mbms { self.mbms + other.mbms < 2 ^ 128 }
        ensures { result ≡ plus self other }
    {
        Totals {
            activations: self.activations + other.activations,
            failed: self.failed + other.failed,
            ms: self.ms + other.ms,
            mbms: self.mbms + other.mbms,
        }
    }
}

// The memory that it held over time, where it was run.
fn memory_time(record: &Record) -> u128
    requires { IsCountable record.now }
    ensures { result ≡ memory_time record.now }
{
    match record.notes.wait_time {
        Some(_) => u128::from(record.span.duration()) * u128::from(memory_of(&record.notes.limits)),
        None => 0,
    }
}

// In MB.
fn memory_of(limits: &Option<Limits>) -> u32
    ensures { result ≡ memory_in limits.now }
{
    match limits {
        Some(limits) => limits.memory.get(),
        None => 0,
    }
}
