// What a drill counts.
ghost use Rattle.std.specs.Prelude.{◌≡◌, ◌+◌, IfOk};
ghost use Rattle.ow_drill.specs.Drill.{both};

use ow_value::NoMemory;

/// What a drill counts.
#[derive(Clone, Copy, PartialEq, Eq, Debug, Drop)]
pub struct Tally {
    /// The calls that were accepted.
    pub accepted: u64,
    /// The calls that were refused, for whatever reason.
    pub refused: u64,
    /// The activations that turns recorded.
    pub recorded: u64,
}

impl Tally {
    /// Of no call.
    pub const NONE: Tally = Tally {
        accepted: 0,
        refused: 0,
        recorded: 0,
    };

    /// Of a call that was refused.
    pub(crate) const REFUSED: Tally = Tally {
        accepted: 0,
        refused: 1,
        recorded: 0,
    };

    /// Of both. A count that passes 64 bits is as out of memory.
    pub(crate) fn plus(self, other: Tally) -> Result<Tally, NoMemory>
        ensures { IfOk result (λ tally. tally ≡ both self other) }
    {
        Ok(Tally {
            accepted: added(self.accepted, other.accepted)?,
            refused: added(self.refused, other.refused)?,
            recorded: added(self.recorded, other.recorded)?,
        })
    }
}

/// The sum. One that passes 64 bits is as out of memory.
pub(crate) fn added(a: u64, b: u64) -> Result<u64, NoMemory>
    ensures { IfOk result (λ sum. sum ≡ a + b) }
{
    match a.checked_add(b) {
        Some(sum) => Ok(sum),
        None => Err(NoMemory),
    }
}
