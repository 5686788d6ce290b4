// Slots whose containers can be removed, in their order.
ghost use Rattle.std.specs.Prelude.{◌≡◌};
ghost use Rattle.ow_pool.specs.Candidates.{candidate_in, is_before};

use ow_slots::State;

/// A slot whose container can be removed.
#[derive(Clone, Copy, Debug, PartialEq, Eq)]
pub struct Candidate {
    pub slot: u32,
    pub memory: u32,
    pub prewarmed: bool,
    pub last_used: u64,
}

impl Candidate {
    /// Whether it is removed before the other.
    pub(crate) fn is_before(&self, other: &Candidate) -> bool
        ensures { result ≡ is_before self.now other.now }
    {
        if self.prewarmed {
            other.prewarmed && self.slot < other.slot
        } else {
            other.prewarmed
                || self.last_used < other.last_used
                || (self.last_used == other.last_used && self.slot < other.slot)
        }
    }
}

/// The slot, where it can be removed.
pub(crate) fn candidate_of(slot: u32, state: &State) -> Option<Candidate>
    ensures { result ≡ candidate_in slot state.now }
{
    match state {
        State::Idle { key, last_used } => Some(Candidate {
            slot,
            memory: key.memory,
            prewarmed: false,
            last_used: *last_used,
        }),
        State::Prewarmed { memory, .. } => Some(Candidate {
            slot,
            memory: *memory,
            prewarmed: true,
            last_used: 0,
        }),
        _ => None,
    }
}
