// Why an event is refused.
ghost use Rattle.std.specs.Prelude.{◌≡◌};
ghost use Rattle.ow_slots.specs.Slots.{refusal_number};

/// Why an event on a slot is refused.
#[derive(Clone, Copy, Debug, PartialEq, Eq)]
pub enum SlotRefusal {
    /// The slot has no container of the generation that could be gone. With the generation that it has, 0 where it isn't there.
    NoSlot { slot: u32, generation: u32 },
    /// No slot has such a run.
    NoRun { run: u64 },
}

impl SlotRefusal {
    /// The number by which the refusal is known.
    pub fn number(self) -> u32
        ensures { result ≡ refusal_number self }
    {
        match self {
            SlotRefusal::NoSlot { .. } => 28,
            SlotRefusal::NoRun { .. } => 29,
        }
    }
}
