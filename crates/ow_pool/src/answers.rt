// What waits, and what is to be done next.
use crate::removal::Removal;
use ow_slots::{Key, Start};
use ow_traits::Kind;

/// The activation that waits longest.
#[derive(Drop)]
pub struct Head {
    /// What its container has to have run, to be warm for it.
    pub key: Key,
}

/// Why nothing is to be done.
#[derive(Clone, Copy, Debug, PartialEq, Eq)]
pub enum Unplaced {
    /// Nothing waits, and nothing more is wanted ahead.
    Empty,
    /// The memory is held, and none can be freed, or not before what is closing is gone.
    NoRoom,
}

/// What is to be done next.
#[derive(Drop)]
pub enum Place {
    /// The head runs in this slot.
    Run { slot: u32, start: Start },
    /// These containers are removed.
    Remove(Removal),
    /// A container is started ahead in this slot. The memory is in MB.
    Prewarm { slot: u32, kind: Kind, memory: u32 },
    Nothing(Unplaced),
}
