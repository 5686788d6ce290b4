// A link in memory, of which some calls are to fail.
ghost use Rattle.std.specs.Prelude.{◌≡◌, Some, drop};

use crate::Link;
use ow_traits::{Calls, Failed};
use std::alloc::Global;

/// Reads a peer's bytes from memory and keeps what is written to the peer. The calls of `read` and `write` are counted together,
/// from 0. A call whose number is in `failing` fails, and so does a write that finds no memory.
#[derive(Drop)]
pub struct MemoryLink {
    bytes: Vec<u8>,
    at: usize,
    taken: Vec<u8>,
    calls: Calls,
}

impl MemoryLink {
    ghost use Rattle.std.specs.Prelude.{Some, []};

    /// A link of a peer that sends these bytes, with no fault yet. This takes no memory.
    pub fn new(alloc: Global, bytes: Vec<u8>, failing: Vec<u64>) -> Self
        ensures left { ⟦<MemoryLink as Link>⟧.left result ≡ Some bytes.items }
        ensures taken { ⟦<MemoryLink as Link>⟧.taken result ≡ Some [] }
        ensures faults { ⟦<MemoryLink as Link>⟧.faults result ≡ 0 }
    {
        MemoryLink {
            bytes,
            at: 0,
            taken: Vec::new(alloc),
            calls: Calls::new(failing),
        }
    }

    /// The bytes of the peer that are left.
    pub fn unread(&self) -> &[u8]
        ensures { ⟦<MemoryLink as Link>⟧.left self.now ≡ Some result.now }
    {
        self.bytes.get(self.at..).unwrap_or(&[])
    }

    /// The bytes that were taken for the peer.
    pub fn written(&self) -> &[u8]
        ensures { ⟦<MemoryLink as Link>⟧.taken self.now ≡ Some result.now }
    {
        &self.taken
    }
}

impl Link for MemoryLink {
    ghost left = { λ s. Some (drop s.at s.bytes.items) };

    ghost taken = { λ s. Some s.taken.items };

    ghost faults = { λ s. s.calls.faults };

    fn faults(&self) -> u64 {
        self.calls.faults
    }

    fn read(&mut self, room: &mut [u8]) -> Result<usize, Failed> {
        if self.calls.fails_next() {
            return Err(Failed);
        }
        let rest = self.unread();
        let n = rest.len().min(room.len());
        room[..n].copy_from_slice(&rest[..n]);
        self.at += n;
        Ok(n)
    }

    fn write(&mut self, piece: &[u8]) -> Result<usize, Failed> {
        if self.calls.fails_next() {
            return Err(Failed);
        }
        if self.taken.extend_from_slice(piece).is_err() {
            self.calls.count_fault();
            return Err(Failed);
        }
        Ok(piece.len())
    }
}
