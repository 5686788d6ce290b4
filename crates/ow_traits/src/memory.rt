// A source and a sink in memory, of which some calls are to fail.
ghost use Rattle.std.specs.Prelude.{◌≡◌, Some, drop};

use crate::calls::Calls;
use crate::{Failed, Sink, Source};
use std::alloc::Global;

/// Reads from bytes in memory. The calls of `read` whose numbers are in `failing` fail; the first has the number 0.
#[derive(Drop)]
pub struct MemorySource {
    bytes: Vec<u8>,
    at: usize,
    calls: Calls,
}

impl MemorySource {
    ghost use Rattle.std.specs.Prelude.{Some};

    /// A source that owns the bytes, with no fault yet.
    pub fn new(bytes: Vec<u8>, failing: Vec<u64>) -> Self
        ensures left { ⟦<MemorySource as Source>⟧.left result ≡ Some bytes.items }
        ensures faults { ⟦<MemorySource as Source>⟧.faults result ≡ 0 }
    {
        MemorySource {
            bytes,
            at: 0,
            calls: Calls::new(failing),
        }
    }

    /// The bytes that are left.
    pub fn bytes(&self) -> &[u8]
        ensures { ⟦<MemorySource as Source>⟧.left self.now ≡ Some result.now }
    {
        self.bytes.get(self.at..).unwrap_or(&[])
    }
}

impl Source for MemorySource {
    ghost left = { λ s. Some (drop s.at s.bytes.items) };

    ghost faults = { λ s. s.calls.faults };

    fn faults(&self) -> u64 {
        self.calls.faults
    }

    fn read(&mut self, room: &mut [u8]) -> Result<usize, Failed> {
        if self.calls.fails_next() {
            return Err(Failed);
        }
        let rest = self.bytes();
        let n = rest.len().min(room.len());
        room[..n].copy_from_slice(&rest[..n]);
        self.at += n;
        Ok(n)
    }
}

/// Keeps the bytes that are written to it. The calls of `write` whose numbers are in `failing` fail; the first has the
/// number 0. A call that is out of memory fails too.
#[derive(Drop)]
pub struct MemorySink {
    bytes: Vec<u8>,
    calls: Calls,
}

impl MemorySink {
    ghost use Rattle.std.specs.Prelude.{Some, []};

    /// A sink that took nothing yet, with no fault. This takes no memory.
    pub fn new(alloc: Global, failing: Vec<u64>) -> Self
        ensures taken { ⟦<MemorySink as Sink>⟧.taken result ≡ Some [] }
        ensures faults { ⟦<MemorySink as Sink>⟧.faults result ≡ 0 }
    {
        MemorySink {
            bytes: Vec::new(alloc),
            calls: Calls::new(failing),
        }
    }

    /// The bytes that were taken.
    pub fn bytes(&self) -> &[u8]
        ensures { ⟦<MemorySink as Sink>⟧.taken self.now ≡ Some result.now }
    {
        &self.bytes
    }
}

impl Sink for MemorySink {
    ghost taken = { λ s. Some s.bytes.items };

    ghost faults = { λ s. s.calls.faults };

    fn faults(&self) -> u64 {
        self.calls.faults
    }

    fn write(&mut self, piece: &[u8]) -> Result<usize, Failed> {
        if self.calls.fails_next() {
            return Err(Failed);
        }
        if self.bytes.extend_from_slice(piece).is_err() {
            self.calls.count_fault();
            return Err(Failed);
        }
        Ok(piece.len())
    }
}
