// A listener in memory, of which some calls are to fail.
ghost use Rattle.std.specs.Prelude.{◌≡◌, Some};

use crate::{Accepted, Listener, MemoryLink};
use ow_traits::{Calls, Failed};
use std::collections::VecDeque;

/// Accepts links in memory, in order. The calls of `accept` whose numbers are in `failing` fail; the first has the number 0.
#[derive(Drop)]
pub struct MemoryListener {
    links: VecDeque<MemoryLink>,
    calls: Calls,
}

impl MemoryListener {
    ghost use Rattle.std.specs.Prelude.{Some};

    /// A listener to which these peers are still to come, with no fault yet. This takes no memory.
    pub fn new(peers: Vec<MemoryLink>, failing: Vec<u64>) -> Self
        ensures peers { ⟦<MemoryListener as Listener>⟧.peers result ≡ Some peers.items }
        ensures faults { ⟦<MemoryListener as Listener>⟧.faults result ≡ 0 }
    {
        MemoryListener {
            links: VecDeque::from(peers),
            calls: Calls::new(failing),
        }
    }
}

impl Listener for MemoryListener {
    type Peer = MemoryLink;

    ghost peers = { λ s. Some s.links.items };

    ghost faults = { λ s. s.calls.faults };

    fn faults(&self) -> u64 {
        self.calls.faults
    }

    fn accept(&mut self) -> Result<Accepted<MemoryLink>, Failed> {
        if self.calls.fails_next() {
            return Err(Failed);
        }
        match self.links.pop_front() {
            Some(link) => Ok(Accepted::Peer(link)),
            None => Ok(Accepted::Closed),
        }
    }
}
