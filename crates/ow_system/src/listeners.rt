// Listeners over the system's sockets. They report no content.
ghost use Rattle.std.specs.Prelude.{◌≡◌, None, IfOk};
ghost use Rattle.ow_system.specs.Accepting.{IsNewPeer};
ghost use Rattle.ow_links.specs.Peers.{Accepts};
ghost use Rattle.ow_traits.specs.Streams.{HasCause};

use crate::SocketLink;
use crate::blame::{Blamed, blamed_for};
use ow_links::{Accepted, Link, Listener};
use ow_traits::Failed;
use std::io;
use std::io::{Read, Write};
use std::net::{OpenListener, OpenStream};
use std::time::{Clock, Duration};

/// For how many milliseconds at most a call of an accepted link waits for its peer.
pub const PEER_LIMIT: u64 = 30_000;

// For how many milliseconds to wait where there is no descriptor or memory for a connection.
const WANT_PAUSE: u64 = 50;

/// A listener over a socket that listens. It waits for a peer, and never answers Closed.
///
/// Each error is counted as a fault. An error of a connection that came doesn't end an accept: that connection is dropped, and
/// the next one awaited. Nor does a lack of descriptors or memory: the accept pauses and tries again. Any other error does.
#[derive(Drop)]
pub struct SocketListener<L: OpenListener + Drop, R: Clock + Drop> {
    bound: io::Result<L>,
    rt: R,
    faults: u64,
}

impl<
    S: Read + Write + OpenStream + Drop + Send + 'static,
    L: OpenListener<Stream = S> + Drop,
    R: Clock + Drop,
> SocketListener<L, R> {
    /// A listener that owns the socket, with no fault yet. Where the socket couldn't be bound, each accept fails. `rt` is for pauses.
    pub fn new(bound: io::Result<L>, rt: R) -> Self
        ensures faults { ⟦<SocketListener<L, R> as Listener>⟧.faults result ≡ 0 }
    {
        SocketListener {
            bound,
            rt,
            faults: 0,
        }
    }
}

impl<
    S: Read + Write + OpenStream + Drop + Send + 'static,
    L: OpenListener<Stream = S> + Drop,
    R: Clock + Drop,
> Listener for SocketListener<L, R> {
    type Peer = SocketLink<S>;

    ghost peers = { λ s. None };

    ghost faults = { λ s. s.faults };

    fn faults(&self) -> u64 {
        self.faults
    }

    fn accept(&mut self) -> Result<Accepted<SocketLink<S>>, Failed>
        ensures told { Accepts None None result }
        ensures peer { IfOk result (IsNewPeer ⟦<SocketLink<S> as Link>⟧.faults) }
        ensures cause { HasCause (⟦<SocketListener<L, R> as Listener>⟧.faults self.old) (⟦<SocketListener<L, R> as Listener>⟧.faults self.new) result }
    {
        for _ in 0..u64::MAX {
            let blamed = match next_link(&self.bound) {
                Ok(link) => return Ok(Accepted::Peer(link)),
                Err(blamed) => blamed,
            };
            self.faults = self.faults.saturating_add(1);
            match blamed {
                Blamed::Connection => {}
                Blamed::Want => self.rt.sleep(Duration::from_millis(WANT_PAUSE)),
                Blamed::Listener => return Err(Failed),
            }
        }
        self.faults = self.faults.saturating_add(1);
        Err(Failed)
    }
}

// The link of the connection that comes next, or what is to blame that there is none.
fn next_link<S: Read + Write + OpenStream + Drop, L: OpenListener<Stream = S>>(
    bound: &io::Result<L>,
) -> Result<SocketLink<S>, Blamed>
    ensures { IfOk result (λ link. ⟦<SocketLink<S> as Link>⟧.faults link ≡ 0) }
{
    let Ok(listener) = bound else {
        return Err(Blamed::Listener);
    };
    match listener.accept() {
        Ok((stream, _)) => SocketLink::new(stream, PEER_LIMIT).map_err(|_| Blamed::Connection),
        Err(error) => Err(blamed_for(&error)),
    }
}
