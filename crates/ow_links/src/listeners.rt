// Who waits for peers and accepts them.
ghost use Rattle.std.specs.Prelude.{◌≡◌, List, ℕ, Option};
ghost use Rattle.ow_links.specs.Peers.{Accepts};
ghost use Rattle.ow_traits.specs.Streams.{HasCause};

use crate::Link;
use ow_traits::Failed;

/// The result of an accept.
#[derive(Drop)]
pub enum Accepted<L: Drop> {
    /// A peer came: this is its link.
    Peer(L),
    /// No peer will come any more.
    Closed,
}

/// Accepts peers.
pub trait Listener {
    /// The link of a peer.
    type Peer: Link + Drop + Send + 'static;

    /// The peers that are still to come, where the listener reports them.
    ghost peers: { Self → Option (List Self.Peer) };

    /// How many calls failed.
    ghost faults: { Self → ℕ };

    /// How many calls failed. The count saturates at the greatest u64.
    fn faults(&self) -> u64
        ensures { result ≡ faults self.now };

    /// Accepts the next peer, for which it may wait. A listener that reports its peers returns the first that is still to come, and
    /// answers Closed exactly where none is; after a fault all of them are still to come.
    fn accept(&mut self) -> Result<Accepted<Self::Peer>, Failed>
        ensures told { Accepts (peers self.old) (peers self.new) result }
        ensures cause { HasCause (faults self.old) (faults self.new) result };
}
