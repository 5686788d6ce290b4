// A connection of a peer, seen from this side.
ghost use Rattle.std.specs.Prelude.{◌≡◌, ◌≤◌, ◌<◌, List, ℕ, Option, length, IfOk};
ghost use Rattle.ow_traits.specs.Streams.{HasCause, Reads, Rose, Writes};

use ow_traits::Failed;

/// What bytes of a peer are read from, and bytes for it are written to. A call may wait for the peer.
pub trait Link {
    /// The bytes of the peer that are left, where the link reports them.
    ghost left: { Self → Option (List ℕ) };

    /// The bytes for the peer that the link took, where it reports them.
    ghost taken: { Self → Option (List ℕ) };

    /// How many calls failed.
    ghost faults: { Self → ℕ };

    /// How many calls failed. The count saturates at the greatest u64.
    fn faults(&self) -> u64
        ensures { result ≡ faults self.now };

    /// Reads some bytes into the start of `room` and answers how many; none only at the end or where there is no room.
    fn read(&mut self, room: &mut [u8]) -> Result<usize, Failed>
        ensures count { IfOk result (λ n. n ≤ length room.new) }
        ensures told { Reads (left self.old) (left self.new) room.new result }
        ensures taken { taken self.new ≡ taken self.old }
        ensures cause { HasCause (faults self.old) (faults self.new) result };

    /// Takes some bytes from the start of `piece` and answers how many. To take none of a piece that isn't empty is a fault.
    fn write(&mut self, piece: &[u8]) -> Result<usize, Failed>
        ensures count { IfOk result (λ n. n ≤ length piece.now) }
        ensures told { Writes (taken self.old) (taken self.new) piece.now result }
        ensures left { left self.new ≡ left self.old }
        ensures nothing { IfOk result (λ n. n ≡ 0 → 0 < length piece.now → Rose (faults self.old) (faults self.new)) }
        ensures cause { HasCause (faults self.old) (faults self.new) result };
}
