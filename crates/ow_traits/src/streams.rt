// Sources of bytes and sinks for bytes, each with a count of its faults.
ghost use Rattle.std.specs.Prelude.{◌≡◌, ◌≤◌, ◌<◌, List, ℕ, Option, length, IfOk, OnOk, OnErr};
ghost use Rattle.ow_traits.specs.Streams.{HasCause, Reads, ReadsSome, Rose, Takes, TakesFront, Writes};

/// A call failed, and the count of faults of what was called rose.
#[derive(Clone, Copy, Debug, PartialEq, Eq)]
pub struct Failed;

/// A source, from which bytes are read.
pub trait Source {
    /// The bytes that are left, where the source reports them.
    ghost left: { Self → Option (List ℕ) };

    /// How many calls failed.
    ghost faults: { Self → ℕ };

    /// How many calls failed. The count saturates at the greatest u64.
    fn faults(&self) -> u64
        ensures { result ≡ faults self.now };

    /// Reads some bytes into the start of `room` and returns how many; none only at the end or where there is no room.
    fn read(&mut self, room: &mut [u8]) -> Result<usize, Failed>
        ensures count { IfOk result (λ n. n ≤ length room.new) }
        ensures told { Reads (left self.old) (left self.new) room.new result }
        ensures cause { HasCause (faults self.old) (faults self.new) result };
}

/// A sink, to which bytes are written.
pub trait Sink {
    /// The bytes that the sink took, where it reports them.
    ghost taken: { Self → Option (List ℕ) };

    /// How many calls failed.
    ghost faults: { Self → ℕ };

    /// How many calls failed. The count saturates at the greatest u64.
    fn faults(&self) -> u64
        ensures { result ≡ faults self.now };

    /// Takes some of the first bytes of `piece` and returns how many. To take none of a piece that isn't empty is a fault.
    fn write(&mut self, piece: &[u8]) -> Result<usize, Failed>
        ensures count { IfOk result (λ n. n ≤ length piece.now) }
        ensures told { Writes (taken self.old) (taken self.new) piece.now result }
        ensures nothing { IfOk result (λ n. n ≡ 0 → 0 < length piece.now → Rose (faults self.old) (faults self.new)) }
        ensures cause { HasCause (faults self.old) (faults self.new) result };
}

/// Writes all the bytes. After a fault the sink took some of them, in order from the first.
pub fn write_all<O: Sink>(out: &mut O, bytes: &[u8]) -> Result<(), Failed>
    ensures ok { OnOk result (Takes (O.taken out.old) (O.taken out.new) bytes.now) }
    ensures err { OnErr result (TakesFront (O.taken out.old) (O.taken out.new) bytes.now) }
    ensures cause { HasCause (O.faults out.old) (O.faults out.new) result }
{
    let mut rest = bytes;
    while !rest.is_empty() {
        let n = out.write(rest)?;
        if n == 0 {
            return Err(Failed);
        }
        let (_, after) = rest.split_at(n);
        rest = after;
    }
    Ok(())
}

/// Reads some bytes into the first `space` places of `room` and returns how many; none only at the end. The bytes in
/// `room` after the bytes that were read have no meaning afterwards.
pub fn read_some<S: Source>(source: &mut S, room: &mut [u8], space: usize) -> Result<usize, Failed>
    requires some { 0 < space }
    requires within { space ≤ length room.old }
    ensures count { IfOk result (λ n. n ≤ space) }
    ensures told { ReadsSome (S.left source.old) (S.left source.new) room.new result }
    ensures cause { HasCause (S.faults source.old) (S.faults source.new) result }
{
    source.read(&mut room[..space])
}
