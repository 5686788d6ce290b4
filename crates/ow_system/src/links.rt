// Links over the system's sockets. They report no content.
ghost use Rattle.std.specs.Prelude.{◌≡◌, None, IfOk};
ghost use Rattle.std.specs.Io.{ReadsAtMost, WritesAtMost};

use ow_links::Link;
use ow_traits::Failed;
use std::io;
use std::io::{ErrorKind, Read, Write};
use std::net::OpenStream;
use std::time::Duration;

// How often a call of the system is tried that signals interrupt.
const TRIES: u32 = 64;

/// A link over a connected socket. Each error of the socket is a fault: so is a wait for the peer past the link's limit, and a write that
/// takes nothing. A call that a signal interrupts is tried again, up to 64 times in all.
#[derive(Drop)]
pub struct SocketLink<S: Read + Write + OpenStream + Drop> {
    stream: S,
    faults: u64,
}

impl<S: Read + Write + OpenStream + Drop> SocketLink<S> {
    /// A link that owns the socket, with no fault yet. Each of its calls waits for the peer for at most `limit` milliseconds, and what is
    /// written is sent at once. Dropping the link closes the connection. An error is the system's, and closes it too; a limit of 0 is one.
    pub fn new(stream: S, limit: u64) -> io::Result<Self>
        ensures faults { IfOk result (λ link. ⟦<SocketLink<S> as Link>⟧.faults link ≡ 0) }
    {
        let limit = Some(Duration::from_millis(limit));
        stream.set_nodelay(true)?;
        stream.set_read_timeout(limit)?;
        stream.set_write_timeout(limit)?;
        Ok(SocketLink { stream, faults: 0 })
    }
}

impl<S: Read + Write + OpenStream + Drop> Link for SocketLink<S> {
    ghost left = { λ s. None };

    ghost taken = { λ s. None };

    ghost faults = { λ s. s.faults };

    fn faults(&self) -> u64 {
        self.faults
    }

    fn read(&mut self, room: &mut [u8]) -> Result<usize, Failed> {
        let Ok(n) = read_some(&mut self.stream, room) else {
            self.faults = self.faults.saturating_add(1);
            return Err(Failed);
        };
        Ok(n)
    }

    fn write(&mut self, piece: &[u8]) -> Result<usize, Failed> {
        let Ok(n) = write_some(&mut self.stream, piece) else {
            self.faults = self.faults.saturating_add(1);
            return Err(Failed);
        };
        if n == 0 && !piece.is_empty() {
            self.faults = self.faults.saturating_add(1);
            return Err(Failed);
        }
        Ok(n)
    }
}

// One read, tried again where a signal interrupts it. Without room there is none, since the system would wait for the peer all the same.
fn read_some<S: Read>(stream: &mut S, room: &mut [u8]) -> io::Result<usize>
    ensures { ReadsAtMost result room.new }
{
    if room.is_empty() {
        return Ok(0);
    }
    for _ in 0..TRIES {
        match stream.read(room) {
            Err(error) if error.kind() == ErrorKind::Interrupted => {}
            ended => return ended,
        }
    }
    Err(io::Error::from(ErrorKind::Interrupted))
}

// One write, tried again where a signal interrupts it.
fn write_some<S: Write>(stream: &mut S, piece: &[u8]) -> io::Result<usize>
    ensures { WritesAtMost result piece.now }
{
    for _ in 0..TRIES {
        match stream.write(piece) {
            Err(error) if error.kind() == ErrorKind::Interrupted => {}
            ended => return ended,
        }
    }
    Err(io::Error::from(ErrorKind::Interrupted))
}
