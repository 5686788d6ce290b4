// Sockets that the system would give, without it.
use std::cell::Cell;
use std::io;
use std::io::{ErrorKind, Read, Write};
use std::net::{OpenListener, OpenStream, SocketAddr};
use std::time::Duration;

/// A stream of a peer that sends one byte and takes one byte at a time. `interrupts` calls are interrupted before each. It may refuse
/// options.
#[derive(Drop)]
pub(crate) struct Interrupted {
    interrupts: u32,
    left: u32,
    has_options: bool,
}

impl Interrupted {
    pub(crate) fn new(interrupts: u32) -> Interrupted {
        Interrupted {
            interrupts,
            left: interrupts,
            has_options: true,
        }
    }

    fn pass(&mut self) -> io::Result<()> {
        if self.left == 0 {
            self.left = self.interrupts;
            return Ok(());
        }
        self.left -= 1;
        Err(io::Error::from(ErrorKind::Interrupted))
    }
}

impl Read for Interrupted {
    fn read(&mut self, room: &mut [u8]) -> io::Result<usize> {
        self.pass()?;
        if room.is_empty() {
            return Ok(0);
        }
        room[0] = b'x';
        Ok(1)
    }
}

impl Write for Interrupted {
    fn write(&mut self, piece: &[u8]) -> io::Result<usize> {
        self.pass()?;
        Ok(piece.len().min(1))
    }

    fn flush(&mut self) -> io::Result<()> {
        Ok(())
    }
}

impl OpenStream for Interrupted {
    fn set_nodelay(&self, _nodelay: bool) -> io::Result<()> {
        if self.has_options {
            Ok(())
        } else {
            Err(io::Error::from(ErrorKind::InvalidInput))
        }
    }

    fn set_read_timeout(&self, _limit: Option<Duration>) -> io::Result<()> {
        Ok(())
    }

    fn set_write_timeout(&self, _limit: Option<Duration>) -> io::Result<()> {
        Ok(())
    }
}

/// A listener whose first accepts fail with these numbers of the system's errors. The next one gives a stream that refuses options, and
/// the others give streams without interrupts.
#[derive(Drop)]
pub(crate) struct Failing {
    codes: Vec<i32>,
    at: Cell<usize>,
}

impl Failing {
    pub(crate) fn new(codes: Vec<i32>) -> Failing {
        Failing {
            codes,
            at: Cell::new(0),
        }
    }
}

impl OpenListener for Failing {
    type Stream = Interrupted;

    fn accept(&self) -> io::Result<(Interrupted, SocketAddr)> {
        let at = self.at.get();
        self.at.set(at.saturating_add(1));
        if let Some(code) = self.codes.get(at) {
            return Err(io::Error::from_raw_os_error(*code));
        }
        let mut stream = Interrupted::new(0);
        stream.has_options = at > self.codes.len();
        Ok((stream, SocketAddr::from(([127, 0, 0, 1], 1))))
    }
}
