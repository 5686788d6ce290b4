// What an error of an accept concerns.
ghost use Rattle.std.specs.Prelude.{◌≡◌};
ghost use Rattle.std.specs.IoError.{error_kind, raw_os_error};
ghost use Rattle.ow_system.specs.Blame.{blamed, blamed_by_number};

use std::io;
use std::io::ErrorKind;

// Linux's number of an error: the whole system has no file left.
const NO_FILE: i32 = 23;

// The same of a descriptor of this process.
const NO_DESCRIPTOR: i32 = 24;

// The same of room for buffers.
const NO_BUFFER: i32 = 105;

// The same of errors that lie at the connection that came: no network, an error of the protocol, no such option of it, and a host that
// is down.
const NO_NETWORK: i32 = 64;

const PROTOCOL: i32 = 71;

const NO_OPTION: i32 = 92;

const HOST_DOWN: i32 = 112;

// What an accept failed for.
#[derive(Clone, Copy)]
pub(crate) enum Blamed {
    // The connection that came, or this one call. The next one may do.
    Connection,
    // The system or the process has no descriptor or memory left for now.
    Want,
    // The listener.
    Listener,
}

// What is to blame for an error of an accept. On Linux an accept also gives the errors of the network that lie at the connection that came.
pub(crate) fn blamed_for(error: &io::Error) -> Blamed
    ensures { result ≡ blamed (error_kind error.now) (raw_os_error error.now) }
{
    match error.kind() {
        ErrorKind::ConnectionAborted
        | ErrorKind::ConnectionReset
        | ErrorKind::HostUnreachable
        | ErrorKind::Interrupted
        | ErrorKind::NetworkDown
        | ErrorKind::NetworkUnreachable
        | ErrorKind::TimedOut => Blamed::Connection,
        ErrorKind::OutOfMemory => Blamed::Want,
        _ => blamed_by_number(error.raw_os_error()),
    }
}

// The same for an error whose kind doesn't say.
fn blamed_by_number(code: Option<i32>) -> Blamed
    ensures { result ≡ blamed_by_number code }
{
    match code {
        Some(NO_FILE | NO_DESCRIPTOR | NO_BUFFER) => Blamed::Want,
        Some(NO_NETWORK | PROTOCOL | NO_OPTION | HOST_DOWN) => Blamed::Connection,
        _ => Blamed::Listener,
    }
}
