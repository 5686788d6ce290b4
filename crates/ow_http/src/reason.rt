// Why something is refused, as clients receive it.
ghost use Rattle.std.specs.Prelude.{◌≡◌};

use crate::call_refusal::CallRefusal;
use crate::http_refusal::HttpRefusal;
use crate::service_refusal::ServiceRefusal;
use ow_value::{NoMemory, PlainData, Str};
use std::alloc::Global;

/// Why a request, or a call of the service itself, is refused. Each reason has a number, a status and a text.
#[derive(Drop)]
pub enum Reason {
    /// Bytes are no request.
    Http(HttpRefusal),
    /// Query, path or body are no call.
    Call(CallRefusal),
    /// The service refuses the call.
    Service(ServiceRefusal),
    /// A parameter that may not be given a value is given one.
    Fixed {
        /// That of the parameter.
        name: Str,
    },
    /// A parameter is given that the service sets itself.
    Reserved {
        /// That of the parameter.
        name: Str,
    },
}

impl Reason {
    ghost use Rattle.ow_http.specs.Number.{number_of};

    /// The number by which a client distinguishes the refusals. Out of memory has 0.
    pub fn number(&self) -> u32
        ensures { result ≡ number_of self.now }
    {
        match self {
            Reason::Http(refusal) => refusal.number(),
            Reason::Call(refusal) => refusal.number(),
            Reason::Service(refusal) => refusal.number(),
            Reason::Fixed { .. } => 16,
            Reason::Reserved { .. } => 43,
        }
    }
}

impl PlainData for Reason {
    fn same(&self, other: &Reason) -> bool {
        match (self, other) {
            (Reason::Http(refusal), Reason::Http(theirs)) => refusal == theirs,
            (Reason::Call(refusal), Reason::Call(theirs)) => refusal.same(theirs),
            (Reason::Service(refusal), Reason::Service(theirs)) => refusal == theirs,
            (Reason::Fixed { name }, Reason::Fixed { name: theirs }) => name.same(theirs),
            (Reason::Reserved { name }, Reason::Reserved { name: theirs }) => name.same(theirs),
            _ => false,
        }
    }

    fn copy(&self, alloc: Global) -> Result<Reason, NoMemory> {
        Ok(match self {
            Reason::Http(refusal) => Reason::Http(*refusal),
            Reason::Call(refusal) => Reason::Call(refusal.copy(alloc)?),
            Reason::Service(refusal) => Reason::Service(*refusal),
            Reason::Fixed { name } => Reason::Fixed {
                name: name.copy(alloc)?,
            },
            Reason::Reserved { name } => Reason::Reserved {
                name: name.copy(alloc)?,
            },
        })
    }
}
