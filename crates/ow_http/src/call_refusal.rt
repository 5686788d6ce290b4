// Why requests are no calls.
use ow_entity::EntityRefusal;
use ow_names::NameRefusal;
use ow_value::{NoMemory, PlainData, Str, ValueRefusal};
use std::alloc::Global;

/// Why a request is no call. Of several faults the first in this list is reported.
#[derive(Drop)]
pub enum CallRefusal {
    /// The first wrong value of the query, by its name.
    BadQuery {
        /// As it appears in the query, decoded.
        name: Str,
    },
    /// A part of the path is no name.
    BadName(NameRefusal),
    /// The body is no value.
    BadValue(ValueRefusal),
    /// The body gives no entity.
    BadEntity(EntityRefusal),
    /// Comes at any place, and says nothing of the request.
    NoMemory,
}

impl CallRefusal {
    ghost use Rattle.std.specs.Prelude.{◌≡◌};
    ghost use Rattle.ow_http.specs.Number.{call_number};

    /// The number by which a client distinguishes the refusals. Out of memory has 0.
    pub fn number(&self) -> u32
        ensures { result ≡ call_number self.now }
    {
        match self {
            CallRefusal::BadQuery { .. } => 39,
            CallRefusal::BadName(refusal) => refusal.number(),
            CallRefusal::BadValue(refusal) => refusal.number(),
            CallRefusal::BadEntity(refusal) => refusal.number(),
            CallRefusal::NoMemory => 0,
        }
    }
}

impl PlainData for CallRefusal {
    fn same(&self, other: &CallRefusal) -> bool {
        match (self, other) {
            (CallRefusal::BadQuery { name }, CallRefusal::BadQuery { name: theirs }) => {
                name.same(theirs)
            }
            (CallRefusal::BadName(refusal), CallRefusal::BadName(theirs)) => refusal == theirs,
            (CallRefusal::BadValue(refusal), CallRefusal::BadValue(theirs)) => refusal == theirs,
            (CallRefusal::BadEntity(refusal), CallRefusal::BadEntity(theirs)) => refusal == theirs,
            (CallRefusal::NoMemory, CallRefusal::NoMemory) => true,
            _ => false,
        }
    }

    fn copy(&self, alloc: Global) -> Result<CallRefusal, NoMemory> {
        Ok(match self {
            CallRefusal::BadQuery { name } => CallRefusal::BadQuery {
                name: name.copy(alloc)?,
            },
            CallRefusal::BadName(refusal) => CallRefusal::BadName(*refusal),
            CallRefusal::BadValue(refusal) => CallRefusal::BadValue(*refusal),
            CallRefusal::BadEntity(refusal) => CallRefusal::BadEntity(*refusal),
            CallRefusal::NoMemory => CallRefusal::NoMemory,
        })
    }
}

impl From<NoMemory> for CallRefusal {
    ghost use Rattle.std.specs.Prelude.{◌≡◌};
    ghost use Rattle.ow_http.specs.declared.call_refusal.CallRefusal.TheVariants.{NoMemory};

    ghost from_gives = { λ _ e. e ≡ NoMemory };

    fn from(_refused: NoMemory) -> CallRefusal {
        CallRefusal::NoMemory
    }
}
