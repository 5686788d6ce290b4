// Why a web request calls nothing, or a result is no web answer.
ghost use Rattle.std.specs.Prelude.{◌≡◌};

use ow_value::{NoMemory, PlainData, Str, ValueRefusal};
use std::alloc::Global;

/// Why a web request calls nothing, or a result is no web answer.
#[derive(Drop)]
pub enum WebRefusal {
    /// The action is no web action.
    NotExported,
    /// There is no such extension.
    BadExtension,
    /// The action demands a key or a header that the request lacks.
    NeedsAuth,
    /// The body is no value.
    BadValue(ValueRefusal),
    /// The body is a value, but no object.
    NoObject,
    /// The body is to be a text, and isn't UTF-8.
    NoText,
    /// Only the service itself gives a parameter of this name.
    Reserved {
        /// As it was given, decoded.
        name: Str,
    },
    /// The result is no web response. No request is refused so.
    BadWebResult,
    /// This says nothing of the request, nor of the result.
    NoMemory,
}

impl WebRefusal {
    ghost use Rattle.ow_web.specs.Refusal.{web_number};

    /// The number by which a client distinguishes the refusals. Out of memory has 0.
    pub fn number(&self) -> u32
        ensures { result ≡ web_number self.now }
    {
        match self {
            WebRefusal::NoMemory => 0,
            WebRefusal::NotExported => 41,
            WebRefusal::BadExtension => 42,
            WebRefusal::NeedsAuth => 44,
            WebRefusal::BadValue(refusal) => refusal.number(),
            WebRefusal::NoObject => 10,
            WebRefusal::NoText => 10,
            WebRefusal::Reserved { .. } => 43,
            WebRefusal::BadWebResult => 45,
        }
    }
}

impl PlainData for WebRefusal {
    fn same(&self, other: &WebRefusal) -> bool {
        match (self, other) {
            (WebRefusal::NotExported, WebRefusal::NotExported) => true,
            (WebRefusal::BadExtension, WebRefusal::BadExtension) => true,
            (WebRefusal::NeedsAuth, WebRefusal::NeedsAuth) => true,
            (WebRefusal::BadValue(refusal), WebRefusal::BadValue(theirs)) => refusal == theirs,
            (WebRefusal::NoObject, WebRefusal::NoObject) => true,
            (WebRefusal::NoText, WebRefusal::NoText) => true,
            (WebRefusal::Reserved { name }, WebRefusal::Reserved { name: theirs }) => {
                name.same(theirs)
            }
            (WebRefusal::BadWebResult, WebRefusal::BadWebResult) => true,
            (WebRefusal::NoMemory, WebRefusal::NoMemory) => true,
            _ => false,
        }
    }

    fn copy(&self, alloc: Global) -> Result<WebRefusal, NoMemory> {
        Ok(match self {
            WebRefusal::NotExported => WebRefusal::NotExported,
            WebRefusal::BadExtension => WebRefusal::BadExtension,
            WebRefusal::NeedsAuth => WebRefusal::NeedsAuth,
            WebRefusal::BadValue(refusal) => WebRefusal::BadValue(*refusal),
            WebRefusal::NoObject => WebRefusal::NoObject,
            WebRefusal::NoText => WebRefusal::NoText,
            WebRefusal::Reserved { name } => WebRefusal::Reserved {
                name: name.copy(alloc)?,
            },
            WebRefusal::BadWebResult => WebRefusal::BadWebResult,
            WebRefusal::NoMemory => WebRefusal::NoMemory,
        })
    }
}

impl From<NoMemory> for WebRefusal {
    ghost use Rattle.std.specs.Prelude.{◌≡◌};
    ghost use Rattle.ow_web.specs.declared.refusal.WebRefusal.TheVariants.{NoMemory};

    ghost from_gives = { λ _ e. e ≡ NoMemory };

    fn from(_refused: NoMemory) -> WebRefusal {
        WebRefusal::NoMemory
    }
}
