// Why bytes are no request.
ghost use Rattle.std.specs.Prelude.{◌≡◌};

use ow_value::NoMemory;

/// Why bytes are no request. Of several faults the first in this list is reported.
#[derive(Clone, Copy, PartialEq, Eq, Debug, Drop)]
pub enum HttpRefusal {
    /// The head is malformed or over its limits, or has a header that isn't served.
    BadHead,
    /// The path names nothing.
    NoRoute,
    /// No route takes the method, or that of the path doesn't.
    BadMethod,
    /// The body has over 4,194,304 bytes.
    BodyTooLarge,
    /// The bytes end inside head or body.
    CutShort,
    /// Comes at any place, and says nothing of the bytes.
    NoMemory,
}

impl HttpRefusal {
    ghost use Rattle.ow_http.specs.Number.{http_number};

    /// The number by which a client distinguishes the refusals. Out of memory has 0.
    pub fn number(self) -> u32
        ensures { result ≡ http_number self }
    {
        match self {
            HttpRefusal::NoMemory => 0,
            HttpRefusal::BadHead => 35,
            HttpRefusal::NoRoute => 36,
            HttpRefusal::BadMethod => 37,
            HttpRefusal::BodyTooLarge => 38,
            HttpRefusal::CutShort => 40,
        }
    }
}

impl From<NoMemory> for HttpRefusal {
    ghost use Rattle.std.specs.Prelude.{◌≡◌};
    ghost use Rattle.ow_http.specs.declared.http_refusal.HttpRefusal.TheVariants.{NoMemory};

    ghost from_gives = { λ _ e. e ≡ NoMemory };

    fn from(_refused: NoMemory) -> HttpRefusal {
        HttpRefusal::NoMemory
    }
}
