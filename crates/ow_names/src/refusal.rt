// Why a text is no name, or names nothing.
ghost use Rattle.std.specs.Prelude.{◌≡◌};
ghost use Rattle.ow_names.specs.Refusal.{refusal_number};

use ow_value::NoMemory;

/// Why a text is no name, or names nothing. Of several faults the first in this list is reported.
#[derive(Clone, Copy, PartialEq, Eq, Debug, Drop)]
pub enum NameRefusal {
    /// More or fewer parts than a full name has.
    BadPath,
    /// No byte at all.
    Empty,
    /// More bytes than `LONGEST_NAME`.
    TooLong,
    /// The place of the first byte that is not allowed at its place, counted from 0 in its name.
    BadChar { place: usize },
    /// The last byte is a space.
    EndsInSpace,
    /// No memory was left for a name.
    NoMemory,
}

impl NameRefusal {
    /// The number by which a client distinguishes the refusals. Out of memory has 0.
    pub fn number(self) -> u32
        ensures { result ≡ refusal_number self }
    {
        match self {
            NameRefusal::NoMemory => 0,
            NameRefusal::Empty => 4,
            NameRefusal::TooLong => 5,
            NameRefusal::BadChar { .. } => 6,
            NameRefusal::EndsInSpace => 7,
            NameRefusal::BadPath => 8,
        }
    }
}

impl From<NoMemory> for NameRefusal {
    ghost use Rattle.std.specs.Prelude.{◌≡◌};
    ghost use Rattle.ow_names.specs.declared.refusal.NameRefusal.TheVariants.{NoMemory};

    ghost from_gives = { λ _ e. e ≡ NoMemory };

    fn from(_refused: NoMemory) -> NameRefusal {
        NameRefusal::NoMemory
    }
}
