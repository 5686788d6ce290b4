// Why a body gives no entity.
ghost use Rattle.std.specs.Prelude.{◌≡◌};
ghost use Rattle.ow_entity.specs.Refusal.{refusal_number};

use crate::field_name::FieldName;
use ow_names::NameRefusal;
use ow_value::NoMemory;

/// Why a body gives no entity.
#[derive(Clone, Copy, PartialEq, Eq, Debug, Drop)]
pub enum EntityRefusal {
    /// The field must be there, and isn't.
    MissingField { name: FieldName },
    /// The field's value isn't of its form. Null is a value.
    WrongType { name: FieldName },
    /// The field's number lies outside its range.
    OutOfRange { name: FieldName },
    /// The service has no such kind of code.
    UnknownKind,
    /// A list of pairs, or a code, has over 1 MB.
    TooLarge,
    /// A name in the body is no valid name.
    BadName(NameRefusal),
    /// The version of the old entity can't be raised.
    LastVersion,
    /// Out of memory. This says nothing about the body.
    NoMemory,
}

impl EntityRefusal {
    /// The number by which a client distinguishes the refusals. Out of memory has 0.
    pub fn number(self) -> u32
        ensures { result ≡ refusal_number self }
    {
        match self {
            EntityRefusal::NoMemory => 0,
            EntityRefusal::MissingField { .. } => 9,
            EntityRefusal::WrongType { .. } => 10,
            EntityRefusal::OutOfRange { .. } => 11,
            EntityRefusal::UnknownKind => 12,
            EntityRefusal::TooLarge => 13,
            EntityRefusal::BadName(refusal) => refusal.number(),
            EntityRefusal::LastVersion => 18,
        }
    }
}

impl From<NoMemory> for EntityRefusal {
    ghost use Rattle.std.specs.Prelude.{◌≡◌};
    ghost use Rattle.ow_entity.specs.declared.refusal.EntityRefusal.TheVariants.{NoMemory};

    ghost from_gives = { λ _ e. e ≡ NoMemory };

    fn from(_refused: NoMemory) -> EntityRefusal {
        EntityRefusal::NoMemory
    }
}
