// Why tables don't change.
ghost use Rattle.std.specs.Prelude.{◌≡◌};
ghost use Rattle.ow_tables.specs.Refusal.{table_refusal_number};

use ow_entity::EntityRefusal;
use ow_packages::PackageRefusal;
use ow_value::NoMemory;

/// Why tables don't change, or have no such row.
#[derive(Clone, Copy, PartialEq, Eq, Debug, Drop)]
pub enum TableRefusal {
    /// The entity doesn't exist, or the package in which it is to lie doesn't.
    NotFound,
    /// The package is a binding: the one in which the entity lies or is to lie, or the one that is to be bound.
    BindsABinding,
    /// An entity of the kind and the name exists, and it is not to be overwritten.
    Exists,
    /// The package holds actions.
    NotEmpty,
    /// The sequence has more than 50 components.
    SequenceTooLong,
    /// The sequence contains itself, through bindings and other sequences too.
    SequenceLoops,
    /// The draft makes no entity. Out of memory is not reported as this.
    Entity(EntityRefusal),
    /// Out of memory. The rows are as before.
    NoMemory,
}

impl TableRefusal {
    /// The number by which a client distinguishes the refusals. Out of memory has 0.
    pub fn number(self) -> u32
        ensures { result ≡ table_refusal_number self }
    {
        match self {
            TableRefusal::NoMemory => 0,
            TableRefusal::NotFound => 14,
            TableRefusal::BindsABinding => 15,
            TableRefusal::Exists => 17,
            TableRefusal::SequenceTooLong => 19,
            TableRefusal::SequenceLoops => 20,
            TableRefusal::NotEmpty => 21,
            TableRefusal::Entity(refusal) => refusal.number(),
        }
    }
}

impl From<EntityRefusal> for TableRefusal {
    ghost use Rattle.std.specs.Prelude.{◌≡◌};
    ghost use Rattle.ow_tables.specs.Refusal.{table_refusal};

    ghost from_gives = { λ r e. e ≡ table_refusal r };

    fn from(refusal: EntityRefusal) -> TableRefusal {
        match refusal {
            EntityRefusal::NoMemory => TableRefusal::NoMemory,
            _ => TableRefusal::Entity(refusal),
        }
    }
}

impl From<PackageRefusal> for TableRefusal {
    ghost use Rattle.std.specs.Prelude.{◌≡◌};
    ghost use Rattle.ow_tables.specs.Refusal.{refusal_of_package};

    ghost from_gives = { λ r e. e ≡ refusal_of_package r };

    fn from(refusal: PackageRefusal) -> TableRefusal {
        match refusal {
            PackageRefusal::NoMemory => TableRefusal::NoMemory,
            PackageRefusal::BindsABinding => TableRefusal::BindsABinding,
            _ => TableRefusal::NotFound,
        }
    }
}

impl From<NoMemory> for TableRefusal {
    ghost use Rattle.std.specs.Prelude.{◌≡◌};
    ghost use Rattle.ow_tables.specs.declared.refusal.TableRefusal.TheVariants.{NoMemory};

    ghost from_gives = { λ _ e. e ≡ NoMemory };

    fn from(_refused: NoMemory) -> TableRefusal {
        TableRefusal::NoMemory
    }
}
