// What a row says by itself.
use crate::days::Days;
use crate::limits::NamespaceLimits;
use crate::rights::Right;
use ow_names::EntityName;
use ow_traits::Prewarm;
use ow_value::{NoMemory, Str};

/// What a row says by itself.
#[derive(Drop)]
pub(crate) enum Line {
    Namespace {
        number: u32,
        name: EntityName,
        limits: NamespaceLimits,
    },
    Key {
        key: Str,
        subject: Str,
        home: EntityName,
    },
    Grant {
        key: Str,
        namespace: EntityName,
        right: Right,
    },
    Pool {
        memory: u32,
    },
    Prewarming {
        wanted: Prewarm,
    },
    Program {
        name: Str,
        path: Str,
    },
    Retain {
        days: Days,
    },
}

/// Why a row was not taken.
#[derive(Clone, Copy, Debug, PartialEq, Eq, Drop)]
pub(crate) enum RowFault {
    /// It breaks a rule.
    Bad,
    /// No memory was left for it.
    NoMemory,
}

impl From<NoMemory> for RowFault {
    ghost use Rattle.std.specs.Prelude.{◌≡◌};
    ghost use Rattle.ow_tenant.specs.declared.line.RowFault.TheVariants.{NoMemory};

    ghost from_gives = { λ _ e. e ≡ NoMemory };

    fn from(_none: NoMemory) -> RowFault {
        RowFault::NoMemory
    }
}
