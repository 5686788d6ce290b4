// Why rows are not those of a state.
ghost use Rattle.std.specs.Prelude.{◌≡◌};
ghost use Rattle.ow_keep.specs.Refusal.{refusal_number};

use ow_value::{NoMemory, Str};
use std::alloc::{AllocError, AllocFailed};

/// Why rows are not those of a state.
#[derive(Drop)]
pub enum KeepRefusal {
    /// The first row in the order of keys that is not allowed, or `version` where only that row is missing.
    BadKept { key: Str },
    /// No memory was left for the items.
    NoMemory,
}

impl KeepRefusal {
    /// The number of the refusal. Running out of memory has 0.
    pub fn number(&self) -> u32
        ensures { result ≡ refusal_number self.now }
    {
        match self {
            KeepRefusal::NoMemory => 0,
            KeepRefusal::BadKept { .. } => 30,
        }
    }
}

impl From<NoMemory> for KeepRefusal {
    ghost use Rattle.std.specs.Prelude.{◌≡◌};
    ghost use Rattle.ow_keep.specs.declared.refusal.KeepRefusal.TheVariants.{NoMemory};

    ghost from_gives = { λ _ e. e ≡ NoMemory };

    fn from(_none: NoMemory) -> KeepRefusal {
        KeepRefusal::NoMemory
    }
}

impl From<AllocError> for KeepRefusal {
    ghost use Rattle.std.specs.Prelude.{◌≡◌};
    ghost use Rattle.ow_keep.specs.declared.refusal.KeepRefusal.TheVariants.{NoMemory};

    ghost from_gives = { λ _ e. e ≡ NoMemory };

    fn from(_refused: AllocError) -> KeepRefusal {
        KeepRefusal::NoMemory
    }
}

impl<T: Drop> From<AllocFailed<T>> for KeepRefusal {
    ghost use Rattle.std.specs.Prelude.{◌≡◌};
    ghost use Rattle.ow_keep.specs.declared.refusal.KeepRefusal.TheVariants.{NoMemory};

    ghost from_gives = { λ _ e. e ≡ NoMemory };

    fn from(_refused: AllocFailed<T>) -> KeepRefusal {
        KeepRefusal::NoMemory
    }
}
