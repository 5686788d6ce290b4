// Out of memory, as a refusal.
ghost use Rattle.std.specs.Prelude.{◌≡◌, [], ◌∷◌, ◌++◌, IfOk, OnOk};

use std::alloc::{AllocError, AllocFailed, Global};

/// No memory was left for what the call had to make.
#[derive(Clone, Copy, PartialEq, Eq, Debug, Drop)]
pub struct NoMemory;

impl From<AllocError> for NoMemory {
    ghost use Rattle.std.specs.Prelude.{◌≡◌};

    ghost from_gives = { λ _ e. e ≡ record {} };

    fn from(_refused: AllocError) -> NoMemory {
        NoMemory
    }
}

impl<T: Drop> From<AllocFailed<T>> for NoMemory {
    ghost use Rattle.std.specs.Prelude.{◌≡◌};

    ghost from_gives = { λ _ e. e ≡ record {} };

    fn from(_refused: AllocFailed<T>) -> NoMemory {
        NoMemory
    }
}

// An empty list with room for that many.
pub(crate) fn list_for<T>(alloc: Global, count: usize) -> Result<Vec<T>, NoMemory>
    ensures items { IfOk result (λ r. r.items ≡ []) }
{
    Ok(Vec::with_capacity(alloc, count)?)
}

// Appends the item.
pub(crate) fn push<T: Drop>(list: &mut Vec<T>, item: T) -> Result<(), NoMemory>
    ensures items { OnOk result (list.new.items ≡ list.old.items ++ item ∷ []) }
{
    list.push(item)?;
    Ok(())
}
