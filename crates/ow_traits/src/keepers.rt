// Stores that keep rows from one run of the service to the next.
ghost use Rattle.std.specs.Prelude.{◌≡◌};
ghost use Rattle.ow_traits.specs.Keeper.{Commits, KeepsCause, Loads, Retires, attempt_of};
ghost use Rattle.ow_traits.specs.Telling.{Telling, with_attempt};

use crate::{Changes, Rows};
use ow_value::NoMemory;
use std::alloc::Global;

/// Why rows were not loaded or changes not committed.
#[derive(Clone, Copy, Debug, PartialEq, Eq)]
pub enum KeeperError {
    /// The store failed, and its count of faults rose.
    Failed,
    /// No memory was left for the rows.
    NoMemory,
}

impl From<NoMemory> for KeeperError {
    ghost use Rattle.std.specs.Prelude.{◌≡◌};
    ghost use Rattle.ow_traits.specs.declared.keepers.KeeperError.TheVariants.{NoMemory};

    ghost from_gives = { λ _ e. e ≡ NoMemory };

    fn from(_none: NoMemory) -> KeeperError {
        KeeperError::NoMemory
    }
}

/// A store of rows, and of old rows that are kept beside them. A commit that fails leaves both unchanged.
pub trait Keeper {
    /// The kept rows, the old rows, how many calls failed, and the requested commits.
    ghost telling: { Self → Telling };

    /// How many calls failed. The count saturates at the greatest u64.
    fn faults(&self) -> u64
        ensures { result ≡ (telling self.now).faults };

    /// The kept rows, which stay kept. The old rows aren't loaded.
    fn load(&mut self, alloc: Global) -> Result<Rows, KeeperError>
        ensures told { Loads (telling self.old).rows (telling self.new).rows result }
        ensures old_rows { (telling self.new).old_rows ≡ (telling self.old).old_rows }
        ensures commits { (telling self.new).commits ≡ (telling self.old).commits }
        ensures cause { KeepsCause (telling self.old).faults (telling self.new).faults result };

    /// Makes the changes in their order: all of them, or none.
    fn commit(&mut self, alloc: Global, changes: &Changes) -> Result<(), KeeperError>
        ensures told { Commits (telling self.old).rows (telling self.new).rows changes.now result }
        ensures old_rows { Retires (telling self.old).old_rows (telling self.new).old_rows changes.now result }
        ensures commits { (telling self.new).commits ≡ with_attempt (attempt_of changes.now result) (telling self.old).commits }
        ensures cause { KeepsCause (telling self.old).faults (telling self.new).faults result };
}
