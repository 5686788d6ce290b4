// A keeper in memory, of which some calls are to fail.
ghost use Rattle.std.specs.Prelude.{◌≡◌, Some, None};

use crate::calls::Calls;
use crate::{Changes, Keeper, KeeperError, Rows};
use ow_value::PlainData;
use std::alloc::Global;

/// Keeps rows and old rows in memory. The calls of `load` and `commit` whose numbers are in `failing` fail; both count, and the first has the number 0.
#[derive(Drop)]
pub struct MemoryKeeper {
    rows: Rows,
    old_rows: Rows,
    calls: Calls,
}

impl MemoryKeeper {
    ghost use Rattle.std.specs.Prelude.{Some, []};

    /// A keeper of no rows, none of whose calls is to fail.
    pub fn new(alloc: Global) -> MemoryKeeper
        ensures rows { (⟦<MemoryKeeper as Keeper>⟧.telling result).rows ≡ Some [] }
        ensures old_rows { (⟦<MemoryKeeper as Keeper>⟧.telling result).old_rows ≡ Some [] }
        ensures faults { (⟦<MemoryKeeper as Keeper>⟧.telling result).faults ≡ 0 }
    {
        MemoryKeeper::holding(Rows::new(alloc), Vec::new(alloc))
    }

    /// A keeper of these rows, and of no old rows.
    pub fn holding(rows: Rows, failing: Vec<u64>) -> MemoryKeeper
        ensures rows { (⟦<MemoryKeeper as Keeper>⟧.telling result).rows ≡ Some rows }
        ensures old_rows { (⟦<MemoryKeeper as Keeper>⟧.telling result).old_rows ≡ Some [] }
        ensures faults { (⟦<MemoryKeeper as Keeper>⟧.telling result).faults ≡ 0 }
    {
        let alloc = *failing.allocator();
        MemoryKeeper {
            rows,
            old_rows: Rows::new(alloc),
            calls: Calls::new(failing),
        }
    }

    /// The kept rows.
    pub fn rows(&self) -> &Rows
        ensures { (⟦<MemoryKeeper as Keeper>⟧.telling self.now).rows ≡ Some result.now }
    {
        &self.rows
    }

    /// The old rows.
    pub fn old_rows(&self) -> &Rows
        ensures { (⟦<MemoryKeeper as Keeper>⟧.telling self.now).old_rows ≡ Some result.now }
    {
        &self.old_rows
    }

    /// The kept rows, with no copy.
    pub fn into_rows(self) -> Rows
        ensures { (⟦<MemoryKeeper as Keeper>⟧.telling self).rows ≡ Some result }
    {
        self.rows
    }
}

impl Keeper for MemoryKeeper {
    ghost telling = { λ k. record { rows = Some k.rows; old_rows = Some k.old_rows; faults = k.calls.faults; commits = None } };

    fn faults(&self) -> u64 {
        self.calls.faults
    }

    fn load(&mut self, alloc: Global) -> Result<Rows, KeeperError> {
        if self.calls.fails_next() {
            return Err(KeeperError::Failed);
        }
        Ok(self.rows.copy(alloc)?)
    }

    fn commit(&mut self, alloc: Global, changes: &Changes) -> Result<(), KeeperError> {
        if self.calls.fails_next() {
            return Err(KeeperError::Failed);
        }
        self.rows.apply(&mut self.old_rows, alloc, changes)?;
        Ok(())
    }
}
