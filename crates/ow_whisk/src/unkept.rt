// A keeper for a day or a service without a store.
ghost use Rattle.std.specs.Prelude.{◌≡◌, Some, false, []};
ghost use Rattle.ow_whisk.specs.Unkept.{attempts_behind, old_rows_behind, rows_behind};

use http_server::Log;
use ow_traits::{Change, Changes, Keeper, KeeperError, Rows};
use ow_value::Items;
use std::alloc::Global;

/// Holds no row in memory: what a day or a service without a store would keep ends with it. It reports the rows and the old rows that
/// its commits make of none. Before the first commit there is no row to load; after it, the answer to a load is out of memory. No call fails.
#[derive(Drop)]
pub struct Unkept {
    committed: bool,
    commits: Log<Items<Change>, ()>,
    ghost none: { committed ≡ false → commits.items ≡ [] },
}

impl Unkept {
    /// A keeper of no rows.
    pub fn new() -> Unkept
        ensures rows { (⟦<Unkept as Keeper>⟧.telling result).rows ≡ Some [] }
        ensures old_rows { (⟦<Unkept as Keeper>⟧.telling result).old_rows ≡ Some [] }
        ensures faults { (⟦<Unkept as Keeper>⟧.telling result).faults ≡ 0 }
    {
        Unkept {
            committed: false,
            commits: Log::new(),
        }
    }
}

impl Keeper for Unkept {
    ghost telling = { λ k. record { rows = Some (rows_behind k.commits.items []); old_rows = Some (old_rows_behind k.commits.items []); faults = 0; commits = Some (attempts_behind k.commits.items []) } };

    fn faults(&self) -> u64 {
        0
    }

    fn load(&mut self, alloc: Global) -> Result<Rows, KeeperError> {
        if self.committed {
            return Err(KeeperError::NoMemory);
        }
        Ok(Rows::new(alloc))
    }

    #[tactic(auto, using(crate::proofs::Behind::rows_behind_one, crate::proofs::Behind::old_rows_behind_one, crate::proofs::Behind::attempts_behind_one))]
    fn commit(&mut self, _alloc: Global, changes: &Changes) -> Result<(), KeeperError> {
        let commits = self.commits.and(changes, &());
        self.committed = true;
        self.commits = commits;
        Ok(())
    }
}
