// How a service is opened over a store, and opened again.
ghost use Rattle.std.specs.Prelude.{IfOk, IfErr};
ghost use Rattle.ow_traits.specs.Prewarms.{AreWantsSized};
ghost use Rattle.ow_hall.specs.Openings.{IsReopened, IsUnopened, Opens};

use crate::hall::Hall;
use crate::opening::{Opened, open_over};
use crate::refusals::{Reopened, StartRefusal, SweepRefusal};
use ow_tenant::Tenants;
use ow_traits::Keeper;
use std::alloc::Global;

impl<P: Keeper + Drop> Hall<P> {
    /// Opens the service over a store and an office table, as `Tenants::read` gives one: its pool and limits stay as they are. The
    /// service then has what the store keeps: the rows of entities, the last counts, the records, the notes, and how much was archived.
    /// What had not ended is recorded as abandoned. It makes one commit, after which the rows are of the second version. A refusal hands
    /// store and table back.
    pub fn start(
        alloc: Global,
        store: P,
        tenants: Tenants,
        at: u64,
    ) -> Result<Hall<P>, StartRefusal<P>>
        requires { AreWantsSized tenants.wants }
        ensures opens { IfOk result (λ h. Opens P.telling store tenants at h) }
        ensures unopened { IfErr result (λ refusal. IsUnopened P.telling store tenants refusal) }
    {
        let mut store = store;
        match open_over(alloc, &mut store, &tenants, at) {
            Ok(
                Opened {
                    state,
                    book,
                    failed,
                },
            ) => Ok(Hall {
                tenants,
                state,
                book,
                store,
                failed,
            }),
            Err(why) => Err(StartRefusal {
                why,
                store,
                tenants,
            }),
        }
    }

    /// Opens the service again: each activation that has not ended is recorded as abandoned, all containers are gone, nobody waits, and
    /// calls are taken again. A refusal hands the service back as it was.
    pub fn reopen(self, alloc: Global, at: u64) -> Result<Hall<P>, Reopened<P>>
        ensures { IsReopened P.telling self at result }
    {
        let mut hall = self;
        match hall.reopen_in_place(alloc, at) {
            Ok(_) => Ok(hall),
            Err(SweepRefusal::StoreFault) => Err(Reopened::StoreFault(hall)),
            Err(SweepRefusal::NoMemory) => Err(Reopened::NoMemory(hall)),
        }
    }
}
