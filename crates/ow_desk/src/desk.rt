// The hall that is shared, and who may make receipts.
ghost use Rattle.std.specs.Prelude.{◌≡◌, ◌+◌, ◌<◌, ◌≤◌};
ghost use Rattle.ow_tenant.specs.Table.{IsPoolSized};
ghost use Rattle.ow_floor.specs.Laws.{StandInSlots};
ghost use Rattle.ow_hall.specs.Beginnings.{KeepsEach, KeepsLimits, KeepsSteps};
ghost use Rattle.ow_hall.specs.Comes.{HoldsBook};
ghost use Rattle.ow_hall.specs.History.{IsLegal, seen};
ghost use Rattle.ow_desk.specs.Desks.{IsWithinFaults};

use ow_hall::Hall;
use ow_traits::Keeper;
use std::marker::{Model, PhantomData};

/// A hall that is shared under a lock. Only receipts change it.
#[derive(Drop)]
pub struct Desk<P: Keeper + Drop> {
    pub(crate) hall: Hall<P>,
    // How many calls of the store had failed when the hall was laid here, and how many of them its book had tallied.
    since: u64,
    before: u64,
}

/// The right to make receipts of what is done at a desk. A desk gives one.
#[derive(Drop)]
pub struct Issuer<P: Keeper + Drop> {
    desk: PhantomData<P>,
}

impl<P: Keeper + Drop> Model for Desk<P> {
    ghost use Rattle.ow_tenant.specs.Table.{IsPoolSized};
    ghost use Rattle.ow_desk.specs.Desks.{DeskView, IsWithinFaults};
    ghost use Rattle.std.specs.Coded.{codes};
    ghost use Rattle.ow_value.specs.Code.{value_code};

    ghost Value = { DeskView P };

    ghost coded = { Prim.hlevel (codes, value_code) };

    ghost view = { λ d. record { hall = d.hall; since = d.since; before = d.before } };

    ghost invariant = { λ d. IsWithinFaults (P.telling d.hall.store).faults d.since d.hall.ledger.stored d.before × IsPoolSized d.hall.tenants.pool };
}

impl<P: Keeper + Drop> Desk<P> {
    /// Lays a hall on a desk, as it is. Its office table is one that `Tenants::read` gives.
    pub fn of(hall: Hall<P>) -> (Desk<P>, Issuer<P>)
        requires { IsPoolSized hall.tenants.pool }
        ensures hall { result.0.hall ≡ hall }
        ensures since { result.0.since ≡ (P.telling hall.store).faults }
        ensures before { result.0.before ≡ hall.ledger.stored }
    {
        let since = hall.faults();
        let before = hall.book().stored();
        let issuer = Issuer { desk: PhantomData };
        (
            Desk {
                hall,
                since,
                before,
            },
            issuer,
        )
    }

    /// The hall, for reading. All of this holds whenever the lock over the desk is free, whatever was done there.
    pub fn hall(&self) -> &Hall<P>
        ensures hall { result.now ≡ self.now.hall }
        ensures legal { IsLegal self.now.hall.tenants self.now.hall.ledger.entries }
        ensures activations { KeepsEach self.now.hall.tenants self.now.hall.ledger.entries }
        ensures limits { KeepsLimits self.now.hall.tenants self.now.hall.ledger.entries }
        ensures steps { KeepsSteps self.now.hall.tenants self.now.hall.ledger.entries }
        ensures slots { StandInSlots (seen self.now.hall.tenants self.now.hall.ledger.entries).trace }
        ensures kept { HoldsBook (P.telling self.now.hall.store).rows self.now.hall.tenants self.now.hall.ledger }
        ensures stored { IsWithinFaults (P.telling self.now.hall.store).faults self.now.since self.now.hall.ledger.stored self.now.before }
    {
        self.hall.book();
        &self.hall
    }

    /// Takes the hall from the desk.
    pub fn open(self) -> Hall<P>
        ensures { result ≡ self.hall }
    {
        let Desk { hall, .. } = self;
        hall
    }
}
