// What the service itself holds while its threads work.
ghost use Rattle.std.specs.Prelude.{◌≡◌, ◌≤◌, [], ◌∷◌, IfOk};
ghost use Rattle.ow_tenant.specs.Table.{IsPoolSized};
ghost use Rattle.ow_board.specs.Board.{IsPassOf, size, view_of};
ghost use Rattle.ow_hall.specs.declared.entry.Entry.{Entry};
ghost use Rattle.ow_desk.specs.Notes.{no_notes};
ghost use Rattle.ow_serve.specs.Ended.{opening_notes};
ghost use Rattle.ow_serve.specs.Working.{fresh_outset, outset};

use crate::duty::{Duty, Work};
use crate::shared_state::{SLOTS, SharedState};
use ow_board::{Board, Pass, board};
use ow_desk::{Desk, Issuer, Receipts};
use ow_hall::Hall;
use ow_http::Routes;
use ow_links::Link;
use ow_threads::{Clock, Gate};
use ow_traits::{Keeper, Runner};
use ow_value::{NoMemory, kept_beside};
use std::alloc::Global;
use std::sync::{Arc, Wait};

/// What the threads share, who makes their receipts, the service's own pass of the board, and its own receipts.
#[derive(Drop)]
pub(crate) struct ServiceContext<
    P: Keeper + Drop,
    R: Runner + Drop,
    C: Clock + Drop,
    G: Gate + Drop,
> {
    pub(crate) shared: Arc<SharedState<P, R::Container>, Global>,
    pub(crate) issuer: Issuer<P>,
    pub(crate) clock: Arc<C, Global>,
    pub(crate) gate: Arc<G, Global>,
    pub(crate) opened: u64,
    pub(crate) pass: Pass<R::Container>,
    pub(crate) notes: Receipts<P>,
    ghost own: { IsPassOf shared.value.board pass },
}

impl<P: Keeper + Drop, R: Runner + Drop, C: Clock + Drop, G: Gate + Drop> ServiceContext<
    P,
    R,
    C,
    G,
> {
    /// Over a hall at its opening, and an empty board.
    pub(crate) fn new(
        alloc: Global,
        hall: Hall<P>,
        clock: Arc<C, Global>,
        gate: Arc<G, Global>,
        opened: u64,
    ) -> Result<Self, NoMemory>
        requires pool { IsPoolSized hall.tenants.pool }
        requires one { (e : Entry) × (hall.ledger.entries ≡ e ∷ []) }
        ensures first { IfOk result (λ h. (e : Entry) × (hall.ledger.entries ≡ e ∷ []) × (h.notes.notes ≡ opening_notes e)) }
        ensures clock { IfOk result (λ h. (h.clock ≡ clock) × (h.opened ≡ opened)) }
    {
        let ((clock, gate), (shared, issuer, pass, notes)) = kept_beside(
            (clock, gate),
            laid(alloc, hall),
        )?;
        Ok(ServiceContext {
            shared,
            issuer,
            clock,
            gate,
            opened,
            pass,
            notes,
        })
    }

    /// A duty, with receipts and a pass of the board of its own.
    pub(crate) fn duty<H: Wait + Clone + Drop, K: Link + Drop>(
        &mut self,
        rt: &H,
        alloc: Global,
        work: Work<K, R>,
    ) -> Result<Duty<H, K, R, P, C, G>, NoMemory>
        ensures duty { IfOk result (λ d. (d.work ≡ work) × (d.notes.notes ≡ no_notes)
            × (outset (C.tells d.clock.value) d.opened (view_of d.pass) ≡ fresh_outset (C.tells self.old.clock.value) self.old.opened)) }
        ensures clock { (self.new.clock ≡ self.old.clock) × (self.new.opened ≡ self.old.opened) }
        ensures notes { self.new.notes.notes ≡ self.old.notes.notes }
    {
        let pass = self.shared.board.split(&mut self.pass);
        Ok(Duty {
            rt: rt.clone()?,
            alloc,
            work,
            pass,
            shared: Arc::try_clone(&self.shared)?,
            clock: Arc::try_clone(&self.clock)?,
            gate: Arc::try_clone(&self.gate)?,
            opened: self.opened,
            notes: Receipts::new(alloc, &self.issuer)?,
        })
    }
}

// What is shared and what is the service's own: the hall on its desk, over an empty board, and the receipts of the opening.
fn laid<P: Keeper + Drop, B: Drop>(
    alloc: Global,
    hall: Hall<P>,
) -> Result<
    (
        Arc<SharedState<P, B>, Global>,
        Issuer<P>,
        Pass<B>,
        Receipts<P>,
    ),
    NoMemory,
>
    requires pool { IsPoolSized hall.tenants.pool }
    requires one { (e : Entry) × (hall.ledger.entries ≡ e ∷ []) }
    ensures own { IfOk result (λ l. IsPassOf l.0.value.board l.2) }
    ensures first { IfOk result (λ l. (e : Entry) × (hall.ledger.entries ≡ e ∷ []) × (l.3.notes ≡ opening_notes e)) }
{
    match board(alloc, SLOTS) {
        Ok((board, pass)) => laid_over(alloc, hall, board, pass),
        Err(_) => {
            drop(hall);
            Err(NoMemory)
        }
    }
}

fn laid_over<P: Keeper + Drop, B: Drop>(
    alloc: Global,
    hall: Hall<P>,
    board: Board<B>,
    pass: Pass<B>,
) -> Result<
    (
        Arc<SharedState<P, B>, Global>,
        Issuer<P>,
        Pass<B>,
        Receipts<P>,
    ),
    NoMemory,
>
    requires pool { IsPoolSized hall.tenants.pool }
    requires one { (e : Entry) × (hall.ledger.entries ≡ e ∷ []) }
    requires wide { 512 ≤ size board }
    requires pass { IsPassOf board pass }
    ensures own { IfOk result (λ l. IsPassOf l.0.value.board l.2) }
    ensures first { IfOk result (λ l. (e : Entry) × (hall.ledger.entries ≡ e ∷ []) × (l.3.notes ≡ opening_notes e)) }
{
    let (desk, issuer) = Desk::of(hall);
    let noted = Receipts::opening(alloc, &issuer, &desk);
    let ((desk, issuer), notes) = kept_beside((desk, issuer), noted)?;
    let made = shared_over(alloc, desk, board);
    let ((issuer, notes), shared) = kept_beside((issuer, notes), made)?;
    Ok((shared, issuer, pass, notes))
}

// What is shared. The routes are made here, once for all connections.
fn shared_over<P: Keeper + Drop, B: Drop>(
    alloc: Global,
    desk: Desk<P>,
    board: Board<B>,
) -> Result<Arc<SharedState<P, B>, Global>, NoMemory>
    requires { 512 ≤ size board }
    ensures { IfOk result (λ s. s.value.board ≡ board) }
{
    let ((desk, board), routes) = kept_beside((desk, board), Routes::new(alloc))?;
    Ok(Arc::new(alloc, SharedState::new(desk, board, routes))?)
}
