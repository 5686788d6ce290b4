// The end: all that was accepted ends, and what lies on the board is stopped.
ghost use Rattle.std.specs.Prelude.{◌≡◌, ◌<◌, ◌++◌, ◌∷◌, None, map, IfOk, IfSome, OnOk};
ghost use Rattle.ow_tenant.specs.Table.{Table};
ghost use Rattle.ow_traits.specs.Runner.{RanNone};
ghost use Rattle.ow_board.specs.Board.{IsPassOf, size};
ghost use Rattle.ow_hall.specs.Comes.{HoldsBook, drain_outcome};
ghost use Rattle.ow_hall.specs.History.{IsLegal};
ghost use Rattle.ow_decide.specs.declared.events.Event.TheVariants as events;
ghost use Rattle.ow_desk.specs.Notes.{CalledBy};
ghost use Rattle.ow_serve.specs.Ended.{Drains, KeepsBook, KeepsFirst};
ghost use Rattle.ow_serve.specs.Peers.{endings_in, filled};

use crate::duty::Done;
use crate::service_context::ServiceContext;
use crate::shared_state::SharedState;
use ow_board::{Pass, is_full};
use ow_desk::Receipts;
use ow_floor::Drain;
use ow_hall::Book;
use ow_peer::Ending;
use ow_threads::{Bell, Clock, Gate, hold};
use ow_traits::{Keeper, Runner};
use ow_value::NoMemory;
use std::alloc::Global;
use std::collections::VecDeque;
use std::sync::{Arc, Wait};

/// How long the service pauses between two drains, in milliseconds. No ring ends the pause.
const PAUSE: u64 = 10;

/// Takes no more calls, and waits until all that was accepted has ended.
pub(crate) fn drain<H: Wait, P: Keeper + Drop, R: Runner + Drop, C: Clock + Drop, G: Gate + Drop>(
    rt: &H,
    alloc: Global,
    service: &mut ServiceContext<P, R, C, G>,
) -> Result<(), NoMemory>
    ensures drained { OnOk result (Drains (C.tells service.old.clock.value) service.old.notes.notes service.new.notes.notes) }
    ensures first { KeepsFirst service.old.notes.notes service.new.notes.notes }
{
    for _ in rt.forever() {
        match drain_once(rt, alloc, service) {
            Ok(Drain::Drained(_)) => return Ok(()),
            Ok(Drain::StillOpen(_)) => service.clock.pause(Bell::Close, PAUSE),
            Err(e) => return Err(e),
        }
    }
    Err(NoMemory)
}

// The lock is free again after this call.
fn drain_once<H: Wait, P: Keeper + Drop, R: Runner + Drop, C: Clock + Drop, G: Gate + Drop>(
    rt: &H,
    alloc: Global,
    service: &mut ServiceContext<P, R, C, G>,
) -> Result<Drain, NoMemory>
    ensures called { CalledBy (C.tells service.old.clock.value) events.Drain (drain_outcome result) service.old.notes.notes service.new.notes.notes }
    ensures first { KeepsFirst service.old.notes.notes service.new.notes.notes }
    ensures clock { service.new.clock ≡ service.old.clock }
{
    let at = service.clock.now();
    service
        .notes
        .drain(alloc, &mut *hold(rt, &service.shared.desk), at)
}

/// Stops each container that lies on the board. No code runs.
pub(crate) fn clear<P: Keeper + Drop, R: Runner>(
    shared: &SharedState<P, R::Container>,
    pass: &mut Pass<R::Container>,
    runner: &mut R,
)
    requires { IsPassOf shared.now.board pass.old }
    ensures pass { IsPassOf shared.now.board pass.new }
    ensures ran { RanNone (R.tally runner.old) (R.tally runner.new) }
{
    for i in 0..shared.board.slots() {
        clear_slot(shared, pass, runner, i);
    }
}

fn clear_slot<P: Keeper + Drop, R: Runner>(
    shared: &SharedState<P, R::Container>,
    pass: &mut Pass<R::Container>,
    runner: &mut R,
    i: u32,
)
    requires pass { IsPassOf shared.now.board pass.old }
    requires slot { i < size shared.now.board }
    ensures pass { IsPassOf shared.now.board pass.new }
    ensures ran { RanNone (R.tally runner.old) (R.tally runner.new) }
{
    let word = shared.board.look(pass, i);
    if is_full(word) {
        if let Ok(container) = shared.board.take(pass, i, word) {
            runner.stop(container);
        }
    }
}

/// The store, where nothing else holds the shared state any more, and the book in its current state.
pub(crate) fn left_of<H: Wait, P: Keeper + Drop, B: Drop>(
    rt: &H,
    alloc: Global,
    shared: Arc<SharedState<P, B>, Global>,
) -> Result<(Option<P>, Book), NoMemory>
    ensures told { IfOk result (λ l. (t : Table) × IsLegal t l.1.ledger.entries × IfSome l.0 (λ s. HoldsBook (P.telling s).rows t l.1.ledger)) }
    ensures kept { IfOk result (λ l. IfSome l.0 (λ s. KeepsBook (P.telling s).rows None)) }
{
    match Arc::try_unwrap(shared) {
        Ok(shared) => {
            let (store, book) = shared.into_desk().open().finish();
            Ok((Some(store), book))
        }
        Err(shared) => Ok((None, book_of(rt, alloc, &shared)?)),
    }
}

// The book in its current state.
fn book_of<H: Wait, P: Keeper + Drop, B: Drop>(
    rt: &H,
    alloc: Global,
    shared: &SharedState<P, B>,
) -> Result<Book, NoMemory>
    ensures { IfOk result (λ b. (t : Table) × IsLegal t b.ledger.entries) }
{
    let desk = hold(rt, &shared.desk);
    desk.hall().book().copy(alloc)
}

/// The store, where nothing else holds the shared state any more.
pub(crate) fn store_of<P: Keeper + Drop, B: Drop>(
    shared: Arc<SharedState<P, B>, Global>,
) -> Option<P>
    ensures { IfSome result (λ s. KeepsBook (P.telling s).rows None) }
{
    let shared = Arc::into_inner(shared)?;
    let (store, _book) = shared.into_desk().open().finish();
    Some(store)
}

/// The results of all peers, in order. The results of the peers that the service served itself are in their seats; the results of threads
/// take the free ones.
pub(crate) fn in_order<T: Drop>(
    alloc: Global,
    seats: Vec<Option<T>>,
    joined: Vec<T>,
) -> Result<Vec<T>, NoMemory>
    ensures { IfOk result (λ v. v.items ≡ filled seats.items joined.items) }
{
    let mut all = Vec::with_capacity(alloc, seats.len())?;
    let mut seats = VecDeque::from(seats);
    let mut joined = VecDeque::from(joined);
    while let Some(seat) = seats.pop_front() {
        let done = match seat {
            Some(done) => Some(done),
            None => joined.pop_front(),
        };
        if let Some(done) = done {
            all.push(done)?;
        }
    }
    Ok(all)
}

/// The receipts of the service itself, of its peers, and of the others, and how the peers' connections ended.
pub(crate) fn gathered<R: Runner + Drop, P: Keeper + Drop>(
    alloc: Global,
    own: Receipts<P>,
    peers: Vec<Done<R, P>>,
    others: Vec<Done<R, P>>,
) -> Result<(Vec<Receipts<P>>, Vec<Ending>), NoMemory>
    ensures { IfOk result (λ r. (map (λ x. x.notes) r.0.items ≡ own.notes ∷ (map (λ d. d.notes.notes) peers.items ++ map (λ d. d.notes.notes) others.items))
        × (r.1.items ≡ endings_in (map (λ d. d.ending) peers.items))) }
{
    let mut receipts = Vec::new(alloc);
    let mut endings = Vec::new(alloc);
    receipts.push(own)?;
    put_all(peers, &mut receipts, &mut endings)?;
    let mut unused = Vec::new(alloc);
    put_all(others, &mut receipts, &mut unused)?;
    Ok((receipts, endings))
}

// Appends the receipts and the endings to the others.
fn put_all<R: Runner + Drop, P: Keeper + Drop>(
    dones: Vec<Done<R, P>>,
    receipts: &mut Vec<Receipts<P>>,
    endings: &mut Vec<Ending>,
) -> Result<(), NoMemory>
    ensures { OnOk result ((map (λ x. x.notes) receipts.new.items ≡ map (λ x. x.notes) receipts.old.items ++ map (λ d. d.notes.notes) dones.items)
        × (endings.new.items ≡ endings.old.items ++ endings_in (map (λ d. d.ending) dones.items))) }
{
    let mut dones = VecDeque::from(dones);
    while let Some(done) = dones.pop_front() {
        let Done { notes, ending, .. } = done;
        receipts.push(notes)?;
        if let Some(ending) = ending {
            endings.push(ending)?;
        }
    }
    Ok(())
}
