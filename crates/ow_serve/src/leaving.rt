// The end of the service: its threads are joined, and what they leave is compared.
ghost use Rattle.std.specs.Prelude.{◌≡◌, ℕ, Option, Some, map, IfOk, IfSome, IsOk, OnErr, IsOkAnd};
ghost use Rattle.ow_threads.specs.Tasks.{Joined};
ghost use Rattle.ow_board.specs.Board.{IsPassOf, view_of};
ghost use Rattle.ow_desk.specs.Notes.{Notes};
ghost use Rattle.ow_audit.specs.Places.{notes_of};
ghost use Rattle.ow_serve.specs.Duties.{Ends};
ghost use Rattle.ow_serve.specs.Ended.{BookBegins, Closes, Drains, IsEnd, KeepsBook, Left};
ghost use Rattle.ow_serve.specs.Peers.{filled};
ghost use Rattle.ow_serve.specs.Working.{outset};

use crate::accepting::Stopped;
use crate::closing::{clear, drain, gathered, in_order, left_of, store_of};
use crate::duty::{Done, Duty};
use crate::served::{Served, ServedEnd, nothing};
use crate::service_context::ServiceContext;
use crate::shared_state::SharedState;
use ow_audit::first_difference;
use ow_board::Pass;
use ow_desk::Receipts;
use ow_hall::Book;
use ow_links::Link;
use ow_peer::Ending;
use ow_system::{Crew, Leave};
use ow_threads::{Bell, Clock, Gate};
use ow_traits::{Keeper, Runner};
use ow_value::NoMemory;
use std::alloc::Global;
use std::sync::Wait;
use std::thread::Threads;

/// Ends workers, sweeper and reaper, and returns their results.
pub(crate) fn end_all<
    H: Wait + Threads + Drop + Send + 'static,
    K: Link + Drop + Send + 'static,
    R: Runner + Drop + Send + 'static,
    P: Keeper + Drop + Send + 'static,
    C: Clock + Drop + Send + Sync + 'static,
    G: Gate + Drop + Send + Sync + 'static,
    V: Leave + Drop,
>(
    rt: &H,
    alloc: Global,
    service: &ServiceContext<P, R, C, G>,
    crew: &mut Crew<V, Duty<H, K, R, P, C, G>>,
) -> Result<Vec<Done<R, P>>, NoMemory>
where
    R::Container: Send + 'static,
    ensures joined { Joined (λ t d. Ends K.left K.taken R.gives R.tally (outset (C.tells t.clock.value) t.opened (view_of t.pass)) t.work t.notes.notes d.notes.notes d.ending d.runner) (λ v. v.items) crew.old.tasks crew.new.tasks 0 result }
    ensures faults { crew.new.faults ≡ crew.old.faults }
{
    service.shared.end();
    service.clock.ring(Bell::Close);
    crew.join(rt, alloc, 0)
}

/// Waits for the connections and for all that was accepted, ends the threads, and compares.
pub(crate) fn close<
    H: Wait + Threads + Drop + Send + 'static,
    K: Link + Drop + Send + 'static,
    R: Runner + Drop + Send + 'static,
    P: Keeper + Drop + Send + 'static,
    C: Clock + Drop + Send + Sync + 'static,
    G: Gate + Drop + Send + Sync + 'static,
    V: Leave + Drop,
>(
    rt: &H,
    alloc: Global,
    service: ServiceContext<P, R, C, G>,
    seats: Vec<Option<Done<R, P>>>,
    stopped: Stopped,
    first: u64,
    crew: &mut Crew<V, Duty<H, K, R, P, C, G>>,
) -> Served<P>
where
    R::Container: Send + 'static,
    ensures closes { Closes (Drains (C.tells service.clock.value) service.notes.notes) (λ t d. Ends K.left K.taken R.gives R.tally (outset (C.tells t.clock.value) t.opened (view_of t.pass)) t.work t.notes.notes d.notes.notes d.ending d.runner) (λ d. d.notes.notes) (λ d. d.ending) first crew.old.tasks seats.items stopped result.end result.book (map (λ r. r.notes) result.receipts.items) result.endings.items }
    ensures faults { crew.new.faults ≡ crew.old.faults }
    ensures begins { BookBegins service.notes.notes result.end result.book }
    ensures store { IfSome result.store (λ s. KeepsBook (P.telling s).rows result.book) }
{
    let mut service = service;
    let joined = crew.join(rt, alloc, first);
    let drained = drain(rt, alloc, &mut service);
    let others = end_all(rt, alloc, &service, crew);
    let all = all_of(alloc, seats, joined, drained, others);
    leave(rt, alloc, service, all, stopped)
}

// The results of the peers, in order, and the results of the others.
fn all_of<R: Runner + Drop, P: Keeper + Drop>(
    alloc: Global,
    seats: Vec<Option<Done<R, P>>>,
    joined: Result<Vec<Done<R, P>>, NoMemory>,
    drained: Result<(), NoMemory>,
    others: Result<Vec<Done<R, P>>, NoMemory>,
) -> Result<(Vec<Done<R, P>>, Vec<Done<R, P>>), NoMemory>
    ensures peers { IfOk result (λ a. IsOkAnd joined (λ js. a.0.items ≡ filled seats.items js.items)) }
    ensures others { IfOk result (λ a. IsOkAnd others (λ os. a.1.items ≡ os.items)) }
    ensures drained { IsOk result → IsOk drained }
{
    let joined = joined?;
    drained?;
    let others = others?;
    let peers = in_order(alloc, seats, joined)?;
    Ok((peers, others))
}

// What is left once all threads have ended.
fn leave<H: Wait, R: Runner + Drop, P: Keeper + Drop, C: Clock + Drop, G: Gate + Drop>(
    rt: &H,
    alloc: Global,
    service: ServiceContext<P, R, C, G>,
    all: Result<(Vec<Done<R, P>>, Vec<Done<R, P>>), NoMemory>,
    stopped: Stopped,
) -> Served<P>
    ensures left { (tells : Option ℕ) (n : Notes) → (IsOk all → Drains tells n service.notes.notes) → IfOk all (λ a. Left (Drains tells n) (map (λ d. d.notes.notes) a.0.items) (map (λ d. d.ending) a.0.items) (map (λ d. d.notes.notes) a.1.items) stopped result.end result.book (map (λ r. r.notes) result.receipts.items) result.endings.items) }
    ensures none { OnErr all (result.end ≡ ServedEnd.NoMemory) }
    ensures begins { BookBegins service.notes.notes result.end result.book }
    ensures store { IfSome result.store (λ s. KeepsBook (P.telling s).rows result.book) }
{
    let ServiceContext {
        shared,
        pass,
        notes,
        ..
    } = service;
    match all {
        Ok((peers, others)) => {
            let others = cleared(&shared, pass, others);
            let gathered = gathered(alloc, notes, peers, others);
            match (left_of(rt, alloc, shared), gathered) {
                (Ok((store, book)), Ok((receipts, endings))) => {
                    compared(alloc, book, receipts, endings, stopped, store)
                }
                (Ok((store, _)), Err(_)) => nothing(alloc, ServedEnd::NoMemory, store),
                (Err(_), _) => nothing(alloc, ServedEnd::NoMemory, None),
            }
        }
        Err(_) => nothing(alloc, ServedEnd::NoMemory, store_of(shared)),
    }
}

// What lies on the board is stopped, with the runner of the reaper, who is the last of the others.
fn cleared<R: Runner + Drop, P: Keeper + Drop>(
    shared: &SharedState<P, R::Container>,
    pass: Pass<R::Container>,
    others: Vec<Done<R, P>>,
) -> Vec<Done<R, P>>
    requires { IsPassOf shared.now.board pass }
    ensures { map (λ d. d.notes.notes) result.items ≡ map (λ d. d.notes.notes) others.items }
{
    let (mut pass, mut others) = (pass, others);
    if let Some(last) = others.pop() {
        let Done {
            notes,
            ending,
            runner,
        } = last;
        let runner = stopped_by(shared, &mut pass, runner);
        others.push_reserved(Done {
            notes,
            ending,
            runner,
        });
    }
    others
}

fn stopped_by<R: Runner + Drop, P: Keeper + Drop>(
    shared: &SharedState<P, R::Container>,
    pass: &mut Pass<R::Container>,
    runner: Option<R>,
) -> Option<R>
    requires { IsPassOf shared.now.board pass.old }
{
    let mut runner = runner?;
    clear(shared, pass, &mut runner);
    Some(runner)
}

// The end, with what is left.
fn compared<P: Keeper + Drop>(
    alloc: Global,
    book: Book,
    receipts: Vec<Receipts<P>>,
    endings: Vec<Ending>,
    stopped: Stopped,
    store: Option<P>,
) -> Served<P>
    ensures end { IsEnd stopped (map (λ r. r.notes) receipts.items) book.ledger result.end }
    ensures book { result.book ≡ Some book }
    ensures receipts { result.receipts ≡ receipts }
    ensures endings { result.endings ≡ endings }
    ensures store { result.store ≡ store }
{
    let end = end_of(alloc, stopped, receipts.as_slice(), &book);
    Served {
        end,
        store,
        book: Some(book),
        receipts,
        endings,
        listener_faults: 0,
        spawner_faults: 0,
    }
}

// How the service ended, by why it accepted no more, and whether its receipts are its book.
fn end_of<P: Keeper + Drop>(
    alloc: Global,
    stopped: Stopped,
    receipts: &[Receipts<P>],
    book: &Book,
) -> ServedEnd
    ensures { IsEnd stopped (notes_of receipts.now) book.now.ledger result }
{
    match first_difference(alloc, receipts, book) {
        Ok(None) => match stopped {
            Stopped::Closed => ServedEnd::Closed,
            Stopped::Fault => ServedEnd::ListenFault,
            Stopped::NoMemory => ServedEnd::NoMemory,
        },
        Ok(Some(difference)) => ServedEnd::Unmatched(difference),
        Err(_) => ServedEnd::NoMemory,
    }
}
