// The service, from its opening to its end.
ghost use Rattle.std.specs.Prelude.{◌≡◌, ◌≤◌, ◌<◌, ◌-◌, [], length, map, unwrap_or, IfSome};
ghost use Rattle.ow_traits.specs.Streams.{Rose};
ghost use Rattle.ow_serve.specs.Duties.{TalksAlone};
ghost use Rattle.ow_serve.specs.Working.{AllWork, AllWorkBy, fresh_outset};
ghost use Rattle.ow_serve.specs.Ended.{BookBegins, BookOpens, Drains, IsOpenedEnd, IsOpenedOver, IsUnopened, KeepsBook, LeavesStore, OpensAndDrains, Serves, unopened};
ghost use Rattle.ow_tenant.specs.Table.{IsPoolSized};
ghost use Rattle.ow_traits.specs.Prewarms.{AreWantsSized};

use crate::accepting::accept_all;
use crate::beginning::begin_all;
use crate::closing::store_of;
use crate::duty::Duty;
use crate::leaving::{close, end_all};
use crate::served::{Served, ServedEnd, nothing};
use crate::service_context::ServiceContext;
use ow_command_line::ServeWords;
use ow_hall::{Hall, StartFault, StartRefusal};
use ow_links::{Link, Listener};
use ow_system::{Crew, Leave};
use ow_tenant::Tenants;
use ow_threads::{Clock, Gate};
use ow_traits::{Keeper, Runner};
use std::alloc::Global;
use std::sync::{Arc, Wait};
use std::thread::Threads;

/// Opens the service over the store and the office table, and serves the peers that the listener gives, each in a thread of its own,
/// while workers run what is accepted. The last runner is the reaper's, each other one has a worker. It stops accepting where no peer
/// comes any more, the listener fails, or as many came as `words` allows. Then all that was accepted ends, all threads are joined, what
/// lies on the board is stopped, and the receipts of all threads are compared with the book.
pub fn serve<
    H: Wait + Threads + Clone + Drop + Send + 'static,
    K: Link + Drop + Send + 'static,
    L: Listener<Peer = K>,
    R: Runner + Drop + Send + 'static,
    P: Keeper + Drop + Send + 'static,
    C: Clock + Drop + Send + Sync + 'static,
    G: Gate + Drop + Send + Sync + 'static,
    V: Leave + Drop,
>(
    rt: &H,
    alloc: Global,
    words: ServeWords,
    tenants: Tenants,
    listener: &mut L,
    runners: Vec<R>,
    store: P,
    clock: Arc<C, Global>,
    gate: Arc<G, Global>,
    leave: V,
) -> Served<P>
where
    R::Container: Send + 'static,
    requires wants { AreWantsSized tenants.wants }
    requires pool { IsPoolSized tenants.pool }
    requires runners { 2 ≤ length runners.items }
    ensures serves { Serves (OpensAndDrains (C.tells clock.value))
        (TalksAlone K.left K.taken (C.tells clock.value))
        (AllWorkBy R.gives R.tally (C.tells clock.value) runners.items)
        (L.peers listener.old) (L.peers listener.new) (unwrap_or words.connections 18446744073709551615)
        result.end result.book (map (λ r. r.notes) result.receipts.items) result.endings.items }
    ensures listener { result.listener_faults ≡ L.faults listener.new - L.faults listener.old }
    ensures fault { result.end ≡ ServedEnd.ListenFault
        → Rose (L.faults listener.old) (L.faults listener.new) }
    ensures worker { result.end ≡ ServedEnd.NoWorker → 0 < result.spawner_faults }
    ensures unopened { IsUnopened P.telling store result.end result.store }
    ensures allowed { IsOpenedOver (P.telling store).rows result.end }
    ensures opens { BookOpens (C.tells clock.value) (P.telling store).rows tenants result.end result.book }
    ensures store { LeavesStore P.telling store result.end result.store result.book }
{
    let opened = clock.now();
    match Hall::start(alloc, store, tenants, opened) {
        Ok(hall) => match ServiceContext::new(alloc, hall, clock, gate, opened) {
            Ok(service) => run(rt, alloc, &words, listener, runners, service, leave),
            Err(_) => nothing(alloc, ServedEnd::NoMemory, None),
        },
        Err(refusal) => {
            let StartRefusal { why, store, .. } = refusal;
            nothing(alloc, unopened(why), Some(store))
        }
    }
}

// How a service ends that wasn't opened.
fn unopened(why: StartFault) -> ServedEnd
    ensures { result ≡ unopened why }
{
    match why {
        StartFault::BadKept(key) => ServedEnd::BadKept(key),
        StartFault::StoreFault => ServedEnd::StoreFault,
        StartFault::NoMemory => ServedEnd::NoMemory,
    }
}

// Serves, and closes.
fn run<
    H: Wait + Threads + Clone + Drop + Send + 'static,
    K: Link + Drop + Send + 'static,
    L: Listener<Peer = K>,
    R: Runner + Drop + Send + 'static,
    P: Keeper + Drop + Send + 'static,
    C: Clock + Drop + Send + Sync + 'static,
    G: Gate + Drop + Send + Sync + 'static,
    V: Leave + Drop,
>(
    rt: &H,
    alloc: Global,
    words: &ServeWords,
    listener: &mut L,
    runners: Vec<R>,
    service: ServiceContext<P, R, C, G>,
    leave: V,
) -> Served<P>
where
    R::Container: Send + 'static,
    requires runners { 2 ≤ length runners.items }
    ensures serves { Serves (Drains (C.tells service.clock.value) service.notes.notes) (TalksAlone K.left K.taken (C.tells service.clock.value)) (AllWork R.gives R.tally (fresh_outset (C.tells service.clock.value) service.opened) runners.items)
        (L.peers listener.old) (L.peers listener.new) (unwrap_or words.now.connections 18446744073709551615) result.end result.book (map (λ r. r.notes) result.receipts.items) result.endings.items }
    ensures listener { result.listener_faults ≡ L.faults listener.new - L.faults listener.old }
    ensures fault { result.end ≡ ServedEnd.ListenFault
        → Rose (L.faults listener.old) (L.faults listener.new) }
    ensures worker { result.end ≡ ServedEnd.NoWorker → 0 < result.spawner_faults }
    ensures opened { IsOpenedEnd result.end }
    ensures begins { BookBegins service.notes.notes result.end result.book }
    ensures store { IfSome result.store (λ s. KeepsBook (P.telling s).rows result.book) }
{
    let mut crew: Crew<V, Duty<H, K, R, P, C, G>> = Crew::new(alloc, leave);
    let before = listener.faults();
    let mut served = serve_all(rt, alloc, words, listener, runners, service, &mut crew);
    served.listener_faults = listener.faults().saturating_sub(before);
    served.spawner_faults = crew.faults();
    served
}

// The same, except the counts of faults.
fn serve_all<
    H: Wait + Threads + Clone + Drop + Send + 'static,
    K: Link + Drop + Send + 'static,
    L: Listener<Peer = K>,
    R: Runner + Drop + Send + 'static,
    P: Keeper + Drop + Send + 'static,
    C: Clock + Drop + Send + Sync + 'static,
    G: Gate + Drop + Send + Sync + 'static,
    V: Leave + Drop,
>(
    rt: &H,
    alloc: Global,
    words: &ServeWords,
    listener: &mut L,
    runners: Vec<R>,
    service: ServiceContext<P, R, C, G>,
    crew: &mut Crew<V, Duty<H, K, R, P, C, G>>,
) -> Served<P>
where
    R::Container: Send + 'static,
    requires runners { 2 ≤ length runners.items }
    requires fresh { crew.old.tasks ≡ [] }
    ensures serves { Serves (Drains (C.tells service.clock.value) service.notes.notes) (TalksAlone K.left K.taken (C.tells service.clock.value)) (AllWork R.gives R.tally (fresh_outset (C.tells service.clock.value) service.opened) runners.items)
        (L.peers listener.old) (L.peers listener.new) (unwrap_or words.now.connections 18446744073709551615) result.end result.book (map (λ r. r.notes) result.receipts.items) result.endings.items }
    ensures faults_grow { L.faults listener.old ≤ L.faults listener.new }
    ensures fault { result.end ≡ ServedEnd.ListenFault
        → Rose (L.faults listener.old) (L.faults listener.new) }
    ensures worker { result.end ≡ ServedEnd.NoWorker → 0 < crew.new.faults }
    ensures opened { IsOpenedEnd result.end }
    ensures begins { BookBegins service.notes.notes result.end result.book }
    ensures store { IfSome result.store (λ s. KeepsBook (P.telling s).rows result.book) }
{
    let mut service = service;
    match begin_all(rt, alloc, runners, &mut service, crew) {
        Ok(()) => {
            let first = crew.started();
            let most = words.connections.unwrap_or(u64::MAX);
            let (seats, stopped) = accept_all(rt, alloc, listener, most, &mut service, crew);
            close(rt, alloc, service, seats, stopped, first, crew)
        }
        Err(end) => {
            let _ = end_all(rt, alloc, &service, crew);
            let ServiceContext { shared, .. } = service;
            nothing(alloc, end, store_of(shared))
        }
    }
}
