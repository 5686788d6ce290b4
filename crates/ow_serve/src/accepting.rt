// Peers are accepted, and each is served in a thread of its own.
ghost use Rattle.std.specs.Prelude.{◌≡◌, ◌≤◌};
ghost use Rattle.ow_traits.specs.Streams.{Rose};
ghost use Rattle.ow_board.specs.Board.{view_of};
ghost use Rattle.ow_desk.specs.Notes.{no_notes};
ghost use Rattle.ow_serve.specs.Duties.{IsServed};
ghost use Rattle.ow_serve.specs.Peers.{AcceptsPeers, seat_of};
ghost use Rattle.ow_serve.specs.Working.{fresh_outset, outset};
ghost use Rattle.ow_serve.specs.declared.duty.Work.TheVariants.{Serves};

use crate::duty::{Done, Duty, Work};
use crate::service_context::ServiceContext;
use ow_links::{Accepted, Link, Listener};
use ow_system::{Crew, Leave};
use ow_threads::{Begun, Clock, Gate};
use ow_traits::{Keeper, Runner};
use ow_value::NoMemory;
use std::alloc::Global;
use std::sync::Wait;
use std::thread::Threads;

/// Why no more peers are accepted.
#[derive(Clone, Copy, Debug, PartialEq, Eq, Drop)]
pub(crate) enum Stopped {
    /// None will come any more, or as many came as were to be accepted.
    Closed,
    /// The listener failed.
    Fault,
    /// No memory was left for a peer.
    NoMemory,
}

/// Accepts peers until none comes any more, the listener fails, or `most` came. It gives a seat for each, in order. The seat has
/// the peer's result where the service served the peer itself, for want of a thread.
pub(crate) fn accept_all<
    H: Wait + Threads + Clone + Drop + Send + 'static,
    K: Link + Drop + Send + 'static,
    L: Listener<Peer = K>,
    R: Runner + Drop + Send + 'static,
    P: Keeper + Drop + Send + 'static,
    C: Clock + Drop + Send + Sync + 'static,
    G: Gate + Drop + Send + Sync + 'static,
    V: Leave + Drop,
>(
    rt: &H,
    alloc: Global,
    listener: &mut L,
    most: u64,
    service: &mut ServiceContext<P, R, C, G>,
    crew: &mut Crew<V, Duty<H, K, R, P, C, G>>,
) -> (Vec<Option<Done<R, P>>>, Stopped)
where
    R::Container: Send + 'static,
    ensures accepted { AcceptsPeers (λ t k. (t.work ≡ Serves k) × (t.notes.notes ≡ no_notes) × (outset (C.tells t.clock.value) t.opened (view_of t.pass) ≡ fresh_outset (C.tells service.old.clock.value) service.old.opened))
        (λ k d. IsServed K.left K.taken (C.tells service.old.clock.value) k d.notes.notes d.ending)
        (L.peers listener.old) (L.peers listener.new) crew.old.tasks crew.new.tasks most result.0.items result.1 }
    ensures notes { service.new.notes.notes ≡ service.old.notes.notes }
    ensures clock { (service.new.clock ≡ service.old.clock) × (service.new.opened ≡ service.old.opened) }
    ensures faults_grow { L.faults listener.old ≤ L.faults listener.new }
    ensures fault { result.1 ≡ Stopped.Fault → Rose (L.faults listener.old) (L.faults listener.new) }
{
    let mut seats = Vec::new(alloc);
    for _ in 0..most {
        if seats.reserve(1).is_err() {
            return (seats, Stopped::NoMemory);
        }
        let link = match listener.accept() {
            Ok(Accepted::Peer(link)) => link,
            Ok(Accepted::Closed) => return (seats, Stopped::Closed),
            Err(_) => return (seats, Stopped::Fault),
        };
        let Ok(duty) = service.duty(rt, alloc, Work::Serves { link }) else {
            return (seats, Stopped::NoMemory);
        };
        match seat_of(crew.begin(rt, duty, true)) {
            Some(seat) => seats.push_reserved(seat),
            None => return (seats, Stopped::NoMemory),
        }
    }
    (seats, Stopped::Closed)
}

// The seat of a peer whose task was begun. There is none where the task was dropped.
fn seat_of<D: Drop>(begun: Begun<D>) -> Option<Option<D>>
    ensures { result ≡ seat_of begun }
{
    match begun {
        Begun::Started => Some(None),
        Begun::Ran(done) => Some(Some(done)),
        Begun::Refused => None,
    }
}
