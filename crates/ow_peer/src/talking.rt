// A connection, from the first byte of its peer to its end.
ghost use Rattle.std.specs.Prelude.{◌≡◌, ◌≤◌, [], Some, IfOk};
ghost use Rattle.ow_traits.specs.Streams.{Rose};
ghost use Rattle.ow_wire.specs.Arrivals.{Sends};
ghost use Rattle.ow_peer.specs.Talk.{Exchanges, GivesUp, RepliesWith, Serves, Talks, ending_of, refused};

use crate::asking::answer_of;
use crate::ending::Ending;
use ow_desk::{Desk, Receipts};
use ow_http::{Answer, HttpRefusal, Reason, Request, Routes, refusal};
use ow_links::Link;
use ow_threads::Clock;
use ow_traits::Keeper;
use ow_value::NoMemory;
use ow_wire::{Arrival, Inbox, Sent, send_reply};
use std::alloc::Global;
use std::sync::{Mutex, Wait};

// What a connection reads its peer's bytes with.
#[derive(Drop)]
struct Reader<'a> {
    routes: &'a Routes,
    inbox: Inbox,
}

/// Serves a peer: reads one request after the other, asks the hall, and writes each reply before the next request is read. The hall is
/// locked for one call at a time, and for none of the reading and writing.
pub fn connection<H: Wait, K: Link, P: Keeper + Drop, C: Clock>(
    rt: &H,
    alloc: Global,
    link: &mut K,
    desk: &Mutex<Desk<P>>,
    clock: &C,
    notes: &mut Receipts<P>,
) -> Ending
    ensures talks { Talks (C.tells clock.now) (K.left link.old) (K.left link.new)
        (K.taken link.old) (K.taken link.new) notes.old.notes notes.new.notes result }
    ensures faults_grow { K.faults link.old ≤ K.faults link.new }
    ensures unread { result ≡ Ending.ReadFault
        → Rose (K.faults link.old) (K.faults link.new) }
    ensures unwritten { result ≡ Ending.WriteFault
        → Rose (K.faults link.old) (K.faults link.new) }
{
    let Ok(routes) = Routes::new(alloc) else {
        return give_up(alloc, link);
    };
    connection_over(rt, alloc, &routes, link, desk, clock, notes)
}

/// Does what `connection` does, with routes that many connections share.
pub fn connection_over<H: Wait, K: Link, P: Keeper + Drop, C: Clock>(
    rt: &H,
    alloc: Global,
    routes: &Routes,
    link: &mut K,
    desk: &Mutex<Desk<P>>,
    clock: &C,
    notes: &mut Receipts<P>,
) -> Ending
    ensures talks { Talks (C.tells clock.now) (K.left link.old) (K.left link.new)
        (K.taken link.old) (K.taken link.new) notes.old.notes notes.new.notes result }
    ensures faults_grow { K.faults link.old ≤ K.faults link.new }
    ensures unread { result ≡ Ending.ReadFault
        → Rose (K.faults link.old) (K.faults link.new) }
    ensures unwritten { result ≡ Ending.WriteFault
        → Rose (K.faults link.old) (K.faults link.new) }
{
    let Ok(mut reader) = make_reader(alloc, routes) else {
        return give_up(alloc, link);
    };
    for _ in rt.forever() {
        if let Some(ending) = exchange(rt, alloc, &mut reader, link, desk, clock, notes) {
            return ending;
        }
    }
    Ending::NoMemory
}

fn make_reader(alloc: Global, routes: &Routes) -> Result<Reader<'_>, NoMemory>
    ensures { IfOk result (λ r. r.inbox ≡ []) }
{
    Ok(Reader {
        routes,
        inbox: Inbox::new(alloc)?,
    })
}

// One request and its reply, and how the connection ends where it does.
fn exchange<H: Wait, K: Link, P: Keeper + Drop, C: Clock>(
    rt: &H,
    alloc: Global,
    reader: &mut Reader<'_>,
    link: &mut K,
    desk: &Mutex<Desk<P>>,
    clock: &C,
    notes: &mut Receipts<P>,
) -> Option<Ending>
    ensures exchanged { Exchanges (C.tells clock.now) (K.left link.old) (K.left link.new) (K.taken link.old) (K.taken link.new) reader.old.inbox reader.new.inbox notes.old.notes notes.new.notes result }
    ensures faults_grow { K.faults link.old ≤ K.faults link.new }
    ensures unread { result ≡ Some Ending.ReadFault → Rose (K.faults link.old) (K.faults link.new) }
    ensures unwritten { result ≡ Some Ending.WriteFault → Rose (K.faults link.old) (K.faults link.new) }
{
    match reader.inbox.receive(alloc, reader.routes, link) {
        Arrival::Asked(request) => serve(rt, alloc, link, desk, clock, notes, &request),
        Arrival::Refused(e) => Some(ending_of(tell(alloc, link, e), Ending::Closed)),
        Arrival::CutShort => {
            let sent = tell(alloc, link, HttpRefusal::CutShort);
            Some(ending_of(sent, Ending::CutShort))
        }
        Arrival::Ended => Some(Ending::Ended),
        Arrival::Fault => Some(Ending::ReadFault),
        Arrival::NoMemory => Some(give_up(alloc, link)),
    }
}

// Asks the hall, and writes the reply.
fn serve<H: Wait, K: Link, P: Keeper + Drop, C: Clock>(
    rt: &H,
    alloc: Global,
    link: &mut K,
    desk: &Mutex<Desk<P>>,
    clock: &C,
    notes: &mut Receipts<P>,
    request: &Request,
) -> Option<Ending>
    ensures serves { Serves (C.tells clock.now) (K.taken link.old) (K.taken link.new) request.now notes.old.notes notes.new.notes result }
    ensures left { K.left link.new ≡ K.left link.old }
    ensures faults_grow { K.faults link.old ≤ K.faults link.new }
    ensures unwritten { result ≡ Some Ending.WriteFault → Rose (K.faults link.old) (K.faults link.new) }
{
    match answer_of(rt, alloc, desk, clock, notes, request) {
        Ok(answer) => reply(alloc, link, &answer, request.close),
        Err(_) => Some(give_up(alloc, link)),
    }
}

// Writes the reply. The connection goes on after it unless its end was requested.
fn reply<K: Link>(alloc: Global, link: &mut K, answer: &Answer, close: bool) -> Option<Ending>
    ensures replies { RepliesWith (K.taken link.old) (K.taken link.new) answer.now close result }
    ensures left { K.left link.new ≡ K.left link.old }
    ensures faults_grow { K.faults link.old ≤ K.faults link.new }
    ensures unwritten { result ≡ Some Ending.WriteFault → Rose (K.faults link.old) (K.faults link.new) }
{
    match send_reply(alloc, link, answer) {
        Sent::Whole => {
            if close {
                return Some(Ending::Closed);
            }
            None
        }
        Sent::Fault => Some(Ending::WriteFault),
        Sent::NoMemory => Some(give_up(alloc, link)),
    }
}

// Reports that memory ran out, where there is some for that.
fn give_up<K: Link>(alloc: Global, link: &mut K) -> Ending
    ensures gives_up { GivesUp (K.taken link.old) (K.taken link.new) result }
    ensures left { K.left link.new ≡ K.left link.old }
    ensures faults_grow { K.faults link.old ≤ K.faults link.new }
    ensures unwritten { result ≡ Ending.WriteFault → Rose (K.faults link.old) (K.faults link.new) }
{
    let sent = tell(alloc, link, HttpRefusal::NoMemory);
    ending_of(sent, Ending::NoMemory)
}

// Reports why bytes are no request, or that memory ran out.
fn tell<K: Link>(alloc: Global, link: &mut K, e: HttpRefusal) -> Sent
    ensures sent { Sends (K.taken link.old) (K.taken link.new) (refused e) result }
    ensures left { K.left link.new ≡ K.left link.old }
    ensures faults_grow { K.faults link.old ≤ K.faults link.new }
    ensures fault { result ≡ Sent.Fault → Rose (K.faults link.old) (K.faults link.new) }
{
    match refusal(alloc, &Reason::Http(e)) {
        Ok(answer) => send_reply(alloc, link, &answer),
        Err(_) => Sent::NoMemory,
    }
}

// How a connection ends after its last reply.
fn ending_of(sent: Sent, ending: Ending) -> Ending
    ensures { result ≡ ending_of sent ending }
{
    match sent {
        Sent::Whole => ending,
        Sent::Fault => Ending::WriteFault,
        Sent::NoMemory => Ending::NoMemory,
    }
}
