// What comes of a peer: its bytes, and the requests that they are read as.
ghost use Rattle.std.specs.Prelude.{◌≡◌, ◌≢◌, ◌≤◌, ◌<◌, [], drop, length, IfOk, IsTrue, Err};
ghost use Rattle.ow_traits.specs.Streams.{Rose};
ghost use Rattle.ow_http.specs.Read.{IsRead};
ghost use Rattle.ow_http.specs.declared.http_refusal.HttpRefusal.TheVariants.{CutShort};
ghost use Rattle.ow_wire.specs.Arrivals.{Fills, Receives, Splits, ended};

use crate::needing::{is_cut_head, needed};
use ow_http::{HttpRefusal, Read, Request, Routes};
use ow_links::Link;
use ow_value::NoMemory;
use std::alloc::Global;
use std::marker::Model;

/// The most bytes that are read at once.
const PIECE: usize = 16_384;

/// What came of a peer.
#[derive(Drop)]
pub enum Arrival {
    /// A request, read whole.
    Asked(Request),
    /// What came is no request, and not for being cut short.
    Refused(HttpRefusal),
    /// The peer's bytes ended inside a request.
    CutShort,
    /// The peer's bytes ended between requests.
    Ended,
    /// The link failed.
    Fault,
    /// No memory was left. What was read may be lost, so nothing more can be had of this peer.
    NoMemory,
}

/// What came of a peer and isn't made a request yet. A contract sees the bytes.
#[derive(Drop)]
pub struct Inbox {
    held: Vec<u8>,
    // Each piece is read into it.
    room: Vec<u8>,
    // With fewer bytes than this the request isn't whole, so nothing is read.
    needed: usize,
    // The last read found no whole head.
    in_head: bool,
}

impl Model for Inbox {
    ghost use Rattle.std.specs.Prelude.{◌≡◌, List, ℕ, length};
    ghost use Rattle.ow_wire.specs.Arrivals.{IsCutBelow};
    ghost use Rattle.ow_wire.specs.declared.inbox.TheConstants.{PIECE};

    ghost Value = { List ℕ };

    ghost view = { λ i. i.held.items };

    ghost invariant = { λ i. (length i.room.items ≡ PIECE) × IsCutBelow i.needed i.held.items };
}

// What a read found.
#[derive(Clone, Copy, Debug, PartialEq, Eq)]
enum Filled {
    More,
    End,
    Fault,
    NoMemory,
}

impl Inbox {
    /// Nothing came. Takes the memory for one piece.
    pub fn new(alloc: Global) -> Result<Inbox, NoMemory>
        ensures { IfOk result (λ i. i ≡ []) }
    {
        Ok(Inbox {
            held: Vec::new(alloc),
            room: vec![in alloc; 0u8; PIECE]?,
            needed: 0,
            in_head: false,
        })
    }

    /// Waits for the peer's next request, or for the end of its bytes. Requests that came together are given one after the other.
    pub fn receive<K: Link>(&mut self, alloc: Global, routes: &Routes, link: &mut K) -> Arrival
        ensures received { Receives (K.left link.old) (K.left link.new) self.old self.new result }
        ensures taken { K.taken link.new ≡ K.taken link.old }
        ensures faults_grow { K.faults link.old ≤ K.faults link.new }
        ensures fault { result ≡ Arrival.Fault → Rose (K.faults link.old) (K.faults link.new) }
    {
        for _ in 0..u64::MAX {
            match self.first(alloc, routes) {
                Ok(request) => return Arrival::Asked(request),
                Err(HttpRefusal::CutShort) => {}
                Err(HttpRefusal::NoMemory) => return Arrival::NoMemory,
                Err(refusal) => return Arrival::Refused(refusal),
            }
            match self.fill(link) {
                Filled::More => {}
                Filled::End => return self.ended(),
                Filled::Fault => return Arrival::Fault,
                Filled::NoMemory => return Arrival::NoMemory,
            }
        }
        Arrival::NoMemory
    }

    // The request that the held bytes begin with, which is removed from them.
    fn first(&mut self, alloc: Global, routes: &Routes) -> Result<Request, HttpRefusal>
        ensures { Splits self.old self.new result }
    {
        if self.is_cut() {
            return Err(HttpRefusal::CutShort);
        }
        match routes.read(alloc, &self.held) {
            Ok(Read { request, used }) => {
                self.needed = 0;
                self.in_head = false;
                take_off(&mut self.held, used);
                Ok(request)
            }
            Err(HttpRefusal::CutShort) => {
                if self.held.is_empty() {
                    return Err(HttpRefusal::CutShort);
                }
                self.needed = needed(&self.held);
                self.in_head = self.needed == 0;
                Err(HttpRefusal::CutShort)
            }
            Err(e) => Err(e),
        }
    }

    // Whether the bytes are known to be cut short, without a read that copies their headers.
    fn is_cut(&self) -> bool
        ensures { IsTrue result → IsRead self.now (Err CutShort) }
    {
        if self.held.len() < self.needed {
            return true;
        }
        self.in_head && is_cut_head(&self.held)
    }

    // Reads what comes next and appends it to what is held.
    fn fill<K: Link>(&mut self, link: &mut K) -> Filled
        ensures filled { Fills (K.left link.old) (K.left link.new) self.old self.new result }
        ensures taken { K.taken link.new ≡ K.taken link.old }
        ensures faults_grow { K.faults link.old ≤ K.faults link.new }
        ensures fault { result ≡ Filled.Fault → Rose (K.faults link.old) (K.faults link.new) }
    {
        match link.read(&mut self.room) {
            Ok(0) => Filled::End,
            Ok(n) => {
                if self.held.extend_from_slice(&self.room[..n]).is_err() {
                    return Filled::NoMemory;
                }
                Filled::More
            }
            Err(_) => Filled::Fault,
        }
    }

    // How the peer's bytes ended.
    fn ended(&self) -> Arrival
        ensures { result ≡ ended self.now }
    {
        if self.held.is_empty() {
            Arrival::Ended
        } else {
            Arrival::CutShort
        }
    }
}

// Removes the first bytes. To drain them goes over each one, and mostly they are all.
fn take_off(held: &mut Vec<u8>, used: usize)
    requires { used ≤ length held.old.items }
    ensures { held.new.items ≡ drop used held.old.items }
{
    if used == held.len() {
        held.clear();
    } else {
        held.drain(..used);
    }
}
