// Peers in memory: what each of them sends, and what it receives, which can be read when its link is gone.
ghost use Rattle.std.specs.Prelude.{None};

use ow_links::{Accepted, Link, Listener};
use ow_traits::{Calls, Failed};
use std::alloc::Global;
use std::collections::VecDeque;
use std::sync::{Arc, Mutex, Wait};
use std::test::Fail;

/// Puts an action that greets, and then invokes it and waits for its greeting.
#[derive(Clone, Copy)]
pub(crate) struct Peer<'a> {
    pub(crate) action: &'a str,
    pub(crate) greeting: &'a str,
    /// Further lines in the head of the invocation.
    pub(crate) head: &'a str,
    /// What is sent after the invocation.
    pub(crate) rest: &'a str,
}

/// The bytes that a peer received.
pub(crate) type Heard = Arc<Mutex<Vec<u8>>, Global>;

/// The link of a peer. It reports no content.
#[derive(Drop)]
pub(crate) struct PeerLink<H: Wait + Drop + Send + 'static> {
    rt: H,
    sent: Vec<u8>,
    at: usize,
    heard: Heard,
    faults: u64,
}

/// Accepts peers, in order. The calls of `accept` fail whose numbers it was given; the first has the number 0.
#[derive(Drop)]
pub(crate) struct PeerListener<H: Wait + Drop + Send + 'static> {
    links: VecDeque<PeerLink<H>>,
    calls: Calls,
    /// What each peer received.
    pub(crate) heard: Vec<Heard>,
}

fn body_of(alloc: Global, greeting: &str) -> Result<String, Fail> {
    let before =
        r#"{"exec":{"kind":"plain:1","code":"{\"cases\":[{\"when\":{},\"give\":{\"greeting\":\""#;
    let behind = r#"\"}}]}"}}"#;
    Ok(format!(in alloc; "{before}{greeting}{behind}")?)
}

fn sent_by(alloc: Global, peer: Peer) -> Result<Vec<u8>, Fail> {
    let Peer {
        action,
        head,
        rest,
        ..
    } = peer;
    let body = body_of(alloc, peer.greeting)?;
    let length = body.len();
    let text = format!(in alloc;
        "PUT /api/v1/namespaces/_/actions/{action} HTTP/1.1\r\nX-Whisk-Key: k1\r\nContent-Length: {length}\r\n\r\n{body}POST /api/v1/namespaces/_/actions/{action}?blocking=true&result=true HTTP/1.1\r\nX-Whisk-Key: k1\r\n{head}\r\n{rest}"
    )?;
    Ok(text.into_bytes())
}

impl<H: Wait + Clone + Drop + Send + 'static> PeerListener<H> {
    /// A listener to which these peers are still to come.
    pub(crate) fn of(
        rt: &H,
        alloc: Global,
        peers: &[Peer],
        failing: &[u64],
    ) -> Result<PeerListener<H>, Fail> {
        let mut listener = PeerListener {
            links: VecDeque::new(alloc),
            calls: Calls::new(failing.to_vec(alloc)?),
            heard: Vec::new(alloc),
        };
        for peer in peers {
            listener.add(rt, alloc, *peer)?;
        }
        Ok(listener)
    }

    fn add(&mut self, rt: &H, alloc: Global, peer: Peer) -> Result<(), Fail> {
        let heard = Arc::new(alloc, Mutex::new(Vec::new(alloc)))?;
        self.heard.push(Arc::try_clone(&heard)?)?;
        self.links.push_back(PeerLink {
            rt: rt.clone()?,
            sent: sent_by(alloc, peer)?,
            at: 0,
            heard,
            faults: 0,
        })?;
        Ok(())
    }
}

impl<H: Wait + Drop + Send + 'static> Listener for PeerListener<H> {
    type Peer = PeerLink<H>;

    ghost peers = { λ s. None };

    ghost faults = { λ s. s.calls.faults };

    fn faults(&self) -> u64 {
        self.calls.faults
    }

    fn accept(&mut self) -> Result<Accepted<PeerLink<H>>, Failed> {
        if self.calls.fails_next() {
            return Err(Failed);
        }
        match self.links.pop_front() {
            Some(link) => Ok(Accepted::Peer(link)),
            None => Ok(Accepted::Closed),
        }
    }
}

// What the peer has sent after the first `at` bytes.
fn unread(sent: &[u8], at: usize) -> &[u8] {
    sent.get(at..).unwrap_or(&[])
}

impl<H: Wait + Drop + Send + 'static> Link for PeerLink<H> {
    ghost left = { λ s. None };

    ghost taken = { λ s. None };

    ghost faults = { λ s. s.faults };

    fn faults(&self) -> u64 {
        self.faults
    }

    fn read(&mut self, room: &mut [u8]) -> Result<usize, Failed> {
        let rest = unread(&self.sent, self.at);
        let n = rest.len().min(room.len());
        room[..n].copy_from_slice(&rest[..n]);
        self.at = self.at.saturating_add(n);
        Ok(n)
    }

    fn write(&mut self, piece: &[u8]) -> Result<usize, Failed> {
        if is_heard(&self.rt, &self.heard, piece) {
            return Ok(piece.len());
        }
        self.faults = self.faults.saturating_add(1);
        Err(Failed)
    }
}

// Whether there was memory for the bytes.
fn is_heard<H: Wait>(rt: &H, heard: &Mutex<Vec<u8>>, piece: &[u8]) -> bool {
    heard.lock(rt).extend_from_slice(piece).is_ok()
}

fn copied<H: Wait>(rt: &H, alloc: Global, heard: &Mutex<Vec<u8>>) -> Result<Vec<u8>, Fail> {
    Ok(heard.lock(rt).to_vec(alloc)?)
}

// A reply without what precedes its status. Its lines end in a line feed alone, and so does its body.
fn push_reply(text: &mut String, reply: &str) -> Result<(), Fail> {
    for line in reply.lines() {
        text.push_str(line)?;
        text.push('\n')?;
    }
    Ok(())
}

/// How many bytes the peer received, and the replies.
pub(crate) fn heard_text<H: Wait>(
    rt: &H,
    alloc: Global,
    heard: &Mutex<Vec<u8>>,
) -> Result<String, Fail> {
    let replies = String::from_utf8(copied(rt, alloc, heard)?).map_err(|_| "no text")?;
    let length = replies.len();
    let mut text = format!(in alloc; "{length} bytes\n")?;
    for reply in replies.split("HTTP/1.1 ").skip(1) {
        push_reply(&mut text, reply)?;
    }
    Ok(text)
}
