// Replies onto a link.
ghost use Rattle.std.specs.Prelude.{◌≡◌, ◌≤◌, OnOk, OnErr};
ghost use Rattle.ow_traits.specs.Streams.{HasCause, Rose, Takes, TakesFront};
ghost use Rattle.ow_wire.specs.Arrivals.{Sends};

use ow_http::{Answer, write_reply};
use ow_links::Link;
use ow_traits::Failed;
use std::alloc::Global;

/// What became of a reply.
#[derive(Clone, Copy, Debug, PartialEq, Eq)]
pub enum Sent {
    /// The link took it.
    Whole,
    /// The link failed, and took a prefix of it.
    Fault,
    /// No memory was left to write it. The link took nothing.
    NoMemory,
}

/// Writes an answer to the peer.
pub fn send_reply<K: Link>(alloc: Global, link: &mut K, answer: &Answer) -> Sent
    ensures sent { Sends (K.taken link.old) (K.taken link.new) answer.now result }
    ensures left { K.left link.new ≡ K.left link.old }
    ensures faults_grow { K.faults link.old ≤ K.faults link.new }
    ensures fault { result ≡ Sent.Fault → Rose (K.faults link.old) (K.faults link.new) }
{
    let Ok(reply) = write_reply(alloc, answer) else {
        return Sent::NoMemory;
    };
    match write_all(link, &reply) {
        Ok(()) => Sent::Whole,
        Err(_) => Sent::Fault,
    }
}

// Writes all the bytes. After a fault the link took some of them, in order from the first.
fn write_all<K: Link>(link: &mut K, bytes: &[u8]) -> Result<(), Failed>
    ensures ok { OnOk result (Takes (K.taken link.old) (K.taken link.new) bytes.now) }
    ensures err { OnErr result (TakesFront (K.taken link.old) (K.taken link.new) bytes.now) }
    ensures left { K.left link.new ≡ K.left link.old }
    ensures cause { HasCause (K.faults link.old) (K.faults link.new) result }
{
    let mut rest = bytes;
    while !rest.is_empty() {
        let n = link.write(rest)?;
        if n == 0 {
            return Err(Failed);
        }
        let (_, after) = rest.split_at(n);
        rest = after;
    }
    Ok(())
}
