// Links and listeners in memory.
use ow_links::{Accepted, Link, Listener, MemoryLink, MemoryListener};
use ow_traits::Failed;
use std::alloc::Global;
use std::test::Fail;

// The result of a read, and what it read.
fn read<K: Link>(link: &mut K) -> Result<[u8; 2], Failed> {
    let mut room = [b'.'; 2];
    link.read(&mut room)?;
    Ok(room)
}

// A peer that sends three bytes, of whose calls some fail.
fn peer(alloc: Global, failing: &[u64]) -> Result<MemoryLink, Fail> {
    Ok(MemoryLink::new(alloc, b"abc".to_vec(alloc)?, failing.to_vec(alloc)?))
}

#[test]
fn reads_and_writes_are_counted_together(rt: HostRuntime) -> Result<(), Fail> {
    let alloc = rt.alloc();
    let mut link = peer(alloc, &[1, 3])?;
    assert_eq!(rt; read(&mut link), Ok([b'a', b'b']));
    assert_eq!(rt; link.write(b"no"), Err(Failed));
    assert_eq!(rt; link.write(b"yes"), Ok(3));
    assert_eq!(rt; read(&mut link), Err(Failed));
    assert_eq!(rt; link.unread(), b"c".as_slice());
    assert_eq!(rt; read(&mut link), Ok([b'c', b'.']));
    assert_eq!(rt; read(&mut link), Ok([b'.', b'.']));
    assert_eq!(rt; link.written(), b"yes".as_slice());
    assert_eq!(rt; link.faults(), 2);
    Ok(())
}

// The first byte of the next peer, if there is one.
fn next<L: Listener>(listener: &mut L) -> Result<Option<u8>, Failed> {
    match listener.accept()? {
        Accepted::Peer(link) => {
            let mut link = link;
            Ok(Some(read(&mut link)?[0]))
        }
        Accepted::Closed => Ok(None),
    }
}

#[test]
fn peers_come_in_order(rt: HostRuntime) -> Result<(), Fail> {
    let alloc = rt.alloc();
    let mut peers = Vec::new(alloc);
    for bytes in [b"x", b"y"] {
        peers.push(MemoryLink::new(alloc, bytes.to_vec(alloc)?, Vec::new(alloc)))?;
    }
    let mut listener = MemoryListener::new(peers, [1].to_vec(alloc)?);
    for answer in [
        Ok(Some(b'x')),
        Err(Failed),
        Ok(Some(b'y')),
        Ok(None),
        Ok(None),
    ] {
        assert_eq!(rt; next(&mut listener), answer);
    }
    assert_eq!(rt; listener.faults(), 1);
    Ok(())
}
