// Links and listeners over sockets of the system.
use ow_links::{Accepted, Link, Listener};
use ow_system::{PEER_LIMIT, SocketLink, SocketListener};
use ow_traits::Failed;
use std::io;
use std::io::{Read, Write};
use std::net::{Net, TcpListener, TcpStream};
use std::test::Fail;

// A peer, and the link to it, whose calls wait for it for at most `limit` milliseconds.
fn peer_and_link<R: Net<Listener = TcpListener, Stream = TcpStream>>(
    rt: &R,
    limit: u64,
) -> io::Result<(TcpStream, SocketLink<TcpStream>)> {
    let bound = TcpListener::bind(rt, "127.0.0.1:0")?;
    let peer = TcpStream::connect(rt, bound.local_addr()?)?;
    let (stream, _) = bound.accept()?;
    Ok((peer, SocketLink::new(stream, limit)?))
}

#[test]
fn a_link_reads_what_the_peer_wrote_and_writes_what_it_reads(rt: HostRuntime) -> Result<(), Fail> {
    let (mut peer, mut link) = peer_and_link(&rt, PEER_LIMIT)?;
    let mut room = [0u8; 8];
    peer.write_all(b"ask")?;
    assert_eq!(rt; link.read(&mut room), Ok(3));
    assert_eq!(rt; &room[..3], b"ask".as_slice());
    assert_eq!(rt; link.write(b"answer"), Ok(6));
    peer.read_exact(&mut room[..6])?;
    assert_eq!(rt; &room[..6], b"answer".as_slice());
    assert_eq!(rt; (link.write(b""), link.read(&mut [])), (Ok(0), Ok(0)));
    assert_eq!(rt; link.faults(), 0);
    Ok(())
}

#[test]
fn a_peer_that_goes_away_ends_the_link(rt: HostRuntime) -> Result<(), Fail> {
    let (mut peer, mut link) = peer_and_link(&rt, PEER_LIMIT)?;
    let mut room = [0u8; 8];
    peer.write_all(b"x")?;
    drop(peer);
    assert_eq!(rt;
        (link.read(&mut room), link.read(&mut room)),
        (Ok(1), Ok(0))
    );
    assert_eq!(rt; link.faults(), 0);
    for _ in 0..100 {
        if link.write(b"gone").is_err() {
            break;
        }
    }
    assert_eq!(rt; link.faults(), 1);
    Ok(())
}

#[test]
fn a_peer_that_goes_away_without_reading_is_a_fault(rt: HostRuntime) -> Result<(), Fail> {
    let (peer, mut link) = peer_and_link(&rt, PEER_LIMIT)?;
    assert_eq!(rt; link.write(b"unread"), Ok(6));
    drop(peer);
    assert_eq!(rt; link.read(&mut [0u8; 8]), Err(Failed));
    assert_eq!(rt; link.faults(), 1);
    Ok(())
}

#[test]
fn a_peer_that_keeps_a_link_waiting_is_a_fault(rt: HostRuntime) -> Result<(), Fail> {
    let (mut peer, mut link) = peer_and_link(&rt, 20)?;
    let mut room = [0u8; 8];
    assert_eq!(rt; link.read(&mut room), Err(Failed));
    peer.write_all(b"late")?;
    assert_eq!(rt; link.read(&mut room), Ok(4));
    let piece = vec![in rt.alloc(); 0u8; 1 << 20]?;
    for _ in 0..64 {
        if link.write(&piece).is_err() {
            break;
        }
    }
    assert_eq!(rt; link.faults(), 2);
    Ok(())
}

#[test]
fn a_link_needs_a_limit(rt: HostRuntime) {
    assert!(rt; peer_and_link(&rt, 0).is_err());
}

// The first byte of the next peer, if there is one.
fn next<L: Listener>(listener: &mut L) -> Result<Option<u8>, Failed> {
    let Accepted::Peer(link) = listener.accept()? else {
        return Ok(None);
    };
    let mut link = link;
    let mut room = [0u8; 1];
    link.read(&mut room)?;
    Ok(Some(room[0]))
}

#[test]
fn peers_are_accepted_in_order(rt: HostRuntime) -> Result<(), Fail> {
    let bound = TcpListener::bind(&rt, "127.0.0.1:0")?;
    let at = bound.local_addr()?;
    let mut first = TcpStream::connect(&rt, at)?;
    let mut second = TcpStream::connect(&rt, at)?;
    second.write_all(b"2")?;
    first.write_all(b"1")?;
    let mut listener = SocketListener::new(Ok(bound), rt.clone()?);
    assert_eq!(rt; next(&mut listener), Ok(Some(b'1')));
    assert_eq!(rt; next(&mut listener), Ok(Some(b'2')));
    assert_eq!(rt; listener.faults(), 0);
    Ok(())
}
