// What is a fault of a link or of a listener, and what is tried again.
use crate::fakes::{Failing, Interrupted};
use ow_links::{Accepted, Link, Listener};
use ow_system::{PEER_LIMIT, SocketLink, SocketListener};
use ow_traits::Failed;
use std::alloc::Global;
use std::net::TcpListener;
use std::test::Fail;
use std::time::Clock;

// Linux's numbers of errors: EINTR, ENONET, EPROTO, ENOPROTOOPT, ENETDOWN, ENETUNREACH, ECONNABORTED, ECONNRESET, ETIMEDOUT, EHOSTDOWN,
// EHOSTUNREACH.
const OF_CONNECTIONS: [i32; 11] = [4, 64, 71, 92, 100, 101, 103, 104, 110, 112, 113];

// ENOMEM, ENFILE, EMFILE, ENOBUFS.
const OF_WANT: [i32; 4] = [12, 23, 24, 105];

// EPERM, EBADF, EAGAIN, EACCES, EINVAL, ENOTSOCK, EOPNOTSUPP.
const OF_LISTENERS: [i32; 7] = [1, 9, 11, 13, 22, 88, 95];

// The result of an accept.
fn accepted<L: Listener>(listener: &mut L) -> Result<&'static str, Failed> {
    match listener.accept()? {
        Accepted::Peer(_) => Ok("peer"),
        Accepted::Closed => Ok("closed"),
    }
}

// The result of an accept, and the count of faults after it. The accepts of the socket first fail with these numbers, and then
// give a stream that refuses options.
fn accept_behind<R: Clock + Drop>(
    rt: R,
    alloc: Global,
    codes: &[i32],
) -> Result<(Result<&'static str, Failed>, u64), Fail> {
    let bound = Failing::new(codes.to_vec(alloc)?);
    let mut listener = SocketListener::new(Ok(bound), rt);
    let answer = accepted(&mut listener);
    Ok((answer, listener.faults()))
}

#[test]
fn only_a_fault_of_the_listener_ends_an_accept(rt: HostRuntime) -> Result<(), Fail> {
    let alloc = rt.alloc();
    for (codes, faults) in [
        ([].as_slice(), 1),
        (OF_CONNECTIONS.as_slice(), 12),
        (OF_WANT.as_slice(), 5),
    ] {
        assert_eq!(rt;
            accept_behind(rt.clone()?, alloc, codes)?,
            (Ok("peer"), faults)
        );
    }
    for code in OF_LISTENERS {
        assert_eq!(rt;
            accept_behind(rt.clone()?, alloc, &[104, code])?,
            (Err(Failed), 2),
            "at {code}"
        );
    }
    Ok(())
}

#[test]
fn a_listener_without_a_socket_fails(rt: HostRuntime) -> Result<(), Fail> {
    let taken = TcpListener::bind(&rt, "127.0.0.1:0")?;
    let refused = TcpListener::bind(&rt, taken.local_addr()?);
    let mut listener = SocketListener::new(refused, rt.clone()?);
    assert_eq!(rt; accepted(&mut listener), Err(Failed));
    assert_eq!(rt; accepted(&mut listener), Err(Failed));
    assert_eq!(rt; listener.faults(), 2);
    Ok(())
}

#[test]
fn calls_that_signals_interrupt_are_tried_again(rt: HostRuntime) -> Result<(), Fail> {
    let mut room = [0u8; 2];
    for (interrupts, answer, faults) in [
        (0, Ok(1), 0),
        (1, Ok(1), 0),
        (63, Ok(1), 0),
        (64, Err(Failed), 1),
    ] {
        let mut link = SocketLink::new(Interrupted::new(interrupts), PEER_LIMIT)?;
        assert_eq!(rt; link.read(&mut room), answer);
        assert_eq!(rt; link.faults(), faults);
        let mut link = SocketLink::new(Interrupted::new(interrupts), PEER_LIMIT)?;
        assert_eq!(rt; link.write(b"yes"), answer);
        assert_eq!(rt; link.faults(), faults);
    }
    Ok(())
}
