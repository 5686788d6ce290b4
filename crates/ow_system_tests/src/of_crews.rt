// Tasks that threads run.
ghost use Rattle.std.specs.Prelude.{◌≡◌, ◌*◌, ⊤};

use ow_links::{Accepted, Link, Listener};
use ow_system::{Always, Crew, RefusingLeave, SocketListener};
use ow_threads::{Begun, Task};
use ow_traits::Failed;
use std::alloc::Global;
use std::io::{Read, Write};
use std::net::{TcpListener, TcpStream};
use std::rt::Files;
use std::sync::{Arc, Barrier, Wait};
use std::test::Fail;
use std::time::Duration;
use std::{fs, io, thread};

// A task whose result is twice its number.
#[derive(Drop)]
struct Doubling {
    number: u32,
}

impl Task for Doubling {
    type Done = u64;

    ghost ends = { λ t done. done ≡ 2 * t.number };

    fn run(self) -> u64 {
        2 * u64::from(self.number)
    }
}

// What became of a task, and its result where the call ran it.
fn told<D: Drop>(begun: Begun<D>) -> (&'static str, Option<D>) {
    match begun {
        Begun::Started => ("started", None),
        Begun::Ran(done) => ("ran", Some(done)),
        Begun::Refused => ("refused", None),
    }
}

#[test]
fn threads_that_are_refused_are_counted(rt: HostRuntime) -> Result<(), Fail> {
    let alloc = rt.alloc();
    let mut crew = Crew::new(alloc, RefusingLeave::new([1, 2].to_vec(alloc)?));
    for (number, here, answer, faults) in [
        (10, true, ("started", None), 0),
        (11, false, ("refused", None), 1),
        (12, true, ("ran", Some(24)), 2),
        (13, false, ("started", None), 2),
    ] {
        let begun = crew.begin(&rt, Doubling { number }, here);
        assert_eq!(rt; (told(begun), crew.faults()), (answer, faults));
    }
    assert_eq!(rt; crew.join(&rt, alloc, 1)?.as_slice(), [26].as_slice());
    assert_eq!(rt; crew.join(&rt, alloc, 0)?.as_slice(), [20].as_slice());
    assert_eq!(rt; crew.join(&rt, alloc, 0)?.as_slice(), [].as_slice());
    Ok(())
}

// How many parts the memory of this process is mapped in. A thread has two until it is joined, a stack and a guard before it.
fn mapped_parts<R: Files + Alloc>(rt: &R) -> io::Result<usize> {
    Ok(fs::read_to_string(rt, "/proc/self/maps")?.lines().count())
}

#[test]
fn threads_that_have_ended_are_not_kept(rt: HostRuntime) -> Result<(), Fail> {
    let alloc = rt.alloc();
    let mut crew = Crew::new(alloc, Always::new());
    let mut wanted = Vec::new(alloc);
    let before = mapped_parts(&rt)?;
    for number in 0u32..2_000 {
        let begun = crew.begin(&rt, Doubling { number }, false);
        assert_eq!(rt; told(begun), ("started", None));
        wanted.push(2 * u64::from(number))?;
        if number % 50 == 0 {
            thread::sleep(&rt, Duration::from_millis(5));
        }
    }
    let more = mapped_parts(&rt)?.saturating_sub(before);
    assert!(rt; more < 1_000, "{more} parts more");
    assert_eq!(rt; crew.join(&rt, alloc, 0)?.as_slice(), wanted.as_slice());
    Ok(())
}

// A task whose result is its number, once as many tasks as the barrier is for have reached it.
#[derive(Drop)]
struct Meeting<R: Wait + Drop + Send + 'static> {
    rt: R,
    barrier: Arc<Barrier, Global>,
    number: u64,
}

impl<R: Wait + Drop + Send + 'static> Task for Meeting<R> {
    type Done = u64;

    ghost ends = { λ t done. done ≡ t.number };

    fn run(self) -> u64 {
        self.barrier.wait(&self.rt);
        self.number
    }
}

#[test]
fn tasks_run_side_by_side(rt: HostRuntime) -> Result<(), Fail> {
    let alloc = rt.alloc();
    let mut crew = Crew::new(alloc, Always::new());
    let barrier = Arc::new(alloc, Barrier::new(3))?;
    for number in [7, 8, 9] {
        let task = Meeting {
            rt: rt.clone()?,
            barrier: Arc::try_clone(&barrier)?,
            number,
        };
        assert_eq!(rt; told(crew.begin(&rt, task, false)), ("started", None));
    }
    assert_eq!(rt; crew.join(&rt, alloc, 0)?.as_slice(), [7, 8, 9].as_slice());
    assert_eq!(rt; crew.faults(), 0);
    Ok(())
}

// A task that sends back the first bytes of a peer. Its result is their number.
#[derive(Drop)]
struct Echo<K: Link + Drop + Send + 'static> {
    link: K,
}

impl<K: Link + Drop + Send + 'static> Task for Echo<K> {
    type Done = Result<usize, Failed>;

    ghost ends = { λ t done. ⊤ };

    fn run(self) -> Result<usize, Failed> {
        let mut link = self.link;
        let mut room = [0u8; 8];
        let n = link.read(&mut room)?;
        link.write(&room[..n])
    }
}

#[test]
fn threads_serve_the_peers_of_a_listener(rt: HostRuntime) -> Result<(), Fail> {
    let alloc = rt.alloc();
    let mut crew = Crew::new(alloc, Always::new());
    let bound = TcpListener::bind(&rt, "127.0.0.1:0")?;
    let at = bound.local_addr()?;
    let mut listener = SocketListener::new(Ok(bound), rt.clone()?);
    let mut peers = Vec::new(alloc);
    for _ in 0..3 {
        peers.push(TcpStream::connect(&rt, at)?)?;
        let Ok(Accepted::Peer(link)) = listener.accept() else {
            break;
        };
        crew.begin(&rt, Echo { link }, true);
    }
    let mut room = [0u8; 5];
    for peer in peers.iter_mut().rev() {
        peer.write_all(b"hello")?;
        peer.read_exact(&mut room)?;
        assert_eq!(rt; room, *b"hello");
    }
    assert_eq!(rt;
        crew.join(&rt, alloc, 0)?.as_slice(),
        [Ok(5), Ok(5), Ok(5)].as_slice()
    );
    Ok(())
}
