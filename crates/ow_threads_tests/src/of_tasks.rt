// Tasks that are begun, refused and joined.
ghost use Rattle.std.specs.Prelude.{◌≡◌, ◌*◌};

use ow_threads::{Begun, RefusingSpawner, Spawner, Task};
use std::alloc::Global;
use std::test::Fail;

// A task whose result is twice its number.
#[derive(Drop)]
struct Doubling {
    number: u32,
}

impl Task for Doubling {
    type Done = u64;

    ghost ends = { λ t done. done ≡ 2 * t.number };

    fn run(self) -> u64 {
        2 * u64::from(self.number)
    }
}

// What became of a task, and its result where the call ran it.
fn begun<S: Spawner<Doubling>>(
    spawner: &mut S,
    number: u32,
    here: bool,
) -> (&'static str, Option<u64>) {
    match spawner.begin(Doubling { number }, here) {
        Begun::Started => ("started", None),
        Begun::Ran(done) => ("ran", Some(done)),
        Begun::Refused => ("refused", None),
    }
}

// Whether a join gives exactly this.
fn gives<S: Spawner<Doubling>>(
    spawner: &mut S,
    alloc: Global,
    from: u64,
    expected: &[u64],
) -> Result<bool, Fail> {
    Ok(spawner.join(alloc, from)?.as_slice() == expected)
}

#[test]
fn calls_that_are_to_fail_get_no_thread(rt: HostRuntime) -> Result<(), Fail> {
    let alloc = rt.alloc();
    let mut spawner = RefusingSpawner::new(alloc, [1, 2].to_vec(alloc)?);
    for (number, here, answer, faults) in [
        (10, true, ("started", None), 0),
        (11, false, ("refused", None), 1),
        (12, true, ("ran", Some(24)), 2),
        (13, false, ("started", None), 2),
    ] {
        assert_eq!(rt;
            (begun(&mut spawner, number, here), spawner.faults()),
            (answer, faults)
        );
    }
    assert!(rt; gives(&mut spawner, alloc, 0, &[20, 26])?);
    assert!(rt; gives(&mut spawner, alloc, 0, &[])?);
    assert_eq!(rt; spawner.faults(), 2);
    Ok(())
}

#[test]
fn a_join_leaves_what_stands_before_its_number(rt: HostRuntime) -> Result<(), Fail> {
    let alloc = rt.alloc();
    let mut spawner = RefusingSpawner::new(alloc, Vec::new(alloc));
    for number in [1, 2, 3] {
        assert_eq!(rt; begun(&mut spawner, number, false), ("started", None));
    }
    assert!(rt; gives(&mut spawner, alloc, 3, &[])?);
    assert!(rt; gives(&mut spawner, alloc, 1, &[4, 6])?);
    assert_eq!(rt; begun(&mut spawner, 4, false), ("started", None));
    assert!(rt; gives(&mut spawner, alloc, 0, &[2, 8])?);
    assert!(rt; gives(&mut spawner, alloc, 0, &[])?);
    Ok(())
}
