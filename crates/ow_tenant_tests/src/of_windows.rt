// The counts that limits are of.
use ow_names::{EntityName, read_name};
use ow_tenant::{NamespaceLimits, WindowRefusal, Windows};
use std::alloc::Global;
use std::test::Fail;

fn name(alloc: Global, text: &str) -> Result<Box<EntityName>, Fail> {
    match Box::new(alloc, read_name(alloc, text.as_bytes())?) {
        Ok(held) => Ok(held),
        Err(_) => Err("no memory")?,
    }
}

// Notes that many invocations at the moment.
fn note_many(
    alloc: Global,
    windows: &mut Windows,
    namespace: &EntityName,
    count: u32,
    at: u64,
) -> Result<(), Fail> {
    for _ in 0..count {
        windows.reserve(alloc, namespace)?;
        windows.note(namespace, at);
    }
    Ok(())
}

#[test]
fn a_minute_slides(rt: HostRuntime) -> Result<(), Fail> {
    let alloc = rt.alloc();
    let guest = name(alloc, "guest")?;
    let other = name(alloc, "other")?;
    let limits = NamespaceLimits {
        per_minute: 120,
        concurrent: 1000,
        fires: 60,
    };
    let mut windows = Windows::new(alloc)?;
    note_many(alloc, &mut windows, &guest, 119, 0)?;
    assert_eq!(rt; windows.admit(&guest, &limits, 0), Ok(()));
    note_many(alloc, &mut windows, &guest, 1, 0)?;
    let full = Err(WindowRefusal::MinuteLimit {
        count: 120,
        allowed: 120,
    });
    assert_eq!(rt; windows.admit(&guest, &limits, 59_999), full);
    assert_eq!(rt; windows.admit(&guest, &limits, 60_000), Ok(()));
    assert_eq!(rt; windows.admit(&other, &limits, 59_999), Ok(()));
    note_many(alloc, &mut windows, &guest, 119, 60_000)?;
    assert_eq!(rt; windows.admit(&guest, &limits, 60_001), Ok(()));
    note_many(alloc, &mut windows, &guest, 1, 60_001)?;
    assert_eq!(rt; windows.admit(&guest, &limits, 119_999), full);
    assert_eq!(rt; windows.admit(&guest, &limits, 120_000), Ok(()));
    Ok(())
}

#[test]
fn what_has_not_ended_is_counted(rt: HostRuntime) -> Result<(), Fail> {
    let alloc = rt.alloc();
    let guest = name(alloc, "guest")?;
    let limits = NamespaceLimits {
        per_minute: 3,
        concurrent: 2,
        fires: 1,
    };
    let mut windows = Windows::new(alloc)?;
    windows.reserve_many(alloc, &guest, 3)?;
    windows.note(&guest, 5);
    assert_eq!(rt; windows.admit(&guest, &limits, 5), Ok(()));
    windows.reserve(alloc, &guest)?;
    windows.note(&guest, 5);
    let over = Err(WindowRefusal::ConcurrentLimit {
        count: 2,
        allowed: 2,
    });
    assert_eq!(rt; windows.admit(&guest, &limits, 100_000), over);
    windows.ended(&guest);
    assert_eq!(rt; windows.admit(&guest, &limits, 6), Ok(()));
    windows.reserve(alloc, &guest)?;
    windows.note(&guest, 6);
    let many = Err(WindowRefusal::MinuteLimit {
        count: 3,
        allowed: 3,
    });
    assert_eq!(rt; windows.admit(&guest, &limits, 6), many);
    Ok(())
}

#[test]
fn fires_are_counted_by_themselves(rt: HostRuntime) -> Result<(), Fail> {
    let alloc = rt.alloc();
    let guest = name(alloc, "guest")?;
    let limits = NamespaceLimits {
        per_minute: 1,
        concurrent: 1,
        fires: 1,
    };
    let mut windows = Windows::new(alloc)?;
    windows.reserve(alloc, &guest)?;
    windows.note_fire(&guest, 10);
    assert_eq!(rt; windows.admit(&guest, &limits, 10), Ok(()));
    let full = Err(WindowRefusal::FireLimit {
        count: 1,
        allowed: 1,
    });
    assert_eq!(rt; windows.admit_fire(&guest, &limits, 60_009), full);
    assert_eq!(rt; windows.admit_fire(&guest, &limits, 60_010), Ok(()));
    Ok(())
}

#[test]
fn the_numbers_of_the_limits(rt: HostRuntime) {
    let count = 1;
    let allowed = 1;
    assert_eq!(rt; WindowRefusal::MinuteLimit { count, allowed }.number(), 25);
    assert_eq!(rt;
        WindowRefusal::ConcurrentLimit { count, allowed }.number(),
        26
    );
    assert_eq!(rt; WindowRefusal::FireLimit { count, allowed }.number(), 27);
}
