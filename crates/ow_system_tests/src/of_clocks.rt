// The system's clock and its bells.
use ow_system::{Bells, SystemClock};
use ow_threads::{Bell, Clock};
use std::sync::Arc;
use std::sync::atomic::{AtomicBool, Ordering};
use std::test::Fail;
use std::time::{Duration, Instant};
use std::{io, thread, time};

const YEAR_2020: u64 = 1_577_836_800_000;

// For how many milliseconds pauses wait that are to be ended by a ring, and a time that shows that they were.
const LONG: u64 = 10_000;

const SHORT: u64 = 5_000;

const BELLS: [Bell; 4] = [Bell::Work, Bell::End(7), Bell::End(u64::MAX), Bell::Close];

// How many milliseconds a pause of this many takes.
fn length_of_pause<R: time::Clock, C: Clock>(
    rt: &R,
    clock: &C,
    bell: Bell,
    ms: u64,
) -> io::Result<u64> {
    let start = Instant::now(rt)?;
    clock.pause(bell, ms);
    Ok(u64::try_from(start.elapsed(rt)?.as_millis()).unwrap_or(u64::MAX))
}

// A ring at which nobody waits, and the moment then.
fn moment_behind_a_ring<C: Clock>(clock: &C, bell: Bell) -> u64 {
    clock.ring(bell);
    clock.now()
}

#[test]
fn the_clock_tells_a_moment_of_our_time(rt: HostRuntime) -> Result<(), Fail> {
    let clock = SystemClock::new(rt.clone()?, Arc::new(rt.alloc(), Bells::new())?);
    for bell in BELLS {
        assert!(rt; moment_behind_a_ring(&clock, bell) > YEAR_2020);
    }
    Ok(())
}

#[test]
fn a_pause_ends_by_itself_or_for_a_ring_before_it(rt: HostRuntime) -> Result<(), Fail> {
    let clock = SystemClock::new(rt.clone()?, Arc::new(rt.alloc(), Bells::new())?);
    for bell in BELLS {
        clock.ring(Bell::End(8));
        let lasted = length_of_pause(&rt, &clock, bell, 10)?;
        assert!(rt;
            lasted >= 10 && lasted < SHORT,
            "a pause for no ring lasted {lasted} ms"
        );
        clock.ring(bell);
        let lasted = length_of_pause(&rt, &clock, bell, LONG)?;
        assert!(rt; lasted < SHORT, "a pause for a ring lasted {lasted} ms");
    }
    Ok(())
}

#[test]
fn a_ring_ends_the_pause_of_another_clock(rt: HostRuntime) -> Result<(), Fail> {
    let bells = Arc::new(rt.alloc(), Bells::new())?;
    let waiting = SystemClock::new(rt.clone()?, Arc::try_clone(&bells)?);
    let ringing = SystemClock::new(rt.clone()?, bells);
    for bell in BELLS {
        let (lasted, _) = thread::join(
            &rt,
            || length_of_pause(&rt, &waiting, bell, LONG),
            || {
                thread::sleep(&rt, Duration::from_millis(20));
                ringing.ring(bell);
            },
        );
        let lasted = lasted?;
        assert!(rt; lasted < SHORT, "a pause lasted {lasted} ms");
    }
    Ok(())
}

// Rings for the close until the other is done, for ten seconds at most.
fn close_until<R: time::Clock, C: Clock>(rt: &R, clock: &C, done: &AtomicBool) {
    for _ in 0..2_000 {
        if done.load(Ordering::SeqCst) {
            return;
        }
        clock.ring(Bell::Close);
        thread::sleep(rt, Duration::from_millis(5));
    }
}

#[test]
fn the_close_ends_a_pause_for_work(rt: HostRuntime) -> Result<(), Fail> {
    let bells = Arc::new(rt.alloc(), Bells::new())?;
    let waiting = SystemClock::new(rt.clone()?, Arc::try_clone(&bells)?);
    let ringing = SystemClock::new(rt.clone()?, bells);
    let done = AtomicBool::new(false);
    let (lasted, _) = thread::join(
        &rt,
        || {
            let lasted = length_of_pause(&rt, &waiting, Bell::Work, LONG);
            done.store(true, Ordering::SeqCst);
            lasted
        },
        || close_until(&rt, &ringing, &done),
    );
    let lasted = lasted?;
    assert!(rt; lasted < SHORT, "it lasted {lasted} ms");
    Ok(())
}
