// What is pending at a moment.
use crate::reading::read;
use ow_schedule::{Schedule, is_due, next_due, next_pending};
use std::test::Fail;

fn every_minute(rt: &HostRuntime) -> Result<Schedule, Fail> {
    match read(rt.alloc(), r#"{"every":60000,"from":0}"#)? {
        Ok(schedule) => Ok(schedule),
        Err(_) => Err("no schedule")?,
    }
}

#[test]
fn what_was_noted_is_not_pending(rt: HostRuntime) -> Result<(), Fail> {
    let schedule = every_minute(&rt)?;
    assert_eq!(rt; next_pending(&schedule, None, 120_000), Some(0));
    assert_eq!(rt; next_pending(&schedule, Some(0), 120_000), Some(60_000));
    assert_eq!(rt;
        next_pending(&schedule, Some(60_000), 120_000),
        Some(120_000)
    );
    assert_eq!(rt; next_pending(&schedule, Some(120_000), 120_000), None);
    assert_eq!(rt;
        next_pending(&schedule, Some(120_000), 180_000),
        Some(180_000)
    );
    assert_eq!(rt; next_pending(&schedule, Some(u64::MAX), u64::MAX), None);
    Ok(())
}

#[test]
fn nothing_is_pending_from_more_than_a_week_ago(rt: HostRuntime) -> Result<(), Fail> {
    let schedule = every_minute(&rt)?;
    assert_eq!(rt; next_pending(&schedule, None, 604_800_000), Some(0));
    assert_eq!(rt; next_pending(&schedule, None, 604_800_001), Some(60_000));
    assert_eq!(rt;
        next_pending(&schedule, Some(0), 700_000_000),
        Some(95_220_000)
    );
    Ok(())
}

#[test]
fn the_next_due_moment_is_due(rt: HostRuntime) -> Result<(), Fail> {
    let schedule = every_minute(&rt)?;
    assert_eq!(rt; next_due(&schedule, 1, 60_000), Some(60_000));
    assert_eq!(rt; next_due(&schedule, 60_001, 119_999), None);
    assert_eq!(rt; next_due(&schedule, 2, 1), None);
    assert!(rt; is_due(&schedule, 60_000));
    assert!(rt; !is_due(&schedule, 60_001));
    Ok(())
}
