// The moments of a week that are due, and those that are still pending.
ghost use Rattle.std.specs.Prelude.{◌≡◌, ◌+◌, IfOk};
ghost use Rattle.ow_schedule.specs.Due.{IsDue};
ghost use Rattle.ow_schedule.specs.Next.{IsNext, AreAll};
ghost use Rattle.ow_schedule.specs.Window.{earliest};

use crate::due::Schedule;
use crate::next::next_due;
use ow_value::NoMemory;
use std::alloc::Global;

/// How far back from a moment a schedule is still due, in milliseconds: seven days.
pub const WEEK: u64 = 604_800_000;

// The first moment after another one at which the schedule is due.
fn next_after(schedule: &Schedule, moment: u64, until: u64) -> Option<u64>
    ensures { IsNext (IsDue schedule.now) (moment + 1) until result }
{
    if moment < until {
        next_due(schedule, moment + 1, until)
    } else {
        None
    }
}

/// The first pending moment at the moment `at`: it is due, at most `WEEK` before `at`, and after the moment that was noted last.
pub fn next_pending(schedule: &Schedule, noted: Option<u64>, at: u64) -> Option<u64>
    ensures { IsNext (IsDue schedule.now) (earliest noted at) at result }
{
    let oldest = at.saturating_sub(WEEK);
    match noted {
        None => next_due(schedule, oldest, at),
        Some(noted) => {
            if noted < oldest {
                next_due(schedule, oldest, at)
            } else {
                next_after(schedule, noted, at)
            }
        }
    }
}

/// All moments from `since` to `until`, both included, at which the schedule is due, in order.
pub fn due_moments(
    alloc: Global,
    schedule: &Schedule,
    since: u64,
    until: u64,
) -> Result<Vec<u64>, NoMemory>
    ensures { IfOk result (λ moments. AreAll (IsDue schedule.now) since until moments.items) }
{
    let mut moments = Vec::new(alloc);
    let mut next = next_due(schedule, since, until);
    'moments: while let Some(moment) = next {
        moments.push(moment)?;
        next = next_after(schedule, moment, until);
    }
    Ok(moments)
}
