// The next moment at which a schedule is due.
ghost use Rattle.std.specs.Prelude.{◌≡◌, ◌+◌};
ghost use Rattle.ow_schedule.specs.Due.{IsEveryDue, IsDue};
ghost use Rattle.ow_schedule.specs.Next.{IsNext, NoneBelow};

use crate::due::Schedule;
use crate::period::Period;
use crate::skip::next_of_cron;

fn within(moment: u64, since: u64, until: u64) -> Option<u64>
    ensures { IsNext (λ at. at ≡ moment) since until result }
{
    if since <= moment && moment <= until {
        Some(moment)
    } else {
        None
    }
}

// From `since` to the first moment of the period that is not before it.
fn wait_of(period: Period, since: u64) -> u64
    ensures due { IsEveryDue period.from period.every (since + result) }
    ensures none_before { NoneBelow (IsEveryDue period.from period.every) since (since + result) }
{
    if since <= period.from {
        return period.from - since;
    }
    period.every - 1 - (since - period.from - 1) % period.every
}

fn next_of_period(period: Period, since: u64, until: u64) -> Option<u64>
    ensures { IsNext (IsEveryDue period.from period.every) since until result }
{
    if since > until {
        return None;
    }
    let wait = wait_of(period, since);
    if wait <= until - since {
        Some(since + wait)
    } else {
        None
    }
}

/// The first moment from `since` to `until`, both included, at which the schedule is due. All are milliseconds since 1970.
pub fn next_due(schedule: &Schedule, since: u64, until: u64) -> Option<u64>
    ensures { IsNext (IsDue schedule.now) since until result }
{
    match schedule {
        Schedule::Once(moment) => within(*moment, since, until),
        Schedule::Every(period) => next_of_period(*period, since, until),
        Schedule::Cron { fields, zone, from } => next_of_cron(fields, zone, *from, since, until),
    }
}
