// The next moment of a cron schedule. Days and hours that don't fit are skipped.
ghost use Rattle.std.specs.Prelude.{◌≡◌, ◌<◌, ◌≤◌, ◌*◌, ◌+◌, ◌%◌, pos, ℕ};
ghost use Rattle.jiff.specs.Words.{plain_zone};
ghost use Rattle.ow_schedule.specs.Due.{IsCronDue};
ghost use Rattle.ow_schedule.specs.Fields.{has};
ghost use Rattle.ow_schedule.specs.Next.{IsNext, NoneBelow};
ghost use Rattle.ow_schedule.specs.Skips.{Misses};

use crate::due::{Fields, LAST_CRON, fits_date, is_cron_due};
use crate::fields::is_in;
use crate::zone::offsets_of;
use jiff::Timestamp;
use jiff::civil::DateTime;
use jiff::tz::{Offset, TimeZone};

// In milliseconds.
const MINUTE: u64 = 60_000;

fn instant(at: u64) -> Timestamp
    requires { at < LAST_CRON }
    ensures { result.nanosecond ≡ pos (at * 1000000) }
{
    Timestamp::from_millisecond(at as i64).unwrap()
}

fn minute_of(shown: DateTime) -> u64
    ensures { result ≡ shown.time.minute }
{
    shown.minute() as u64
}

fn fits_hour(fields: &Fields, shown: DateTime) -> bool
    ensures { result ≡ has fields.now.hour.items shown.time.hour }
{
    is_in(&fields.hour, shown.hour() as u8)
}

fn minute_of_day(shown: DateTime) -> u64
    ensures { result ≡ shown.time.hour * 60 + shown.time.minute }
{
    shown.hour() as u64 * 60 + shown.minute() as u64
}

// For how many minutes from `at` on nothing fits at a UTC offset. 0: this minute may fit.
fn misses(fields: &Fields, offset: Offset, at: u64) -> u64
    requires { at < LAST_CRON }
    ensures misses { Misses fields.now offset.seconds at result }
    ensures bounded { result ≤ 1440 }
{
    let shown = offset.to_datetime(instant(at));
    if !fits_date(fields, shown) {
        return 1440 - minute_of_day(shown);
    }
    if !fits_hour(fields, shown) {
        return 60 - minute_of(shown);
    }
    0
}

// For how many minutes from `at` on nothing fits at any UTC offset of the zone. 0: this minute may fit.
fn missed(fields: &Fields, zone: &TimeZone<'_>, at: u64) -> u64
    requires minute { at % 60000 ≡ 0 }
    requires early { at < LAST_CRON }
    ensures free { (from : ℕ) → NoneBelow (IsCronDue fields.now (plain_zone zone.now) from) at (at + result * 60000) }
    ensures bounded { result ≤ 1440 }
{
    let Some(offsets) = offsets_of(zone) else {
        return 0;
    };
    let by_standard = misses(fields, offsets.standard, at);
    let by_daylight = misses(fields, offsets.daylight, at);
    by_standard.min(by_daylight)
}

// For how many minutes from `at` on the schedule is not due. 0: it is due at this minute.
fn free_from(fields: &Fields, zone: &TimeZone<'_>, from: u64, at: u64) -> u64
    requires minute { at % 60000 ≡ 0 }
    requires early { at < LAST_CRON }
    ensures free { NoneBelow (IsCronDue fields.now (plain_zone zone.now) from) at (at + result * 60000) }
    ensures due { result ≡ 0 → IsCronDue fields.now (plain_zone zone.now) from at }
    ensures bounded { result ≤ 1440 }
{
    let missed = missed(fields, zone, at);
    if missed > 0 {
        return missed;
    }
    if is_cron_due(fields, zone, from, at) {
        0
    } else {
        1
    }
}

/// The first moment from `since` to `until` at which a cron schedule is due.
pub(crate) fn next_of_cron(
    fields: &Fields,
    zone: &TimeZone<'_>,
    from: u64,
    since: u64,
    until: u64,
) -> Option<u64>
    ensures { IsNext (IsCronDue fields.now (plain_zone zone.now) from) since until result }
{
    let begin = since.max(from);
    if begin >= LAST_CRON {
        return None;
    }
    let mut at = (begin + (MINUTE - 1)) / MINUTE * MINUTE;
    'minutes: while at <= until && at < LAST_CRON {
        let free = free_from(fields, zone, from, at);
        if free == 0 {
            return Some(at);
        }
        at += free * MINUTE;
    }
    None
}
