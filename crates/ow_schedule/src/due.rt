// When a schedule is due.
ghost use Rattle.std.specs.Prelude.{◌≡◌, ◌<◌, ◌↔◌, ◌≤◌, IsTrue};
ghost use Rattle.jiff.specs.Words.{plain_zone};
ghost use Rattle.ow_schedule.specs.Due.{Shows, is_in_weekdays, fits_day, fits_date, fits, IsCronDue, IsEveryDue, IsDue};

use crate::fields::is_in;
use crate::period::Period;
use crate::span::Span;
use jiff::Timestamp;
use jiff::civil::DateTime;
use jiff::tz::TimeZone;

/// From this moment on no cron schedule is due: 9999-12-30 00:00 in UTC, in milliseconds since 1970.
pub const LAST_CRON: u64 = 253_402_128_000_000;

/// The fields of a cron text.
#[derive(Drop)]
pub struct Fields {
    /// 0 to 59.
    pub minute: Vec<Span>,
    /// 0 to 23.
    pub hour: Vec<Span>,
    /// The day of the month, 1 to 31.
    pub day: Vec<Span>,
    /// 1 to 12.
    pub month: Vec<Span>,
    /// 0 to 7, where both 0 and 7 are Sunday.
    pub weekday: Vec<Span>,
    /// Whether the day is exactly `*`.
    pub any_day: bool,
    /// Whether the weekday is exactly `*`.
    pub any_weekday: bool,
}

/// When an alarm is due.
#[derive(Drop)]
pub enum Schedule {
    /// At one moment, in milliseconds since 1970.
    Once(u64),
    /// At equal distances.
    Every(Period),
    /// At the minutes whose civil time in a time zone fits, from a moment on.
    Cron {
        /// What the civil time must fit.
        fields: Fields,
        /// The time zone.
        zone: TimeZone<'static>,
        /// In milliseconds since 1970.
        from: u64,
    },
}

// The civil time in the zone at a moment.
fn civil_at(zone: &TimeZone<'_>, at: u64) -> DateTime
    requires { at < LAST_CRON }
    ensures { Shows (plain_zone zone.now) at result }
{
    let instant = Timestamp::from_millisecond(at as i64).unwrap();
    zone.to_datetime(instant)
}

fn is_in_weekdays(weekdays: &[Span], weekday: u8) -> bool
    ensures { result ≡ is_in_weekdays weekdays.now weekday }
{
    is_in(weekdays, weekday) || (weekday == 0 && is_in(weekdays, 7))
}

fn fits_day(fields: &Fields, day: u8, weekday: u8) -> bool
    ensures { result ≡ fits_day fields.now day weekday }
{
    let by_day = is_in(&fields.day, day);
    let by_weekday = is_in_weekdays(&fields.weekday, weekday);
    if fields.any_day || fields.any_weekday {
        by_day && by_weekday
    } else {
        by_day || by_weekday
    }
}

/// Whether the month and the day fit.
pub(crate) fn fits_date(fields: &Fields, shown: DateTime) -> bool
    ensures { result ≡ fits_date fields.now shown.date }
{
    let weekday = shown.weekday().to_sunday_zero_offset() as u8;
    is_in(&fields.month, shown.month() as u8) && fits_day(fields, shown.day() as u8, weekday)
}

// Whether the minute, the hour, the month and the day fit.
fn fits(fields: &Fields, shown: DateTime) -> bool
    ensures { result ≡ fits fields.now shown }
{
    is_in(&fields.minute, shown.minute() as u8)
        && is_in(&fields.hour, shown.hour() as u8)
        && fits_date(fields, shown)
}

/// Whether a cron schedule is due at the moment.
pub(crate) fn is_cron_due(fields: &Fields, zone: &TimeZone<'_>, from: u64, at: u64) -> bool
    ensures { IsTrue result ↔ IsCronDue fields.now (plain_zone zone.now) from at }
{
    if at % 60_000 == 0 && at < LAST_CRON && from <= at {
        fits(fields, civil_at(zone, at))
    } else {
        false
    }
}

fn is_every_due(period: Period, at: u64) -> bool
    ensures { IsTrue result ↔ IsEveryDue period.from period.every at }
{
    period.from <= at && (at - period.from) % period.every == 0
}

/// Whether the schedule is due at the moment, in milliseconds since 1970.
pub fn is_due(schedule: &Schedule, at: u64) -> bool
    ensures { IsTrue result ↔ IsDue schedule.now at }
{
    match schedule {
        Schedule::Once(moment) => *moment == at,
        Schedule::Every(period) => is_every_due(*period, at),
        Schedule::Cron { fields, zone, from } => is_cron_due(fields, zone, *from, at),
    }
}
