// The time zone of a POSIX rule, and its UTC offsets.
ghost use Rattle.std.specs.Prelude.{◌≡◌, Some, None, MatchOption, IfSome};
ghost use Rattle.jiff.specs.Words.{plain_zone, read_whole};
ghost use Rattle.ow_schedule.specs.Reading.{IsRule};
ghost use Rattle.ow_schedule.specs.Skips.{HasOffsets, daylight_offset};

use jiff::tz::{Offset, TimeZone};
use jiff_tz::posix;

/// The time zone of a POSIX rule's text; None where the text is no such rule.
pub(crate) fn read_zone(text: &str) -> Option<TimeZone<'static>>
    ensures { MatchOption result (read_whole text.now ≡ None) (λ zone. IsRule (read_whole text.now) (plain_zone zone)) }
{
    match TimeZone::posix(text) {
        Ok(zone) => Some(zone),
        Err(_) => None,
    }
}

/// The UTC offsets of a POSIX rule: that of standard time, and that of daylight saving time where the rule has it.
#[derive(Clone, Copy)]
pub(crate) struct Offsets {
    pub(crate) standard: Offset,
    pub(crate) daylight: Offset,
}

fn daylight_offset(rule: &posix::TimeZone) -> jiff_core::Offset
    ensures { result ≡ daylight_offset rule.now }
{
    match rule.dst {
        Some(dst) => dst.offset,
        None => rule.std_offset,
    }
}

/// The two offsets of a zone that is a POSIX rule.
pub(crate) fn offsets_of(zone: &TimeZone<'_>) -> Option<Offsets>
    ensures { IfSome result (λ x. HasOffsets (plain_zone zone.now) x.standard.seconds x.daylight.seconds) }
{
    match zone.to_plain() {
        jiff_tz::TimeZone::Posix(rule) => {
            Some(Offsets {
                standard: Offset::from_plain(rule.std_offset),
                daylight: Offset::from_plain(daylight_offset(&rule)),
            })
        }
        _ => None,
    }
}
