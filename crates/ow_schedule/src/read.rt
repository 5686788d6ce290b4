// Schedules, read from the value of an alarm.
ghost use Rattle.std.specs.Prelude.{◌≡◌, ◌≢◌, ◌≤◌, Ok, Err, Some, None, IfSome, MatchResult, MatchOption, option_map, option_and_then, codes};
ghost use Rattle.jiff.specs.Words.{plain_zone, read_whole};
ghost use Rattle.ow_value.specs.Find.{find};
ghost use Rattle.ow_value.specs.View.{view};
ghost use Rattle.ow_schedule.specs.Cron.{cron_of, seen_fields};
ghost use Rattle.ow_schedule.specs.Reading.{IsRule, said_by, natural_in, number_in, text_in, zone_text_in, once_in, every_in, cron_in, kind_in, of_kind, reading};

use crate::cron::read_cron;
use crate::due::{Fields, Schedule};
use crate::period::{GREATEST_MOMENT, LEAST_PERIOD, MOST_PERIOD, Period};
use crate::refusal::{AlarmRefusal, ScheduleField};
use crate::zone::read_zone;
use jiff::tz::TimeZone;
use ow_value::{Params, Val};
use std::alloc::Global;

// Which of its three members an object has.
enum Kind {
    Every,
    Once,
    Cron,
}

fn wrong(field: ScheduleField) -> AlarmRefusal
    ensures { result ≡ AlarmRefusal.BadSchedule field }
{
    AlarmRefusal::BadSchedule { field }
}

fn natural_at(members: &Params, name: &str) -> Option<u64>
    ensures { result ≡ natural_in (find name.now members.now) }
{
    match members.find(name) {
        Some(Val::Int(n)) => n.as_u64(),
        _ => None,
    }
}

// The number of the name, where it is one from `least` to `most`.
fn number_at(members: &Params, name: &str, least: u64, most: u64) -> Option<u64>
    ensures value { result ≡ number_in least most (find name.now members.now) }
    ensures range { IfSome result (λ n. (least ≤ n) × (n ≤ most)) }
{
    let n = natural_at(members, name)?;
    if least <= n && n <= most {
        Some(n)
    } else {
        None
    }
}

fn text_at<'a>(members: &'a Params, name: &str) -> Option<&'a str>
    ensures { option_map (λ t. t.now) result ≡ text_in (find name.now members.now) }
{
    match members.find(name) {
        Some(Val::Text(text)) => Some(text.as_str()),
        _ => None,
    }
}

fn zone_text_at(members: &Params) -> Option<&str>
    ensures { option_map (λ t. t.now) result ≡ zone_text_in (find (codes "zone") members.now) }
{
    match members.find("zone") {
        None => Some("UTC0"),
        Some(Val::Text(text)) => Some(text.as_str()),
        Some(_) => None,
    }
}

fn kind_of(members: &Params) -> Option<Kind>
    ensures { result ≡ kind_in members.now }
{
    let every = members.find("every").is_some();
    let once = members.find("once").is_some();
    let cron = members.find("cron").is_some();
    match (every, once, cron) {
        (true, false, false) => Some(Kind::Every),
        (false, true, false) => Some(Kind::Once),
        (false, false, true) => Some(Kind::Cron),
        _ => None,
    }
}

fn read_once(members: &Params) -> Result<Schedule, AlarmRefusal>
    ensures { MatchResult result (λ s. once_in members.now ≡ Ok (said_by s)) (λ e. once_in members.now ≡ Err e) }
{
    match number_at(members, "once", 0, GREATEST_MOMENT) {
        Some(moment) => Ok(Schedule::Once(moment)),
        None => Err(wrong(ScheduleField::Once)),
    }
}

fn read_every(members: &Params) -> Result<Schedule, AlarmRefusal>
    ensures { MatchResult result (λ s. every_in members.now ≡ Ok (said_by s)) (λ e. every_in members.now ≡ Err e) }
{
    let Some(every) = number_at(members, "every", LEAST_PERIOD, MOST_PERIOD) else {
        return Err(wrong(ScheduleField::Every));
    };
    let Some(from) = number_at(members, "from", 0, GREATEST_MOMENT) else {
        return Err(wrong(ScheduleField::From));
    };
    Ok(Schedule::Every(Period { from, every }))
}

fn fields_at(alloc: Global, members: &Params) -> Result<Fields, AlarmRefusal>
    ensures { MatchResult result (λ f. option_and_then cron_of (text_in (find (codes "cron") members.now)) ≡ Some (seen_fields f))
        (λ e. e ≢ AlarmRefusal.NoMemory → (option_and_then cron_of (text_in (find (codes "cron") members.now)) ≡ None) × (e ≡ AlarmRefusal.BadSchedule ScheduleField.Cron)) }
{
    let Some(text) = text_at(members, "cron") else {
        return Err(wrong(ScheduleField::Cron));
    };
    match read_cron(alloc, text)? {
        Some(fields) => Ok(fields),
        None => Err(wrong(ScheduleField::Cron)),
    }
}

fn zone_at(members: &Params) -> Option<TimeZone<'static>>
    ensures { MatchOption result (option_and_then read_whole (zone_text_in (find (codes "zone") members.now)) ≡ None)
        (λ zone. IsRule (option_and_then read_whole (zone_text_in (find (codes "zone") members.now))) (plain_zone zone)) }
{
    read_zone(zone_text_at(members)?)
}

fn read_cron_schedule(alloc: Global, members: &Params) -> Result<Schedule, AlarmRefusal>
    ensures { MatchResult result (λ s. cron_in members.now ≡ Ok (said_by s)) (λ e. e ≢ AlarmRefusal.NoMemory → cron_in members.now ≡ Err e) }
{
    let fields = fields_at(alloc, members)?;
    let Some(from) = number_at(members, "from", 0, GREATEST_MOMENT) else {
        return Err(wrong(ScheduleField::From));
    };
    let Some(zone) = zone_at(members) else {
        return Err(wrong(ScheduleField::Zone));
    };
    Ok(Schedule::Cron { fields, zone, from })
}

fn read_members(alloc: Global, members: &Params) -> Result<Schedule, AlarmRefusal>
    ensures { MatchResult result (λ s. of_kind members.now (kind_in members.now) ≡ Ok (said_by s))
        (λ e. e ≢ AlarmRefusal.NoMemory → of_kind members.now (kind_in members.now) ≡ Err e) }
{
    match kind_of(members) {
        Some(Kind::Every) => read_every(members),
        Some(Kind::Once) => read_once(members),
        Some(Kind::Cron) => read_cron_schedule(alloc, members),
        None => Err(wrong(ScheduleField::Alarm)),
    }
}

/// The schedule that the value of an alarm gives.
pub fn read_schedule(alloc: Global, v: &Val) -> Result<Schedule, AlarmRefusal>
    ensures { MatchResult result (λ s. reading (view v.now) ≡ Ok (said_by s)) (λ e. e ≢ AlarmRefusal.NoMemory → reading (view v.now) ≡ Err e) }
{
    match v {
        Val::Object(members) => read_members(alloc, members),
        _ => Err(wrong(ScheduleField::Alarm)),
    }
}
