// The five fields of a cron text.
ghost use Rattle.std.specs.Prelude.{◌≡◌, MatchOption, IfOk, option_map};
ghost use Rattle.ow_schedule.specs.Cron.{five_of, cron_of, seen_fields};

use crate::due::Fields;
use crate::fields::{is_star, read_field};
use crate::text::cut;
use ow_value::NoMemory;
use std::alloc::Global;

#[derive(Clone, Copy)]
struct FieldTexts<'a> {
    minute: &'a str,
    hour: &'a str,
    day: &'a str,
    month: &'a str,
    weekday: &'a str,
}

// The five parts of a text that one space separates.
fn five_texts(text: &str) -> Option<FieldTexts<'_>>
    ensures { MatchOption result (five_of text.now ≡ None)
        (λ x. five_of text.now ≡ Some (record { minute = x.minute.now; hour = x.hour.now; day = x.day.now; month = x.month.now; weekday = x.weekday.now })) }
{
    let (minute, rest) = cut(text, ' ')?;
    let (hour, rest) = cut(rest, ' ')?;
    let (day, rest) = cut(rest, ' ')?;
    let (month, weekday) = cut(rest, ' ')?;
    Some(FieldTexts {
        minute,
        hour,
        day,
        month,
        weekday,
    })
}

/// The fields of a cron text; None where the text is none.
pub(crate) fn read_cron(alloc: Global, text: &str) -> Result<Option<Fields>, NoMemory>
    ensures { IfOk result (λ fields. option_map seen_fields fields ≡ cron_of text.now) }
{
    let Some(texts) = five_texts(text) else {
        return Ok(None);
    };
    let Some(minute) = read_field(alloc, texts.minute, 0, 59)? else {
        return Ok(None);
    };
    let Some(hour) = read_field(alloc, texts.hour, 0, 23)? else {
        return Ok(None);
    };
    let Some(day) = read_field(alloc, texts.day, 1, 31)? else {
        return Ok(None);
    };
    let Some(month) = read_field(alloc, texts.month, 1, 12)? else {
        return Ok(None);
    };
    let Some(weekday) = read_field(alloc, texts.weekday, 0, 7)? else {
        return Ok(None);
    };
    Ok(Some(Fields {
        minute,
        hour,
        day,
        month,
        weekday,
        any_day: is_star(texts.day.as_bytes()),
        any_weekday: is_star(texts.weekday.as_bytes()),
    }))
}
