// Days of the calendar, as words name them.
ghost use Rattle.std.specs.Prelude.{◌≡◌, ◌≤◌, length, unsigned_abs, true};
ghost use Rattle.jiff.specs.Words.{epoch_day};
ghost use Rattle.ow_command_line.specs.Days.{counted_day, day_in, day_numbered, has_form, is_digit, two};

use jiff::civil::Date;

/// The last day of the calendar, 9999-12-31, counted from 1970-01-01.
const LAST_DAY: u32 = 2_932_896;

/// The number of the day that the text names as YYYY-MM-DD, counted from 1970-01-01, which is the first, up to 9999-12-31.
pub(crate) fn day_in(text: &[u8]) -> Option<u32>
    ensures { result ≡ day_in text.now }
{
    if text.len() == 10 && has_form(text) {
        let year = u16::from(two(text[0], text[1])) * 100 + u16::from(two(text[2], text[3]));
        day_numbered(year, two(text[5], text[6]), two(text[8], text[9]))
    } else {
        None
    }
}

// Ten bytes, YYYY-MM-DD.
fn has_form(text: &[u8]) -> bool
    requires { length text.now ≡ 10 }
    ensures { result ≡ has_form text.now }
{
    is_digit(text[0])
        && is_digit(text[1])
        && is_digit(text[2])
        && is_digit(text[3])
        && text[4] == b'-'
        && is_digit(text[5])
        && is_digit(text[6])
        && text[7] == b'-'
        && is_digit(text[8])
        && is_digit(text[9])
}

fn is_digit(byte: u8) -> bool
    ensures { result ≡ is_digit byte }
{
    48 <= byte && byte <= 57
}

// The number of two digits.
fn two(a: u8, b: u8) -> u8
    requires first { is_digit a ≡ true }
    requires second { is_digit b ≡ true }
    ensures value { result ≡ two a b }
    ensures range { result ≤ 99 }
{
    (a - 48) * 10 + (b - 48)
}

// The number of a date.
fn day_numbered(year: u16, month: u8, day: u8) -> Option<u32>
    requires year { year ≤ 9999 }
    requires month { month ≤ 99 }
    requires day { day ≤ 99 }
    ensures { result ≡ day_numbered year month day }
{
    if year < 1970 {
        return None;
    }
    match Date::new(year as i16, month as i8, day as i8) {
        Ok(date) => counted_day(date),
        Err(_) => None,
    }
}

// The number of its day.
fn counted_day(date: Date) -> Option<u32>
    ensures { result ≡ counted_day (unsigned_abs (epoch_day date)) }
{
    let n = date.to_plain().to_unix_epoch_day().unsigned_abs();
    if n <= LAST_DAY { Some(n) } else { None }
}
