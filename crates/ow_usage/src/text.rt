// The text that shows cells: lines, or rows of comma-separated values.
ghost use Rattle.std.specs.Prelude.{◌≡◌, ◌++◌, ◌∷◌, [], ◌≤◌, ◌<◌, ◌^◌, IfOk, OnOk, map, string_bytes, pos, true, false, ℕ, List};
ghost use Rattle.std.specs.Fmt.{decimal};
ghost use Rattle.csv.specs.Writing.{default_writer, row_text};
ghost use Rattle.jiff.specs.Words.{epoch_day};
ghost use Rattle.ow_usage.specs.Text.{IsDayText, IsUsageText, cell_line, cell_row, escape_byte, escaped, head_row, is_plain, totals_text};

use crate::usage::LAST_DAY;
use crate::{Totals, Usage};
use csv::{Error, WriterBuilder};
use jiff::civil::Date;
use ow_value::{NoMemory, Str};
use percent_encoding::percent_encode_byte;
use std::alloc::Global;

/// The text that shows the cells: a line for each and one for the totals, or, as comma-separated values, a row of column names and
/// a row for each.
pub fn usage_text(alloc: Global, cells: &Usage, csv: bool) -> Result<Vec<u8>, NoMemory>
    ensures { IfOk result (λ text. IsUsageText csv cells.now text.items) }
{
    if csv {
        rows_of(alloc, cells)
    } else {
        lines_of(alloc, cells)
    }
}

fn lines_of(alloc: Global, cells: &Usage) -> Result<Vec<u8>, NoMemory>
    ensures { IfOk result (λ text. IsUsageText false cells.now text.items) }
{
    let mut out = Vec::new(alloc);
    for (place, totals) in cells.map() {
        put_line(alloc, &mut out, place, totals)?;
    }
    put(&mut out, b"total")?;
    put_totals(alloc, &mut out, &cells.total())?;
    Ok(out)
}

fn rows_of(alloc: Global, cells: &Usage) -> Result<Vec<u8>, NoMemory>
    ensures { IfOk result (λ text. IsUsageText true cells.now text.items) }
{
    let mut out = head(alloc)?;
    for (place, totals) in cells.map() {
        put_row(alloc, &mut out, place, totals)?;
    }
    Ok(out)
}

// A cell as a line.
fn put_line(
    alloc: Global,
    out: &mut Vec<u8>,
    place: &(u32, Str),
    totals: &Totals,
) -> Result<(), NoMemory>
    requires { place.now.0 ≤ LAST_DAY }
    ensures { OnOk result ((day : List ℕ) × IsDayText place.now.0 day × (out.new.items ≡ out.old.items ++ cell_line day (place.now, totals.now))) }
{
    let day = day_text(alloc, place.0)?;
    put(out, day.as_bytes())?;
    put(out, b" ")?;
    put_escaped(out, place.1.as_str().as_bytes())?;
    put_totals(alloc, out, totals)?;
    Ok(())
}

// A cell as a row of comma-separated values.
fn put_row(
    alloc: Global,
    out: &mut Vec<u8>,
    place: &(u32, Str),
    totals: &Totals,
) -> Result<(), NoMemory>
    requires { place.now.0 ≤ LAST_DAY }
    ensures { OnOk result ((day : List ℕ) × IsDayText place.now.0 day × (out.new.items ≡ out.old.items ++ cell_row day (place.now, totals.now))) }
{
    let day = day_text(alloc, place.0)?;
    let row = cell_row(alloc, day.as_bytes(), &place.1, totals)?;
    put(out, row.as_slice())?;
    Ok(())
}

fn cell_row(
    alloc: Global,
    day: &[u8],
    namespace: &Str,
    totals: &Totals,
) -> Result<Vec<u8>, NoMemory>
    ensures { IfOk result (λ v. v.items ≡ row_text default_writer (day.now ∷ namespace.now ∷ decimal totals.now.activations ∷ decimal totals.now.failed ∷ decimal totals.now.ms ∷ decimal totals.now.mbms ∷ [])) }
{
    let activations = totals.activations.to_string(alloc)?;
    let failed = totals.failed.to_string(alloc)?;
    let ms = totals.ms.to_string(alloc)?;
    let mbms = totals.mbms.to_string(alloc)?;
    written_row(
        alloc,
        &[
            day,
            namespace.as_str().as_bytes(),
            activations.as_bytes(),
            failed.as_bytes(),
            ms.as_bytes(),
            mbms.as_bytes(),
        ],
    )
}

#[tactic(auto, unfolding(crate::specs::Text::head_row))]
fn head(alloc: Global) -> Result<Vec<u8>, NoMemory>
    ensures { IfOk result (λ v. v.items ≡ head_row) }
{
    written_row(
        alloc,
        &[
            b"day",
            b"namespace",
            b"activations",
            b"failed",
            b"ms",
            b"mbms",
        ],
    )
}

// The text of one row.
fn written_row(alloc: Global, fields: &[&[u8]]) -> Result<Vec<u8>, NoMemory>
    ensures { IfOk result (λ v. v.items ≡ row_text default_writer (map (λ f. f.now) fields.now)) }
{
    match row_bytes(alloc, fields) {
        Ok(text) => Ok(text),
        Err(_) => Err(NoMemory),
    }
}

fn row_bytes(alloc: Global, fields: &[&[u8]]) -> Result<Vec<u8>, Error>
    ensures { IfOk result (λ v. v.items ≡ row_text default_writer (map (λ f. f.now) fields.now)) }
{
    let mut writer = WriterBuilder::new().from_writer(Vec::new(alloc));
    writer.write_fields(fields)?;
    match writer.into_inner() {
        Ok(text) => Ok(text),
        Err(e) => Err(e.into_error()),
    }
}

// The day, as 2026-12-01.
fn day_text(alloc: Global, day: u32) -> Result<String, NoMemory>
    requires { day ≤ LAST_DAY }
    ensures { IfOk result (λ s. IsDayText day (string_bytes s)) }
{
    let date = date_of(day);
    Ok(format!(in alloc; "{date}")?)
}

fn date_of(day: u32) -> Date
    requires { day ≤ LAST_DAY }
    ensures { epoch_day result ≡ pos day }
{
    Date::from_plain(jiff_core::civil::Date::from_unix_epoch_day(i64::from(day)).unwrap())
}

// ` activations A failed F ms D mbms M` and a line end.
fn put_totals(alloc: Global, out: &mut Vec<u8>, totals: &Totals) -> Result<(), NoMemory>
    ensures { OnOk result (out.new.items ≡ out.old.items ++ totals_text totals.now) }
{
    put(out, b" activations ")?;
    put_number(alloc, out, u128::from(totals.activations))?;
    put(out, b" failed ")?;
    put_number(alloc, out, u128::from(totals.failed))?;
    put(out, b" ms ")?;
    put_number(alloc, out, totals.ms)?;
    put(out, b" mbms ")?;
    put_number(alloc, out, totals.mbms)?;
    put(out, b"\n")?;
    Ok(())
}

fn put_number(alloc: Global, out: &mut Vec<u8>, number: u128) -> Result<(), NoMemory>
    ensures { OnOk result (out.new.items ≡ out.old.items ++ decimal number) }
{
    let text = number.to_string(alloc)?;
    put(out, text.as_bytes())
}

// A name, with each byte that isn't plain as `%` and two hexadecimal digits.
fn put_escaped(out: &mut Vec<u8>, name: &[u8]) -> Result<(), NoMemory>
    ensures { OnOk result (out.new.items ≡ out.old.items ++ escaped name.now) }
{
    for byte in name {
        put_byte(out, *byte)?;
    }
    Ok(())
}

fn put_byte(out: &mut Vec<u8>, byte: u8) -> Result<(), NoMemory>
    ensures { OnOk result (out.new.items ≡ out.old.items ++ escape_byte byte) }
{
    if is_plain(byte) {
        put(out, &[byte])
    } else {
        put(out, percent_encode_byte(byte).as_bytes())
    }
}

fn is_plain(byte: u8) -> bool
    ensures { result ≡ is_plain byte }
{
    byte.is_ascii_alphanumeric()
        || byte == b'_'
        || byte == b'.'
        || byte == b'-'
        || byte == b'@'
        || byte == b'/'
}

fn put(out: &mut Vec<u8>, bytes: &[u8]) -> Result<(), NoMemory>
    ensures { OnOk result (out.new.items ≡ out.old.items ++ bytes.now) }
{
    out.extend_from_slice(bytes)?;
    Ok(())
}
