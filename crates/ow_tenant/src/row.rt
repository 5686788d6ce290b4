// Rows, from their fields.
ghost use Rattle.std.specs.Prelude.{◌≡◌, ◌≢◌, ◌<◌, ◌∷◌, [], length, Some, None, MatchResult, MatchOption, List, ℕ};
ghost use Rattle.csv.specs.Records.{field_at, fields_of};
ghost use Rattle.ow_tenant.specs.Row.{grant_row, key_row, namespace_row, one_field_row, pool_row, prewarm_of, prewarm_row, program_row, retain_row, row_by, row_of};

use crate::days::Days;
use crate::line::{Line, RowFault};
use crate::words::{
    copy_name, copy_text, is_empty, is_key, is_name, is_text, is_utf8, kind_of, may_be_listed,
    number_within, read_limits, right_of,
};
use csv::ByteRecord;
use ow_traits::Prewarm;
use std::alloc::Global;

// What the row says by itself.
pub(crate) fn read_row(alloc: Global, row: &ByteRecord) -> Result<Line, RowFault>
    ensures { MatchResult result (λ l. row_of (fields_of row.now) ≡ Some l) (λ e. e ≢ RowFault.NoMemory → row_of (fields_of row.now) ≡ None) }
{
    let Some(f) = six_fields(row) else {
        return Err(RowFault::Bad);
    };
    row_by(alloc, f.word, f.a, f.b, f.c, f.d, f.e)
}

// The fields of a row that has six.
#[derive(Clone, Copy, Drop)]
struct Fields<'a> {
    word: &'a [u8],
    a: &'a [u8],
    b: &'a [u8],
    c: &'a [u8],
    d: &'a [u8],
    e: &'a [u8],
}

fn six_fields(row: &ByteRecord) -> Option<Fields<'_>>
    ensures { MatchOption result (row_of (fields_of row.now) ≡ None) (λ f. fields_of row.now ≡ f.word.now ∷ f.a.now ∷ f.b.now ∷ f.c.now ∷ f.d.now ∷ f.e.now ∷ []) }
{
    if row.len() != 6 {
        return None;
    }
    Some(Fields {
        word: field(row, 0),
        a: field(row, 1),
        b: field(row, 2),
        c: field(row, 3),
        d: field(row, 4),
        e: field(row, 5),
    })
}

fn field(row: &ByteRecord, place: usize) -> &[u8]
    requires { place < length (fields_of row.now) }
    ensures { Some result.now ≡ field_at (fields_of row.now) place }
{
    let Some(field) = row.get(place) else {
        unreachable!()
    };
    field
}

fn row_by(
    alloc: Global,
    word: &[u8],
    a: &[u8],
    b: &[u8],
    c: &[u8],
    d: &[u8],
    e: &[u8],
) -> Result<Line, RowFault>
    ensures { MatchResult result (λ l. row_by word.now a.now b.now c.now d.now e.now ≡ Some l) (λ f. f ≢ RowFault.NoMemory → row_by word.now a.now b.now c.now d.now e.now ≡ None) }
{
    if word == b"namespace".as_slice() {
        return namespace_row(alloc, a, b, c, d, e);
    }
    if !(is_empty(d) && is_empty(e)) {
        return Err(RowFault::Bad);
    }
    if word == b"key".as_slice() {
        return key_row(alloc, a, b, c);
    }
    if word == b"grant".as_slice() {
        return grant_row(alloc, a, b, c);
    }
    if word == b"prewarm".as_slice() {
        return prewarm_row(a, b, c);
    }
    if !is_empty(c) {
        return Err(RowFault::Bad);
    }
    if word == b"program".as_slice() {
        return program_row(alloc, a, b);
    }
    if !is_empty(b) {
        return Err(RowFault::Bad);
    }
    one_field_row(word, a)
}

// A row that uses one field after its first word.
fn one_field_row(word: &[u8], a: &[u8]) -> Result<Line, RowFault>
    ensures { MatchResult result (λ l. one_field_row word.now a.now ≡ Some l) (λ f. f ≢ RowFault.NoMemory → one_field_row word.now a.now ≡ None) }
{
    if word == b"pool".as_slice() {
        return pool_row(a);
    }
    if word == b"retain".as_slice() {
        return retain_row(a);
    }
    Err(RowFault::Bad)
}

fn namespace_row(
    alloc: Global,
    a: &[u8],
    b: &[u8],
    c: &[u8],
    d: &[u8],
    e: &[u8],
) -> Result<Line, RowFault>
    ensures { MatchResult result (λ l. namespace_row a.now b.now c.now d.now e.now ≡ Some l) (λ f. f ≢ RowFault.NoMemory → namespace_row a.now b.now c.now d.now e.now ≡ None) }
{
    let Some(number) = number_within(1, u32::MAX, a) else {
        return Err(RowFault::Bad);
    };
    let Some(limits) = read_limits(c, d, e) else {
        return Err(RowFault::Bad);
    };
    if !may_be_listed(b) {
        return Err(RowFault::Bad);
    }
    Ok(Line::Namespace {
        number,
        name: copy_name(alloc, b)?,
        limits,
    })
}

fn key_row(alloc: Global, a: &[u8], b: &[u8], c: &[u8]) -> Result<Line, RowFault>
    ensures { MatchResult result (λ l. key_row a.now b.now c.now ≡ Some l) (λ f. f ≢ RowFault.NoMemory → key_row a.now b.now c.now ≡ None) }
{
    if !(is_key(a) && is_utf8(a) && is_text(b) && is_name(c)) {
        return Err(RowFault::Bad);
    }
    let key = copy_text(alloc, a)?;
    let subject = copy_text(alloc, b)?;
    let home = copy_name(alloc, c)?;
    Ok(Line::Key { key, subject, home })
}

fn grant_row(alloc: Global, a: &[u8], b: &[u8], c: &[u8]) -> Result<Line, RowFault>
    ensures { MatchResult result (λ l. grant_row a.now b.now c.now ≡ Some l) (λ f. f ≢ RowFault.NoMemory → grant_row a.now b.now c.now ≡ None) }
{
    let Some(right) = right_of(c) else {
        return Err(RowFault::Bad);
    };
    if !(is_utf8(a) && is_name(b)) {
        return Err(RowFault::Bad);
    }
    let key = copy_text(alloc, a)?;
    let namespace = copy_name(alloc, b)?;
    Ok(Line::Grant {
        key,
        namespace,
        right,
    })
}

fn pool_row(a: &[u8]) -> Result<Line, RowFault>
    ensures { MatchResult result (λ l. pool_row a.now ≡ Some l) (λ f. f ≢ RowFault.NoMemory → pool_row a.now ≡ None) }
{
    match number_within(512, 65536, a) {
        Some(memory) => Ok(Line::Pool { memory }),
        None => Err(RowFault::Bad),
    }
}

fn prewarm_row(a: &[u8], b: &[u8], c: &[u8]) -> Result<Line, RowFault>
    ensures { MatchResult result (λ l. prewarm_row a.now b.now c.now ≡ Some l) (λ f. f ≢ RowFault.NoMemory → prewarm_row a.now b.now c.now ≡ None) }
{
    match read_prewarm(a, b, c) {
        Some(wanted) => Ok(Line::Prewarming { wanted }),
        None => Err(RowFault::Bad),
    }
}

fn read_prewarm(a: &[u8], b: &[u8], c: &[u8]) -> Option<Prewarm>
    ensures { result ≡ prewarm_of a.now b.now c.now }
{
    let kind = kind_of(a)?;
    let memory = number_within(128, 512, b)?;
    let count = number_within(1, 512, c)?;
    Some(Prewarm {
        kind,
        memory,
        count,
    })
}

fn program_row(alloc: Global, a: &[u8], b: &[u8]) -> Result<Line, RowFault>
    ensures { MatchResult result (λ l. program_row a.now b.now ≡ Some l) (λ f. f ≢ RowFault.NoMemory → program_row a.now b.now ≡ None) }
{
    if !(is_text(a) && is_text(b)) {
        return Err(RowFault::Bad);
    }
    let name = copy_text(alloc, a)?;
    let path = copy_text(alloc, b)?;
    Ok(Line::Program { name, path })
}

fn retain_row(a: &[u8]) -> Result<Line, RowFault>
    ensures { MatchResult result (λ l. retain_row a.now ≡ Some l) (λ f. f ≢ RowFault.NoMemory → retain_row a.now ≡ None) }
{
    match Days::of(a) {
        Some(days) => Ok(Line::Retain { days }),
        None => Err(RowFault::Bad),
    }
}
