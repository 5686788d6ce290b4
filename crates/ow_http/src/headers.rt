// What the headers of a request say.
ghost use Rattle.std.specs.Prelude.{◌≡◌, count_by, find, option_copied};
ghost use Rattle.std.specs.List.{list_any};
ghost use Rattle.ow_http.specs.Headers.{is_named, is_refused, is_length, body_length, is_close, closes, last_named};

use ow_value::{Str, digits_of};

/// How long the body is. None where a header isn't served or gives no length.
#[tactic(auto, unfolding(crate::specs::Headers::body_length))]
pub(crate) fn body_length(fields: &[(Str, Str)]) -> Option<u64>
    ensures { result ≡ body_length fields.now }
{
    if has_refused(fields) {
        return None;
    }
    if length_count(fields) > 1 {
        return None;
    }
    match length_header(fields) {
        None => Some(0),
        Some(field) => digits_of(field.1.as_str().as_bytes()),
    }
}

/// Whether the connection is to end after the request.
pub(crate) fn closes(minor: u8, fields: &[(Str, Str)]) -> bool
    ensures { result ≡ closes minor fields.now }
{
    minor == 0 || has_close(fields)
}

/// The value of the last header of this name.
pub fn last_named<'a>(fields: &'a [(Str, Str)], name: &str) -> Option<&'a Str>
    ensures { option_copied result ≡ last_named name.now fields.now }
{
    let mut found = None;
    for field in fields {
        if is_named(field, name) {
            found = Some(&field.1);
        }
    }
    found
}

/// Whether the header has this name, in any case of its letters.
pub fn is_named(field: &(Str, Str), name: &str) -> bool
    ensures { result ≡ is_named name.now field.now }
{
    field.0.as_str().eq_ignore_ascii_case(name)
}

#[tactic(auto, unfolding(crate::specs::Headers::is_refused))]
fn is_refused(field: &(Str, Str)) -> bool
    ensures { result ≡ is_refused field.now }
{
    is_named(field, "transfer-encoding")
        || (is_named(field, "content-encoding") && field.1.as_str() != "identity")
}

#[tactic(auto, unfolding(crate::specs::Headers::is_length))]
fn is_length(field: &(Str, Str)) -> bool
    ensures { result ≡ is_length field.now }
{
    is_named(field, "content-length")
}

fn has_refused(fields: &[(Str, Str)]) -> bool
    ensures { result ≡ list_any is_refused fields.now }
{
    fields.iter().any(|f| is_refused(f))
}

fn length_count(fields: &[(Str, Str)]) -> usize
    ensures { result ≡ count_by is_length fields.now }
{
    let mut count = 0;
    for field in fields {
        if is_length(field) {
            count += 1;
        }
    }
    count
}

fn length_header(fields: &[(Str, Str)]) -> Option<&(Str, Str)>
    ensures { option_copied result ≡ find is_length fields.now }
{
    fields.iter().find(|f| is_length(f))
}

#[tactic(auto, unfolding(crate::specs::Headers::is_close))]
fn is_close(field: &(Str, Str)) -> bool
    ensures { result ≡ is_close field.now }
{
    is_named(field, "connection") && field.1.as_str().eq_ignore_ascii_case("close")
}

fn has_close(fields: &[(Str, Str)]) -> bool
    ensures { result ≡ list_any is_close fields.now }
{
    fields.iter().any(|f| is_close(f))
}
