// In which form a request's body is read.
ghost use Rattle.std.specs.Prelude.{◌≡◌, option_copied};
ghost use Rattle.std.specs.List.{before_first};
ghost use Rattle.ow_web.specs.Media.{bare_type, is_semicolon, media_named, media_of, trimmed_end, trimmed_start};

use ow_value::Str;

/// In which form a request's body is read (RFC 9110, section 8.3).
#[derive(Clone, Copy, PartialEq, Eq, Debug, Drop)]
pub enum Media {
    /// The pairs of a form.
    Form,
    /// An object.
    Json,
    /// A text.
    Other,
}

/// The form that the value of a `Content-Type` names, or that of a body without one.
pub(crate) fn media_of(value: Option<&Str>) -> Media
    ensures { result ≡ media_of (option_copied value.entry) }
{
    match value {
        Some(value) => media_named(bare_type(value.as_str())),
        None => Media::Json,
    }
}

fn bare_type(value: &str) -> &[u8]
    ensures { result.now ≡ bare_type value.now }
{
    trimmed_end(trimmed_start(before_semicolon(value).as_bytes()))
}

fn trimmed_start(text: &[u8]) -> &[u8]
    ensures { result.now ≡ trimmed_start text.now }
{
    text.trim_ascii_start()
}

fn trimmed_end(text: &[u8]) -> &[u8]
    ensures { result.now ≡ trimmed_end text.now }
{
    text.trim_ascii_end()
}

fn before_semicolon(value: &str) -> &str
    ensures { result.now ≡ before_first is_semicolon value.now }
{
    match value.split_once(';') {
        Some((kind, _)) => kind,
        None => value,
    }
}

#[tactic(auto, unfolding(crate::specs::Media::media_named))]
fn media_named(kind: &[u8]) -> Media
    ensures { result ≡ media_named kind.now }
{
    if kind == b"application/x-www-form-urlencoded".as_slice() {
        Media::Form
    } else if kind == b"application/json".as_slice() {
        Media::Json
    } else {
        Media::Other
    }
}
