// What is known of bytes that are cut short, from their head alone.
ghost use Rattle.std.specs.Prelude.{◌≡◌, codes, find, length, map, All, IsTrue, Err};
ghost use Rattle.std.specs.Str.{str_eq_ignore_ascii_case};
ghost use Rattle.httparse.specs.Spans.{IsHeaderWithin, header_bytes};
ghost use Rattle.ow_http.specs.Headers.{is_length, told_length};
ghost use Rattle.ow_http.specs.Read.{IsRead};
ghost use Rattle.ow_http.specs.declared.http_refusal.HttpRefusal.TheVariants.{CutShort};
ghost use Rattle.ow_wire.specs.Arrivals.{IsCutBelow};

use httparse::Status;
use httparse::spans::{EMPTY_HEADER_SPAN, HeaderSpan, parse_request};
use ow_value::digits_of;

/// How many bytes a head has at most.
const MAX_HEAD: usize = 65_536;

/// How many headers a head has at most.
const MAX_HEADERS: usize = 100;

/// How many bytes the request has that these bytes begin: its head, and the body that the head gives the length of. 0 where no head
/// is whole.
pub(crate) fn needed(bytes: &[u8]) -> usize
    ensures { IsRead bytes.now (Err CutShort) → IsCutBelow result bytes.now }
{
    let mut headers = [EMPTY_HEADER_SPAN; MAX_HEADERS];
    match parse_request(bytes, &mut headers) {
        Ok(Status::Complete(head)) => match length_in(bytes, &headers[..head.headers]) {
            Some(size) => head.len.saturating_add(size as usize),
            None => 0,
        },
        _ => 0,
    }
}

/// Whether the bytes end inside a head that is within the limits.
pub(crate) fn is_cut_head(bytes: &[u8]) -> bool
    ensures { IsTrue result → IsRead bytes.now (Err CutShort) }
{
    if bytes.len() > MAX_HEAD {
        return false;
    }
    let mut headers = [EMPTY_HEADER_SPAN; MAX_HEADERS];
    match parse_request(bytes, &mut headers) {
        Ok(Status::Partial) => true,
        _ => false,
    }
}

// The length that the headers give the body.
fn length_in(bytes: &[u8], headers: &[HeaderSpan]) -> Option<u64>
    requires { All (IsHeaderWithin (length bytes.now)) headers.now }
    ensures { result ≡ told_length (find is_length (map (header_bytes bytes.now) headers.now)) }
{
    for header in headers {
        if is_length(bytes, header) {
            return digits_of(header.value.of(bytes));
        }
    }
    Some(0)
}

// Whether the header gives the length of the body.
fn is_length(bytes: &[u8], header: &HeaderSpan) -> bool
    requires { IsHeaderWithin (length bytes.now) header.now }
    ensures { result ≡ is_length (header_bytes bytes.now header.now) }
{
    names_length(header.name.of(bytes))
}

fn names_length(name: &[u8]) -> bool
    ensures { result ≡ str_eq_ignore_ascii_case name.now (codes "content-length") }
{
    name.eq_ignore_ascii_case(b"content-length")
}
