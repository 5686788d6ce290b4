// Answers as bytes (RFC 9112).
ghost use Rattle.std.specs.Prelude.{◌≡◌, ◌++◌, OnOk, IfOk, unwrap_or, [], length, codes};
ghost use Rattle.http.specs.StatusCode.{reason_phrase, IsStatusCode};
ghost use Rattle.ow_http.specs.Reply.{phrase_of, header_line, status_line, is_bare, length_line, body_part, reply_bytes, own_lines, own_line, type_of};

use crate::answer::Answer;
use crate::headers::{is_named, last_named};
use http::StatusCode;
use ow_value::{NoMemory, Str};
use std::alloc::Global;

/// The bytes of an answer. The last `Content-Type` of its headers counts, in any case of its letters.
#[tactic(auto, unfolding(crate::specs::Reply::reply_bytes))]
pub fn write_reply(alloc: Global, a: &Answer) -> Result<Vec<u8>, NoMemory>
    ensures { IfOk result (λ v. v.items ≡ reply_bytes a.now) }
{
    let mut out = Vec::with_capacity(alloc, 256)?;
    push_status_line(alloc, &mut out, a.status)?;
    push_headers(&mut out, a.headers.as_slice())?;
    push_body(alloc, &mut out, a)?;
    Ok(out)
}

fn push_headers(out: &mut Vec<u8>, headers: &[(Str, Str)]) -> Result<(), NoMemory>
    ensures { OnOk result (out.new.items ≡ out.old.items ++ own_lines headers.now) }
{
    for header in headers {
        push_own(out, header)?;
    }
    Ok(())
}

#[tactic(auto, unfolding(crate::specs::Reply::own_line))]
fn push_own(out: &mut Vec<u8>, header: &(Str, Str)) -> Result<(), NoMemory>
    ensures { OnOk result (out.new.items ≡ out.old.items ++ own_line header.now) }
{
    if is_named(header, "content-type") {
        return Ok(());
    }
    push_header(out, header.0.as_str(), header.1.as_str())
}

#[tactic(auto, unfolding(crate::specs::Reply::body_part))]
fn push_body(alloc: Global, out: &mut Vec<u8>, a: &Answer) -> Result<(), NoMemory>
    ensures { OnOk result (out.new.items ≡ out.old.items ++ body_part a.now) }
{
    if is_bodiless(a.status) {
        push_bytes(out, b"\r\n")
    } else {
        push_typed(alloc, out, type_of(a.headers.as_slice()), a.body.as_slice())
    }
}

fn type_of(headers: &[(Str, Str)]) -> &str
    ensures { result.now ≡ type_of headers.now }
{
    match last_named(headers, "content-type") {
        Some(kind) => kind.as_str(),
        None => "application/json",
    }
}

// A number that isn't of three digits has no phrase.
#[tactic(auto, unfolding(crate::specs::Reply::phrase_of))]
fn phrase_of(status: u16) -> &'static str
    ensures { result.now ≡ phrase_of status }
{
    if status < 100 {
        return "";
    }
    if status > 999 {
        return "";
    }
    known_phrase(status)
}

fn known_phrase(status: u16) -> &'static str
    requires { IsStatusCode status }
    ensures { result.now ≡ unwrap_or (reason_phrase status) [] }
{
    let Ok(code) = StatusCode::from_u16(status) else {
        return "";
    };
    match code.canonical_reason() {
        Some(phrase) => phrase,
        None => "",
    }
}

#[tactic(auto, unfolding(crate::specs::Reply::status_line))]
fn push_status_line(alloc: Global, out: &mut Vec<u8>, status: u16) -> Result<(), NoMemory>
    ensures { OnOk result (out.new.items ≡ out.old.items ++ status_line status) }
{
    let phrase = phrase_of(status);
    let line = format!(in alloc; "HTTP/1.1 {status} {phrase}\r\n")?;
    push_bytes(out, line.as_bytes())
}

#[tactic(auto, unfolding(crate::specs::Reply::header_line))]
fn push_header(out: &mut Vec<u8>, name: &str, value: &str) -> Result<(), NoMemory>
    ensures { OnOk result (out.new.items ≡ out.old.items ++ header_line (name.now, value.now)) }
{
    push_bytes(out, name.as_bytes())?;
    push_bytes(out, b": ")?;
    push_bytes(out, value.as_bytes())?;
    push_bytes(out, b"\r\n")
}

#[tactic(auto, unfolding(crate::specs::Reply::length_line))]
fn push_length_line(alloc: Global, out: &mut Vec<u8>, size: usize) -> Result<(), NoMemory>
    ensures { OnOk result (out.new.items ≡ out.old.items ++ length_line size) }
{
    let line = format!(in alloc; "Content-Length: {size}\r\n\r\n")?;
    push_bytes(out, line.as_bytes())
}

fn push_typed(alloc: Global, out: &mut Vec<u8>, kind: &str, body: &[u8]) -> Result<(), NoMemory>
    ensures { OnOk result (out.new.items ≡ out.old.items ++ header_line (codes "Content-Type", kind.now) ++ length_line (length body.now) ++ body.now) }
{
    push_header(out, "Content-Type", kind)?;
    push_sized(alloc, out, body)?;
    Ok(())
}

fn push_sized(alloc: Global, out: &mut Vec<u8>, body: &[u8]) -> Result<(), NoMemory>
    ensures { OnOk result (out.new.items ≡ out.old.items ++ length_line (length body.now) ++ body.now) }
{
    push_length_line(alloc, out, body.len())?;
    push_bytes(out, body)
}

fn is_bodiless(status: u16) -> bool
    ensures { result ≡ is_bare status }
{
    status == 204 || status == 304
}

fn push_bytes(out: &mut Vec<u8>, bytes: &[u8]) -> Result<(), NoMemory>
    ensures { OnOk result (out.new.items ≡ out.old.items ++ bytes.now) }
{
    out.extend_from_slice(bytes)?;
    Ok(())
}
