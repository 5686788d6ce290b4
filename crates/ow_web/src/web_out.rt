// The answer that the result of a web action is.
ghost use Rattle.std.specs.Prelude.{◌≡◌, ◌≢◌, ◌++◌, [], ◌&&◌, Some, None, Ok, Err, codes, map, filter, IfOk, MatchResult, OnOk, option_copied, option_map, option_and_then, ok_or, false, true};
ghost use Rattle.std.specs.Option.{option_or};
ghost use Rattle.std.specs.List.{list_all};
ghost use Rattle.httparse.specs.Grammar.{is_token, is_token_byte};
ghost use Rattle.ow_value.specs.Find.{find, with_pair};
ghost use Rattle.ow_value.specs.Text.{compact};
ghost use Rattle.ow_value.specs.Value.{members_of, object};
ghost use Rattle.ow_value.specs.Whole.{natural};
ghost use Rattle.ow_value.specs.Decimal.{if_within};
ghost use Rattle.ow_http.specs.Headers.{last_named};
ghost use Rattle.ow_value.specs.View.{pair_view, pair_views, view};
ghost use Rattle.ow_web.specs.Shown.{is_scalar};
ghost use Rattle.ow_web.specs.WebOut.{as_header, bad_result, body_of, body_type, has_body, headers_in, headers_of, http_answer, is_framing, is_header, is_printable, is_sent, json_answer, made_answer, plain_answer, result_answer, sent_answer, sent_headers, status_of, text_answer, typed, web_out};

use crate::fields::put;
use crate::refusal::WebRefusal;
use crate::shown::{is_scalar, shown_text};
use crate::target::Extension;
use ow_http::{Answer, is_named, last_named};
use ow_records::Response;
use ow_value::{
    Bytes, Fields, NoMemory, Pair, Pairs, Params, PlainData, Str, Val, Whole, bytes_of, copied2,
    kept_beside, write_val,
};
use std::alloc::Global;

/// The answer that the recorded response is, in the form of the extension.
pub fn web_reply(alloc: Global, extension: Extension, r: &Response) -> Result<Answer, WebRefusal>
    ensures { MatchResult result (λ a. web_out extension r.now ≡ Ok a)
        (λ e. e ≢ WebRefusal.NoMemory → web_out extension r.now ≡ Err e) }
{
    if r.code() == 0 {
        result_answer(alloc, extension, r.result())
    } else {
        Ok(json_answer(alloc, 502, r.result())?)
    }
}

/// What is sent to one who waited for the response: its answer, or that the result is no web response, with the result.
pub fn web_answer(alloc: Global, extension: Extension, r: &Response) -> Result<Answer, NoMemory>
    ensures { IfOk result (λ a. a ≡ sent_answer extension r.now) }
{
    match web_reply(alloc, extension, r) {
        Ok(answer) => Ok(answer),
        Err(WebRefusal::NoMemory) => Err(NoMemory),
        Err(_) => bad_answer(alloc, r.result()),
    }
}

// That the result is no web response.
fn bad_answer(alloc: Global, members: &Params) -> Result<Answer, NoMemory>
    ensures { IfOk result (λ a. a ≡ record { status = 502; headers = []; body = compact (bad_result members.now) }) }
{
    let value = bad_result(alloc, members)?;
    answer_of(alloc, 502, &value)
}

fn bad_result(alloc: Global, members: &Params) -> Result<Val, NoMemory>
    ensures { IfOk result (λ v. view v ≡ bad_result members.now) }
{
    let mut fields = Fields::new(alloc);
    put_bad_result(alloc, &mut fields, members)?;
    Ok(Val::Object(fields.into_params()?))
}

fn put_bad_result(alloc: Global, fields: &mut Fields, members: &Params) -> Result<(), NoMemory>
    requires { fields.old ≡ [] }
    ensures { OnOk result (object (members_of fields.new) ≡ bad_result members.now) }
{
    put(alloc, fields, "code", Val::Int(Whole::of_u64(45)))?;
    let text = Str::of(alloc, "The result is no web response.")?;
    put(alloc, fields, "error", Val::Text(text))?;
    let members = members.copy(alloc)?;
    put(alloc, fields, "result", Val::Object(members))
}

fn result_answer(
    alloc: Global,
    extension: Extension,
    members: &Params,
) -> Result<Answer, WebRefusal>
    ensures { MatchResult result (λ a. result_answer extension members.now ≡ Some a)
        (λ e. e ≢ WebRefusal.NoMemory → (e ≡ WebRefusal.BadWebResult) × (result_answer extension members.now ≡ None)) }
{
    match extension {
        Extension::Json => Ok(json_answer(alloc, 200, members)?),
        Extension::Text => text_answer(alloc, members.find("text")),
        Extension::Http => http_answer(alloc, members),
    }
}

// A whole result as JSON.
fn json_answer(alloc: Global, status: u16, members: &Params) -> Result<Answer, NoMemory>
    ensures { IfOk result (λ a. a ≡ json_answer status members.now) }
{
    let value = Val::Object(members.copy(alloc)?);
    answer_of(alloc, status, &value)
}

fn answer_of(alloc: Global, status: u16, value: &Val) -> Result<Answer, NoMemory>
    ensures { IfOk result (λ a. a ≡ record { status = status; headers = []; body = compact (view value.now) }) }
{
    Ok(Answer {
        status,
        headers: Pairs::new(),
        body: Bytes::from_vec(write_val(alloc, value)?)?,
    })
}

// ---- the extension `text`

fn text_answer(alloc: Global, value: Option<&Val>) -> Result<Answer, WebRefusal>
    ensures { MatchResult result (λ a. text_answer (option_map (λ v. view v.now) value.entry) ≡ Some a)
        (λ e. e ≢ WebRefusal.NoMemory → (e ≡ WebRefusal.BadWebResult) × (text_answer (option_map (λ v. view v.now) value.entry) ≡ None)) }
{
    match value {
        Some(value) => {
            if !is_scalar(value) {
                return Err(WebRefusal::BadWebResult);
            }
            let body = shown_text(alloc, value)?;
            Ok(plain_answer(alloc, &body)?)
        }
        None => Err(WebRefusal::BadWebResult),
    }
}

fn plain_answer(alloc: Global, body: &Str) -> Result<Answer, NoMemory>
    ensures { IfOk result (λ a. a ≡ plain_answer body.now) }
{
    let headers = plain_headers(alloc)?;
    let (headers, body) = kept_beside(headers, bytes_of(alloc, body.as_str().as_bytes()))?;
    Ok(Answer {
        status: 200,
        headers,
        body,
    })
}

fn plain_headers(alloc: Global) -> Result<Pairs, NoMemory>
    ensures { IfOk result (λ hs. hs ≡ typed (Some (codes "text/plain"))) }
{
    let kind = Str::of(alloc, "text/plain")?;
    let headers = typed(alloc, Some(&kind))?;
    Pairs::from_vec(headers)
}

// The type as a header, where it is given.
fn typed(alloc: Global, kind: Option<&Str>) -> Result<Vec<(Str, Str)>, NoMemory>
    ensures { IfOk result (λ v. v.items ≡ typed (option_copied kind.entry)) }
{
    let mut headers = Vec::new(alloc);
    if let Some(kind) = kind {
        headers.push(type_header(alloc, kind)?)?;
    }
    Ok(headers)
}

fn type_header(alloc: Global, kind: &Str) -> Result<(Str, Str), NoMemory>
    ensures { IfOk result (λ h. h ≡ (codes "Content-Type", kind.now)) }
{
    kept_beside(Str::of(alloc, "Content-Type")?, kind.copy(alloc))
}

// ---- the extension `http`

fn http_answer(alloc: Global, members: &Params) -> Result<Answer, WebRefusal>
    ensures { MatchResult result (λ a. http_answer members.now ≡ Some a)
        (λ e. e ≢ WebRefusal.NoMemory → (e ≡ WebRefusal.BadWebResult) × (http_answer members.now ≡ None)) }
{
    let body = members.find("body");
    let Some(status) = status_of(members.find("statusCode"), body) else {
        return Err(WebRefusal::BadWebResult);
    };
    let headers = headers_of(alloc, members.find("headers"))?;
    Ok(made_answer(alloc, body, status, headers.as_slice())?)
}

fn made_answer(
    alloc: Global,
    body: Option<&Val>,
    status: u16,
    headers: &[(Str, Str)],
) -> Result<Answer, NoMemory>
    ensures { IfOk result (λ a. a ≡ made_answer (option_map (λ v. view v.now) body.entry) status headers.now) }
{
    let sent = sent_headers(alloc, body, headers)?;
    let (headers, body) = kept_beside(sent, body_of(alloc, body))?;
    Ok(Answer {
        status,
        headers,
        body,
    })
}

fn has_body(body: Option<&Val>) -> bool
    ensures { result ≡ has_body (option_map (λ v. view v.now) body.entry) }
{
    match body {
        None | Some(Val::Null) => false,
        Some(_) => true,
    }
}

fn body_of(alloc: Global, body: Option<&Val>) -> Result<Bytes, NoMemory>
    ensures { IfOk result (λ b. b ≡ body_of (option_map (λ v. view v.now) body.entry)) }
{
    match body {
        None | Some(Val::Null) => Ok(Bytes::new()),
        Some(Val::Text(text)) => bytes_of(alloc, text.as_str().as_bytes()),
        Some(value) => Bytes::from_vec(write_val(alloc, value)?),
    }
}

// The status, from 200 to 599.
fn status_of(status: Option<&Val>, body: Option<&Val>) -> Option<u16>
    ensures { result ≡ status_of (option_map (λ v. view v.now) status.entry) (option_map (λ v. view v.now) body.entry) }
{
    match status {
        None => { if has_body(body) { Some(200) } else { Some(204) } }
        Some(Val::Int(n)) => status_within(*n),
        Some(_) => None,
    }
}

fn status_within(n: Whole) -> Option<u16>
    ensures { result ≡ option_and_then (if_within 200 599) (natural n) }
{
    let n = n.as_u64()?;
    if n >= 200 && n <= 599 {
        Some(n as u16)
    } else {
        None
    }
}

fn headers_of(alloc: Global, headers: Option<&Val>) -> Result<Vec<(Str, Str)>, WebRefusal>
    ensures { MatchResult result (λ hs. headers_of (option_map (λ v. view v.now) headers.entry) ≡ Some hs.items)
        (λ e. e ≢ WebRefusal.NoMemory → (e ≡ WebRefusal.BadWebResult) × (headers_of (option_map (λ v. view v.now) headers.entry) ≡ None)) }
{
    match headers {
        None => Ok(Vec::new(alloc)),
        Some(Val::Object(members)) => object_headers(alloc, members),
        Some(_) => Err(WebRefusal::BadWebResult),
    }
}

fn object_headers(alloc: Global, members: &Params) -> Result<Vec<(Str, Str)>, WebRefusal>
    ensures { MatchResult result (λ hs. headers_of (Some (object (members_of members.now))) ≡ Some hs.items)
        (λ e. e ≢ WebRefusal.NoMemory → (e ≡ WebRefusal.BadWebResult) × (headers_of (Some (object (members_of members.now))) ≡ None)) }
{
    headers_in(alloc, members.pairs())
}

fn headers_in(alloc: Global, members: &[Pair]) -> Result<Vec<(Str, Str)>, WebRefusal>
    ensures { MatchResult result (λ hs. headers_in (pair_views members.now) ≡ Some hs.items)
        (λ e. e ≢ WebRefusal.NoMemory → (e ≡ WebRefusal.BadWebResult) × (headers_in (pair_views members.now) ≡ None)) }
{
    if !are_scalars(members) {
        return Err(WebRefusal::BadWebResult);
    }
    let headers = as_headers(alloc, members)?;
    if !are_headers(headers.as_slice()) {
        return Err(WebRefusal::BadWebResult);
    }
    Ok(headers)
}

fn are_scalars(members: &[Pair]) -> bool
    ensures { result ≡ list_all (λ p. is_scalar p.1) (pair_views members.now) }
{
    for pair in members {
        if !is_scalar(&pair.value) {
            return false;
        }
    }
    true
}

fn as_headers(alloc: Global, members: &[Pair]) -> Result<Vec<(Str, Str)>, NoMemory>
    ensures { IfOk result (λ hs. hs.items ≡ map as_header (pair_views members.now)) }
{
    let mut headers = Vec::new(alloc);
    for pair in members {
        headers.push(as_header(alloc, pair)?)?;
    }
    Ok(headers)
}

fn as_header(alloc: Global, pair: &Pair) -> Result<(Str, Str), NoMemory>
    ensures { IfOk result (λ h. h ≡ as_header (pair_view pair.now)) }
{
    kept_beside(pair.name.copy(alloc)?, shown_text(alloc, &pair.value))
}

fn are_headers(headers: &[(Str, Str)]) -> bool
    ensures { result ≡ list_all is_header headers.now }
{
    headers.iter().all(|header| is_header(header))
}

// Whether a reply may have the header.
fn is_header(header: &(Str, Str)) -> bool
    ensures { result ≡ is_header header.now }
{
    is_token(header.0.as_str().as_bytes()) && is_printable_text(header.1.as_str().as_bytes())
}

// A token (RFC 9110, section 5.6.2).
fn is_token(name: &[u8]) -> bool
    ensures { result ≡ is_token name.now }
{
    !name.is_empty() && are_token_bytes(name)
}

fn are_token_bytes(name: &[u8]) -> bool
    ensures { result ≡ list_all is_token_byte name.now }
{
    name.iter().all(|b| is_token_byte(*b))
}

#[tactic(auto, unfolding(httparse::specs::Grammar::is_token_byte))]
fn is_token_byte(b: u8) -> bool
    ensures { result ≡ is_token_byte b }
{
    b.is_ascii_alphanumeric() || b"!#$%&'*+-.^_`|~".contains(&b)
}

fn is_printable_text(value: &[u8]) -> bool
    ensures { result ≡ list_all is_printable value.now }
{
    value.iter().all(|b| is_printable(*b))
}

fn is_printable(b: u8) -> bool
    ensures { result ≡ is_printable b }
{
    b >= 32 && b <= 126
}

// The type, and the other headers except the ones that say where the reply ends.
fn sent_headers(
    alloc: Global,
    body: Option<&Val>,
    headers: &[(Str, Str)],
) -> Result<Pairs, NoMemory>
    ensures { IfOk result (λ hs. hs ≡ sent_headers (body_type (option_map (λ v. view v.now) body.entry)) headers.now) }
{
    let kind = kind_of(alloc, body, headers)?;
    let mut sent = typed(alloc, kind.as_ref())?;
    add_sent(alloc, &mut sent, headers)?;
    Pairs::from_vec(sent)
}

fn add_sent(
    alloc: Global,
    sent: &mut Vec<(Str, Str)>,
    headers: &[(Str, Str)],
) -> Result<(), NoMemory>
    ensures { OnOk result (sent.new.items ≡ sent.old.items ++ filter is_sent headers.now) }
{
    for header in headers {
        if is_sent(header) {
            sent.push(copied2(alloc, &header.0, &header.1)?)?;
        }
    }
    Ok(())
}

// The type that the last such header gives, or that of the body.
fn kind_of(
    alloc: Global,
    body: Option<&Val>,
    headers: &[(Str, Str)],
) -> Result<Option<Str>, NoMemory>
    ensures { IfOk result (λ o. o ≡ option_or (last_named (codes "content-type") headers.now) (body_type (option_map (λ v. view v.now) body.entry))) }
{
    if let Some(kind) = last_named(headers, "content-type") {
        return Ok(Some(kind.copy(alloc)?));
    }
    match body {
        Some(Val::Text(_)) => Ok(Some(Str::of(alloc, "text/html")?)),
        _ => Ok(None),
    }
}

fn is_sent(header: &(Str, Str)) -> bool
    ensures { result ≡ is_sent header.now }
{
    !(is_framing(header) || is_named(header, "content-type"))
}

fn is_framing(header: &(Str, Str)) -> bool
    ensures { result ≡ is_framing header.now }
{
    is_named(header, "content-length")
        || is_named(header, "transfer-encoding")
        || is_named(header, "connection")
}
