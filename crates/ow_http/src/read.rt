// Bytes as requests.
ghost use Rattle.std.specs.Prelude.{◌≡◌, ◌≢◌, ◌⊎◌, ℕ, List, length, IfOk, OnOk, IfErr, drop, map, true, false, MatchOption, MatchResult, All, ◌++◌, ◌∷◌, [], ◌+◌, ◌<◌, ◌≤◌, ◌^◌, Ok, Err, Some, codes, take};
ghost use Rattle.std.specs.List.{list_all};
ghost use Rattle.std.specs.Str.{is_utf8};
ghost use Rattle.httparse.specs.Grammar.{RequestHead};
ghost use Rattle.httparse.specs.Spans.{IsRequestAt, IsRequestWithin, IsHeaderWithin, header_bytes};
ghost use Rattle.ow_http.specs.Headers.{is_text, last_named};
ghost use Rattle.ow_http.specs.Query.{pairs_of, query_of};
ghost use Rattle.ow_http.specs.Head.{HasHead, IsBadHead, IsCutHead};
ghost use Rattle.ow_http.specs.Judged.{judged, judged_method, asked_of, as_asked};
ghost use Rattle.ow_http.specs.Verb.{verb_of};
ghost use Rattle.ow_http.specs.declared.read.TheConstants.{MAX_BODY};
ghost use Rattle.ow_http.specs.Gives.{Gives, GivesRead};
ghost use Rattle.ow_http.specs.Read.{ReadsAs};
ghost use Rattle.ow_http.specs.CallKind.{takes};
ghost use Rattle.ow_http.specs.Route.{is_whole};
ghost use Rattle.ow_http.specs.declared.http_refusal.HttpRefusal.TheVariants.{BadHead, CutShort, NoMemory as OutOfMemory};

use crate::call_kind::CallKind;
use crate::head::{MAX_HEADERS, read_head};
use crate::headers::{body_length, closes, last_named};
use crate::http_refusal::HttpRefusal;
use crate::query::{path_of, query_of, read_pairs};
use crate::request::{Read, Request};
use crate::route::Route;
use crate::routes::Routes;
use crate::segments::route_at;
use crate::verb::Verb;
use httparse::spans::{EMPTY_HEADER_SPAN, HeaderSpan, RequestSpans};
use ow_value::{Bytes, NoMemory, Pairs, PlainData, Str, bytes_of, kept_beside};
use std::alloc::Global;

/// How many bytes a body has at most.
const MAX_BODY: u64 = 4194304;

// The parts of a head whose target is text, and the bytes after it.
#[derive(Drop)]
struct Asked<'a> {
    method: &'a [u8],
    target: &'a str,
    minor: u8,
    fields: Pairs,
    head: usize,
    rest: &'a [u8],
}

impl Routes {
    /// The request that the bytes begin with, by routes that are there already.
    pub fn read(&self, alloc: Global, bytes: &[u8]) -> Result<Read, HttpRefusal>
        ensures { ReadsAs bytes.now result }
    {
        self.read_as_judged(alloc, bytes)
    }

    fn read_as_judged(&self, alloc: Global, bytes: &[u8]) -> Result<Read, HttpRefusal>
        ensures judged { (h : RequestHead) (rest : List ℕ) → HasHead bytes.now h rest → GivesRead (judged (asked_of h rest)) result }
        ensures whole { OnOk result ((h : RequestHead) × (rest : List ℕ) × HasHead bytes.now h rest) }
        ensures headless { ((h : RequestHead) (rest : List ℕ) → ¬ (HasHead bytes.now h rest))
            → IfErr result (λ e. ((e ≡ BadHead) × IsBadHead bytes.now) ⊎ ((e ≡ CutShort) × IsCutHead bytes.now) ⊎ (e ≡ OutOfMemory)) }
    {
        let mut headers = [EMPTY_HEADER_SPAN; MAX_HEADERS];
        match read_head(bytes, &mut headers) {
            Ok(head) => read_whole(alloc, self, bytes, &headers, head),
            Err(e) => Err(e),
        }
    }
}

/// The request that the bytes begin with. Each call makes the routes again: to read many requests, call `Routes::read`.
pub fn read_request(alloc: Global, bytes: &[u8]) -> Result<Read, HttpRefusal>
    ensures { ReadsAs bytes.now result }
{
    let routes = Routes::new(alloc)?;
    routes.read(alloc, bytes)
}

fn read_whole(
    alloc: Global,
    routes: &Routes,
    bytes: &[u8],
    headers: &[HeaderSpan],
    head: RequestSpans,
) -> Result<Read, HttpRefusal>
    requires { IsRequestWithin bytes.now headers.now head }
    ensures { (h : RequestHead) → IsRequestAt bytes.now headers.now head h
        → GivesRead (judged (asked_of h (drop head.len bytes.now))) result }
{
    match read_asked(alloc, routes, bytes, headers, head) {
        Ok(request) => Ok(Read {
            used: request.size as usize,
            request,
        }),
        Err(e) => Err(e),
    }
}

fn read_asked(
    alloc: Global,
    routes: &Routes,
    bytes: &[u8],
    headers: &[HeaderSpan],
    head: RequestSpans,
) -> Result<Request, HttpRefusal>
    requires { IsRequestWithin bytes.now headers.now head }
    ensures { (h : RequestHead) → IsRequestAt bytes.now headers.now head h
        → Gives (judged (asked_of h (drop head.len bytes.now))) result }
{
    let target = match text_of(head.path.of(bytes)) {
        Some(target) => target,
        None => return Err(HttpRefusal::BadHead),
    };
    let fields = match read_fields(alloc, bytes, &headers[..head.headers])? {
        Some(fields) => fields,
        None => return Err(HttpRefusal::BadHead),
    };
    let asked = Asked {
        method: head.method.of(bytes),
        target,
        minor: head.version,
        fields,
        head: head.len,
        rest: &bytes[head.len..],
    };
    judge(alloc, routes, asked)
}

// The request that the head makes, or the first refusal.
#[tactic(auto, unfolding(crate::specs::Judged::judged))]
fn judge(alloc: Global, routes: &Routes, asked: Asked<'_>) -> Result<Request, HttpRefusal>
    requires target { is_utf8 asked.target.now ≡ true }
    requires fields { list_all is_text asked.fields ≡ true }
    requires fits { asked.head + length asked.rest.now < 2 ^ 64 }
    ensures { Gives (judged (as_asked asked.entry)) result }
{
    let Some(size) = body_length(asked.fields.as_slice()) else {
        return Err(HttpRefusal::BadHead);
    };
    let path = path_of(asked.target);
    let Some(place) = routes.find(path) else {
        return Err(HttpRefusal::NoRoute);
    };
    let route = route_at(alloc, place, path)?;
    finish(alloc, route, size, asked)
}

// The request, where the route takes it and its body is whole.
#[tactic(auto, unfolding(crate::specs::Judged::judged_body))]
fn finish(alloc: Global, route: Route, size: u64, asked: Asked<'_>) -> Result<Request, HttpRefusal>
    requires whole { is_whole route ≡ true }
    requires fits { asked.head + length asked.rest.now < 2 ^ 64 }
    ensures { Gives (judged_method route size (as_asked asked.entry)) result }
{
    let method = taken_method(&route, size, &asked);
    let ((route, asked), method) = kept_beside((route, asked), method)?;
    let owned = owned_parts(alloc, &asked, size as usize);
    let ((route, asked), (raw_query, body, query, key)) = kept_beside((route, asked), owned)?;
    let close = closes(asked.minor, asked.fields.as_slice());
    Ok(Request {
        route,
        method,
        key,
        query,
        raw_query,
        headers: asked.fields,
        body,
        size: asked.head as u64 + size,
        close,
    })
}

// The method, where the route takes it and the body is whole.
#[tactic(auto, unfolding(crate::specs::Judged::judged_body))]
fn taken_method(route: &Route, size: u64, asked: &Asked<'_>) -> Result<Verb, HttpRefusal>
    ensures { MatchResult result
        (λ m. (verb_of asked.now.method.now ≡ Some m) × (takes route.now m ≡ true) × (size ≤ MAX_BODY) × (size ≤ length asked.now.rest.now))
        (λ e. judged_method route.now size (as_asked asked.now) ≡ Err e) }
{
    let method = match Verb::of(asked.method) {
        Some(method) => method,
        None => return Err(HttpRefusal::BadMethod),
    };
    if !CallKind::of(route, method).is_taken() {
        return Err(HttpRefusal::BadMethod);
    }
    if size > MAX_BODY {
        return Err(HttpRefusal::BodyTooLarge);
    }
    if (asked.rest.len() as u64) < size {
        return Err(HttpRefusal::CutShort);
    }
    Ok(method)
}

// The raw query, the body, the pairs of the query, and the key.
fn owned_parts(
    alloc: Global,
    asked: &Asked<'_>,
    size: usize,
) -> Result<(Str, Bytes, Pairs, Option<Str>), NoMemory>
    requires { size ≤ length asked.now.rest.now }
    ensures { IfOk result (λ r. r ≡ (
      query_of asked.now.target.now,
      take size asked.now.rest.now,
      pairs_of (query_of asked.now.target.now),
      last_named (codes "x-whisk-key") asked.now.fields,
    )) }
{
    let query = query_of(asked.target);
    let raw_query = Str::of(alloc, query)?;
    let body = bytes_of(alloc, &asked.rest[..size])?;
    let pairs = read_pairs(alloc, query.as_bytes())?;
    let key = key_of(alloc, asked.fields.as_slice())?;
    Ok((raw_query, body, pairs, key))
}

fn key_of(alloc: Global, fields: &[(Str, Str)]) -> Result<Option<Str>, NoMemory>
    ensures { IfOk result (λ k. k ≡ last_named (codes "x-whisk-key") fields.now) }
{
    match last_named(fields, "x-whisk-key") {
        Some(text) => Ok(Some(text.copy(alloc)?)),
        None => Ok(None),
    }
}

// The headers of a head. None where one isn't text.
fn read_fields(
    alloc: Global,
    bytes: &[u8],
    headers: &[HeaderSpan],
) -> Result<Option<Pairs>, NoMemory>
    requires { All (IsHeaderWithin (length bytes.now)) headers.now }
    ensures { IfOk result (λ o. MatchOption o
        (list_all is_text (map (header_bytes bytes.now) headers.now) ≡ false)
        (λ p. (p ≡ map (header_bytes bytes.now) headers.now) × (list_all is_text p ≡ true))) }
{
    let mut fields = Vec::new(alloc);
    for header in headers {
        if !add_field(
            alloc,
            &mut fields,
            header.name.of(bytes),
            header.value.of(bytes),
        )? {
            return Ok(None);
        }
    }
    Ok(Some(Pairs::from_vec(fields)?))
}

// Adds a header, if it is text.
fn add_field(
    alloc: Global,
    fields: &mut Vec<(Str, Str)>,
    name: &[u8],
    value: &[u8],
) -> Result<bool, NoMemory>
    ensures text { IfOk result (λ b. b ≡ is_text (name.now, value.now)) }
    ensures added { result ≡ Ok true → fields.new.items ≡ fields.old.items ++ (name.now, value.now) ∷ [] }
{
    let Some(name) = text_of(name) else {
        return Ok(false);
    };
    let Some(value) = text_of(value) else {
        return Ok(false);
    };
    let name = Str::of(alloc, name)?;
    let value = Str::of(alloc, value)?;
    fields.push((name, value))?;
    Ok(true)
}

fn text_of(bytes: &[u8]) -> Option<&str>
    ensures { MatchOption result (is_utf8 bytes.now ≡ false) (λ s. (s.now ≡ bytes.now) × (is_utf8 bytes.now ≡ true)) }
{
    match str::from_utf8(bytes) {
        Ok(text) => Some(text),
        Err(_) => None,
    }
}
