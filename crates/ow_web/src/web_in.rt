// What a request gives a web action.
ghost use Rattle.std.specs.Prelude.{◌≡◌, ◌≢◌, ◌∷◌, [], Ok, Err, codes, IfOk, IfErr, MatchOption, MatchResult, OnOk, option_map, option_copied, false, true};
ghost use Rattle.std.specs.Str.{is_utf8};
ghost use Rattle.ow_value.specs.Find.{merge};
ghost use Rattle.ow_value.specs.Value.{members_of, object, text};
ghost use Rattle.ow_value.specs.View.{view};
ghost use Rattle.ow_http.specs.Headers.{last_named};
ghost use Rattle.ow_http.specs.Query.{pairs_of};
ghost use Rattle.ow_http.specs.Request.{parts_of};
ghost use Rattle.ow_web.specs.Media.{media_of};
ghost use Rattle.ow_web.specs.Params.{seen_headers, texts_of, unreserved};
ghost use Rattle.ow_web.specs.WebIn.{added_of, body_param, called, given_as, given_by, given_of, is_let_in, is_told, members_in, method_text, object_of, path_after, raw_given, slashed, text_of, web_in};

use crate::fields::put;
use crate::media::{Media, media_of};
use crate::params::{seen_headers, texts_of, unreserved};
use crate::refusal::WebRefusal;
use crate::target::extension_of;
use ow_entity::is_set;
use ow_http::{Request, Route, Verb, last_named, read_pairs};
use ow_packages::Effective;
use ow_value::{
    Fields, NoMemory, Params, PlainData, Str, Val, ValueRefusal, kept_beside, merge, read_val,
    val_text,
};
use std::alloc::Global;
use std::str;

/// The parameters that a request gives a web action, overlaid with the parameters that the service adds. `known` says whether
/// the office table has the request's key. Whether a parameter may be given isn't checked here.
pub fn web_request(
    alloc: Global,
    request: &Request,
    e: &Effective,
    known: bool,
) -> Result<Params, WebRefusal>
    ensures value { MatchResult result (λ ps. web_in (parts_of request.now) e.now known ≡ Ok ps)
        (λ r. r ≢ WebRefusal.NoMemory → web_in (parts_of request.now) e.now known ≡ Err r) }
    ensures of_request { IfErr result (λ r. r ≢ WebRefusal.BadWebResult) }
{
    params_given(alloc, request, e, known)
}

fn params_given(
    alloc: Global,
    request: &Request,
    e: &Effective,
    known: bool,
) -> Result<Params, WebRefusal>
    ensures { MatchResult result (λ ps. web_in (parts_of request.now) e.now known ≡ Ok ps)
        (λ r. r ≢ WebRefusal.NoMemory → web_in (parts_of request.now) e.now known ≡ Err r) }
{
    let notes = e.action.get().notes.get();
    check_called(alloc, request, notes, known)?;
    let given = given_of(alloc, is_set(notes, "raw-http"), request)?;
    let (given, added) = kept_beside(given, added_of(alloc, request))?;
    over(alloc, &given, &added)
}

// The second parameters over the first.
fn over(alloc: Global, below: &Params, above: &Params) -> Result<Params, WebRefusal>
    ensures { MatchResult result (λ ps. ps ≡ merge below.now above.now) (λ e. e ≡ WebRefusal.NoMemory) }
{
    Ok(merge(alloc, below, above)?)
}

// Checks that the action is open to the web, the extension is known, and the caller is let in.
fn check_called(
    alloc: Global,
    request: &Request,
    notes: &Params,
    known: bool,
) -> Result<(), WebRefusal>
    ensures { MatchResult result (λ u. called notes.now (parts_of request.now) known ≡ Ok u)
        (λ r. r ≢ WebRefusal.NoMemory → called notes.now (parts_of request.now) known ≡ Err r) }
{
    if !is_set(notes, "web-export") {
        return Err(WebRefusal::NotExported);
    }
    if extension_of(&request.route).is_none() {
        return Err(WebRefusal::BadExtension);
    }
    let demand = notes.find("require-whisk-auth");
    if !is_let_in(alloc, demand, request.headers.as_slice(), known)? {
        return Err(WebRefusal::NeedsAuth);
    }
    Ok(())
}

// Whether the annotation's value lets the caller in.
fn is_let_in(
    alloc: Global,
    demand: Option<&Val>,
    headers: &[(Str, Str)],
    known: bool,
) -> Result<bool, NoMemory>
    ensures { IfOk result (λ b. b ≡ is_let_in (option_map (λ v. view v.now) demand.entry) headers.now known) }
{
    match demand {
        Some(Val::Bool(demanded)) => Ok(!*demanded || known),
        Some(Val::Int(n)) => {
            if n.get() == 0 {
                return Ok(true);
            }
            let demand = val_text(alloc, &Val::Int(*n))?;
            Ok(is_told(headers, demand.as_str()))
        }
        Some(Val::Text(demand)) => Ok(is_told(headers, demand.as_str())),
        _ => Ok(true),
    }
}

fn is_told(headers: &[(Str, Str)], demand: &str) -> bool
    ensures { result ≡ is_told demand.now (last_named (codes "x-require-whisk-auth") headers.now) }
{
    match last_named(headers, "x-require-whisk-auth") {
        Some(value) => value.as_str() == demand,
        None => false,
    }
}

// What the request gives by itself.
fn given_of(alloc: Global, raw: bool, request: &Request) -> Result<Params, WebRefusal>
    ensures { MatchResult result (λ ps. given_of raw (parts_of request.now) ≡ Ok ps)
        (λ r. r ≢ WebRefusal.NoMemory → given_of raw (parts_of request.now) ≡ Err r) }
{
    if raw {
        raw_given(alloc, &request.raw_query, request.body.as_slice())
    } else {
        plain_given(alloc, request)
    }
}

fn plain_given(alloc: Global, request: &Request) -> Result<Params, WebRefusal>
    ensures { MatchResult result (λ ps. given_of false (parts_of request.now) ≡ Ok ps)
        (λ r. r ≢ WebRefusal.NoMemory → given_of false (parts_of request.now) ≡ Err r) }
{
    let query = texts_of(alloc, request.query.as_slice())?;
    let kind = media_in(request.headers.as_slice());
    given_as(alloc, kind, query, request.body.as_slice())
}

fn media_in(headers: &[(Str, Str)]) -> Media
    ensures { result ≡ media_of (last_named (codes "content-type") headers.now) }
{
    media_of(last_named(headers, "content-type"))
}

fn given_as(alloc: Global, kind: Media, query: Params, body: &[u8]) -> Result<Params, WebRefusal>
    ensures { MatchResult result (λ ps. given_as kind query body.now ≡ Ok ps)
        (λ r. r ≢ WebRefusal.NoMemory → given_as kind query body.now ≡ Err r) }
{
    if body.is_empty() {
        return unreserved(alloc, query);
    }
    given_by(alloc, kind, query, body)
}

fn given_by(alloc: Global, kind: Media, query: Params, body: &[u8]) -> Result<Params, WebRefusal>
    ensures { MatchResult result (λ ps. given_by kind query body.now ≡ Ok ps)
        (λ r. r ≢ WebRefusal.NoMemory → given_by kind query body.now ≡ Err r) }
{
    match kind {
        Media::Form => {
            let (query, body) = kept_beside(query, form_of(alloc, body))?;
            unreserved_over(alloc, &query, &body)
        }
        Media::Json => {
            let (query, body) = kept_beside(query, object_of(alloc, body))?;
            unreserved_over(alloc, &query, &body)
        }
        Media::Other => other_given(alloc, query, body),
    }
}

fn unreserved_over(alloc: Global, query: &Params, body: &Params) -> Result<Params, WebRefusal>
    ensures { MatchResult result (λ ps. unreserved (merge query.now body.now) ≡ Ok ps)
        (λ r. r ≢ WebRefusal.NoMemory → unreserved (merge query.now body.now) ≡ Err r) }
{
    let given = merge(alloc, query, body)?;
    unreserved(alloc, given)
}

// The body is one parameter, whose name is the service's own.
fn other_given(alloc: Global, query: Params, body: &[u8]) -> Result<Params, WebRefusal>
    ensures { MatchResult result (λ ps. given_by Media.Other query body.now ≡ Ok ps)
        (λ r. r ≢ WebRefusal.NoMemory → given_by Media.Other query body.now ≡ Err r) }
{
    let (query, body) = kept_beside(query, text_of(alloc, body))?;
    let (body, given) = kept_beside(body, unreserved(alloc, query))?;
    let (given, body) = kept_beside(given, body_param(alloc, body))?;
    over(alloc, &given, &body)
}

// Query and body as they came.
fn raw_given(alloc: Global, query: &Str, body: &[u8]) -> Result<Params, WebRefusal>
    ensures { MatchResult result (λ ps. raw_given query.now body.now ≡ Ok ps)
        (λ r. r ≢ WebRefusal.NoMemory → raw_given query.now body.now ≡ Err r) }
{
    let body = text_of(alloc, body)?;
    let (body, query) = kept_beside(body, query.copy(alloc))?;
    Ok(raw_params(alloc, query, body)?)
}

fn raw_params(alloc: Global, query: Str, body: Str) -> Result<Params, NoMemory>
    ensures { IfOk result (λ ps. ps ≡ (codes "__ow_body", text body) ∷ (codes "__ow_query", text query) ∷ []) }
{
    let mut fields = Fields::new(alloc);
    put(alloc, &mut fields, "__ow_body", Val::Text(body))?;
    put(alloc, &mut fields, "__ow_query", Val::Text(query))?;
    fields.into_params()
}

fn body_param(alloc: Global, body: Str) -> Result<Params, NoMemory>
    ensures { IfOk result (λ ps. ps ≡ body_param body) }
{
    let mut fields = Fields::new(alloc);
    put(alloc, &mut fields, "__ow_body", Val::Text(body))?;
    fields.into_params()
}

// The body as a text.
fn text_of(alloc: Global, body: &[u8]) -> Result<Str, WebRefusal>
    ensures { MatchResult result (λ s. text_of body.now ≡ Ok s)
        (λ r. r ≢ WebRefusal.NoMemory → text_of body.now ≡ Err r) }
{
    match utf8_of(body) {
        Some(text) => Ok(Str::of(alloc, text)?),
        None => Err(WebRefusal::NoText),
    }
}

fn utf8_of(bytes: &[u8]) -> Option<&str>
    ensures { MatchOption result (is_utf8 bytes.now ≡ false) (λ s. (s.now ≡ bytes.now) × (is_utf8 bytes.now ≡ true)) }
{
    match str::from_utf8(bytes) {
        Ok(text) => Some(text),
        Err(_) => None,
    }
}

// The parameters of a form.
fn form_of(alloc: Global, body: &[u8]) -> Result<Params, NoMemory>
    ensures { IfOk result (λ ps. ps ≡ texts_of (pairs_of body.now)) }
{
    let pairs = read_pairs(alloc, body)?;
    texts_of(alloc, pairs.as_slice())
}

// The members of the object that the body is.
fn object_of(alloc: Global, body: &[u8]) -> Result<Params, WebRefusal>
    ensures { MatchResult result (λ ps. object_of body.now ≡ Ok ps)
        (λ r. r ≢ WebRefusal.NoMemory → object_of body.now ≡ Err r) }
{
    match read_val(alloc, body) {
        Ok(value) => members_in(value),
        Err(ValueRefusal::NoMemory) => Err(WebRefusal::NoMemory),
        Err(e) => Err(WebRefusal::BadValue(e)),
    }
}

fn members_in(value: Val) -> Result<Params, WebRefusal>
    ensures { result ≡ members_in (view value) }
{
    match value {
        Val::Object(params) => Ok(params),
        _ => Err(WebRefusal::NoObject),
    }
}

// What the service adds.
fn added_of(alloc: Global, request: &Request) -> Result<Params, NoMemory>
    ensures { IfOk result (λ ps. ps ≡ added_of (parts_of request.now)) }
{
    let headers = headers_param(alloc, request.headers.as_slice())?;
    let (headers, path) = kept_beside(headers, path_after(alloc, &request.route))?;
    added_params(alloc, headers, request.method, path)
}

fn headers_param(alloc: Global, headers: &[(Str, Str)]) -> Result<Params, NoMemory>
    ensures { IfOk result (λ ps. ps ≡ texts_of (seen_headers headers.now)) }
{
    let seen = seen_headers(alloc, headers)?;
    texts_of(alloc, seen.as_slice())
}

fn added_params(alloc: Global, headers: Params, method: Verb, path: Str) -> Result<Params, NoMemory>
    ensures { IfOk result (λ ps. ps ≡ (codes "__ow_headers", object (members_of headers))
        ∷ (codes "__ow_method", text (method_text method)) ∷ (codes "__ow_path", text path) ∷ []) }
{
    let mut fields = Fields::new(alloc);
    put_added(alloc, &mut fields, headers, method, path)?;
    fields.into_params()
}

fn put_added(
    alloc: Global,
    fields: &mut Fields,
    headers: Params,
    method: Verb,
    path: Str,
) -> Result<(), NoMemory>
    requires { fields.old ≡ [] }
    ensures { OnOk result (fields.new ≡ (codes "__ow_headers", object (members_of headers))
        ∷ (codes "__ow_method", text (method_text method)) ∷ (codes "__ow_path", text path) ∷ []) }
{
    put(alloc, fields, "__ow_path", Val::Text(path))?;
    put(alloc, fields, "__ow_headers", Val::Object(headers))?;
    let method = Str::of(alloc, method_text(method))?;
    put(alloc, fields, "__ow_method", Val::Text(method))
}

fn method_text(method: Verb) -> &'static str
    ensures { result.now ≡ method_text method }
{
    match method {
        Verb::Get => "get",
        Verb::Put => "put",
        Verb::Post => "post",
        Verb::Delete => "delete",
        Verb::Patch => "patch",
        Verb::Options => "options",
    }
}

// What follows the action's name.
fn path_after(alloc: Global, route: &Route) -> Result<Str, NoMemory>
    ensures { IfOk result (λ s. s ≡ path_after route.now) }
{
    match route {
        Route::Web { rest, .. } => slashed(alloc, rest),
        _ => Ok(Str::empty()),
    }
}

fn slashed(alloc: Global, rest: &Str) -> Result<Str, NoMemory>
    ensures { IfOk result (λ s. s ≡ slashed rest.now) }
{
    if rest.is_empty() {
        return Ok(Str::empty());
    }
    let rest = rest.as_str();
    Str::from_string(format!(in alloc; "/{rest}")?)
}
