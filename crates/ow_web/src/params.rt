// Parameters that are texts, and names that are reserved.
ghost use Rattle.std.specs.Prelude.{◌≡◌, ◌≢◌, Ok, Err, IfOk, MatchResult, find, option_copied};
ghost use Rattle.std.specs.Map.{keys_of};
ghost use Rattle.ow_web.specs.Params.{is_reserved, is_secret, lowered, seen_headers, texts_of, unreserved};

use crate::refusal::WebRefusal;
use ow_http::is_named;
use ow_value::{Fields, NoMemory, Params, PlainData, Str, Val, copied2};
use std::alloc::Global;

/// The pairs as text parameters. Of equal names the later pair counts.
pub(crate) fn texts_of(alloc: Global, pairs: &[(Str, Str)]) -> Result<Params, NoMemory>
    ensures { IfOk result (λ ps. ps ≡ texts_of pairs.now) }
{
    let mut fields = Fields::new(alloc);
    for pair in pairs {
        let (name, value) = copied2(alloc, &pair.0, &pair.1)?;
        fields.set(name, Val::Text(value))?;
    }
    fields.into_params()
}

/// The headers that an action sees, their names in lower case. The caller's key isn't one of them.
pub(crate) fn seen_headers(
    alloc: Global,
    headers: &[(Str, Str)],
) -> Result<Vec<(Str, Str)>, NoMemory>
    ensures { IfOk result (λ v. v.items ≡ seen_headers headers.now) }
{
    let mut seen = Vec::new(alloc);
    for header in headers {
        if !is_secret(header) {
            seen.push(lowered(alloc, header)?)?;
        }
    }
    Ok(seen)
}

fn is_secret(header: &(Str, Str)) -> bool
    ensures { result ≡ is_secret header.now }
{
    is_named(header, "x-whisk-key")
}

fn lowered(alloc: Global, header: &(Str, Str)) -> Result<(Str, Str), NoMemory>
    ensures { IfOk result (λ h. h ≡ lowered header.now) }
{
    let value = header.1.copy(alloc)?;
    let name = header.0.as_str().to_ascii_lowercase(alloc)?;
    Ok((Str::from_string(name)?, value))
}

/// The parameters, where the service reserves none of their names.
pub(crate) fn unreserved(alloc: Global, given: Params) -> Result<Params, WebRefusal>
    ensures { MatchResult result (λ ps. unreserved given ≡ Ok ps)
        (λ e. e ≢ WebRefusal.NoMemory → unreserved given ≡ Err e) }
{
    match first_reserved(&given) {
        Some(name) => Err(WebRefusal::Reserved {
            name: name.copy(alloc)?,
        }),
        None => Ok(given),
    }
}

fn is_reserved(name: &str) -> bool
    ensures { result ≡ is_reserved name.now }
{
    name.as_bytes().starts_with(b"__ow_".as_slice())
}

fn first_reserved(given: &Params) -> Option<&Str>
    ensures { option_copied result ≡ find is_reserved (keys_of given.now) }
{
    for pair in given.pairs() {
        if is_reserved(pair.name.as_str()) {
            return Some(&pair.name);
        }
    }
    None
}
