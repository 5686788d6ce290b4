// The values of a query that count for what is called for.
ghost use Rattle.std.specs.Prelude.{◌≡◌, codes, option_copied};
ghost use Rattle.ow_http.specs.Values.{first_named, first_wrong, flag_of, is_flag, is_invocation, is_number_to, is_page, is_right, is_wrong, limit_of, number_or};

use crate::call_kind::CallKind;
use ow_value::{Str, decimal_of};

/// How many rows a list has at most, where the query gives no limit.
const LISTED: u64 = 30;

/// How many rows a list has at most.
const MOST_LISTED: u64 = 200;

/// How many rows of a list are passed over at most.
const MOST_SKIPPED: u64 = 4294967295;

/// The first pair whose value is wrong. The first pair of a name counts.
pub(crate) fn first_wrong(kind: CallKind, query: &[(Str, Str)]) -> Option<&(Str, Str)>
    ensures { option_copied result ≡ first_wrong kind query.now }
{
    query.iter().find(|pair| is_wrong(kind, query, pair))
}

/// Whether the first value of the name is `true`.
pub(crate) fn flag_of(query: &[(Str, Str)], name: &str) -> bool
    ensures { result ≡ flag_of name.now query.now }
{
    match first_named(query, name) {
        Some(value) => value.as_str() == "true",
        None => false,
    }
}

/// The first value of `skip`.
pub(crate) fn skip_of(query: &[(Str, Str)]) -> u64
    ensures { result ≡ number_or 0 (first_named (codes "skip") query.now) }
{
    number_or(0, first_named(query, "skip"))
}

/// How many rows a list has at most, by the first value of `limit`.
#[tactic(auto, unfolding(crate::specs::Values::limit_of))]
pub(crate) fn limit_of(query: &[(Str, Str)]) -> u64
    ensures { result ≡ limit_of query.now }
{
    let limit = number_or(LISTED, first_named(query, "limit"));
    if limit == 0 { MOST_LISTED } else { limit }
}

fn number_or(default: u64, value: Option<&Str>) -> u64
    ensures { result ≡ number_or default (option_copied value.entry) }
{
    match value {
        Some(value) => match decimal_of(value.as_str().as_bytes()) {
            Some(n) => n,
            None => default,
        },
        None => default,
    }
}

fn first_named<'a>(query: &'a [(Str, Str)], name: &str) -> Option<&'a Str>
    ensures { option_copied result ≡ first_named name.now query.now }
{
    match query.iter().find(|pair| pair.0.as_str() == name) {
        Some(pair) => Some(&pair.1),
        None => None,
    }
}

// Whether the value is wrong, and the one that counts for its name is too.
#[tactic(auto, unfolding(crate::specs::Values::is_wrong))]
fn is_wrong(kind: CallKind, query: &[(Str, Str)], pair: &(Str, Str)) -> bool
    ensures { result ≡ is_wrong kind query.now pair.now }
{
    if is_right(kind, pair.0.as_str(), pair.1.as_str()) {
        return false;
    }
    match first_named(query, pair.0.as_str()) {
        Some(value) => !is_right(kind, pair.0.as_str(), value.as_str()),
        None => false,
    }
}

fn is_right(kind: CallKind, name: &str, value: &str) -> bool
    ensures { result ≡ is_right kind name.now value.now }
{
    match kind {
        CallKind::ListEntities(_) | CallKind::ListActivations => is_page(name, value),
        CallKind::PutEntity(_) => name != "overwrite" || is_flag(value),
        CallKind::Invoke => is_invocation(name, value),
        _ => true,
    }
}

#[tactic(auto, unfolding(crate::specs::Values::is_page))]
fn is_page(name: &str, value: &str) -> bool
    ensures { result ≡ is_page name.now value.now }
{
    if name == "limit" {
        is_number_to(MOST_LISTED, value)
    } else if name == "skip" {
        is_number_to(MOST_SKIPPED, value)
    } else {
        true
    }
}

#[tactic(auto, unfolding(crate::specs::Values::is_invocation))]
fn is_invocation(name: &str, value: &str) -> bool
    ensures { result ≡ is_invocation name.now value.now }
{
    if name == "blocking" || name == "result" {
        is_flag(value)
    } else {
        true
    }
}

fn is_flag(value: &str) -> bool
    ensures { result ≡ is_flag value.now }
{
    value == "true" || value == "false"
}

fn is_number_to(most: u64, value: &str) -> bool
    ensures { result ≡ is_number_to most value.now }
{
    match decimal_of(value.as_bytes()) {
        Some(n) => n <= most,
        None => false,
    }
}
