// What single fields of a row say.
ghost use Rattle.std.specs.Prelude.{◌≡◌, ◌≢◌, Some, None, true, false, MatchResult};
ghost use Rattle.std.specs.List.{list_all};
ghost use Rattle.std.specs.Str.{is_utf8};
ghost use Rattle.ow_value.specs.Decimal.{number_within};
ghost use Rattle.ow_tenant.specs.Row.{is_empty, is_key, is_key_byte, is_name, is_text, kind_of, limit_or, limits_of_fields, may_be_listed, right_of};

use crate::limits::NamespaceLimits;
use crate::line::RowFault;
use crate::rights::Right;
use ow_names::{EntityName, NameRefusal, check_name, read_name};
use ow_traits::Kind;
use ow_value::{Str, decimal_of};
use std::alloc::Global;

// The number, if it lies between these two.
pub(crate) fn number_within(least: u32, most: u32, text: &[u8]) -> Option<u32>
    ensures { result ≡ number_within least most text.now }
{
    let n = decimal_of(text)?;
    if u64::from(least) <= n && n <= u64::from(most) {
        Some(n as u32)
    } else {
        None
    }
}

fn limit_or(default: u32, text: &[u8]) -> Option<u32>
    ensures { result ≡ limit_or default text.now }
{
    if text.is_empty() {
        return Some(default);
    }
    number_within(0, u32::MAX, text)
}

pub(crate) fn read_limits(a: &[u8], b: &[u8], c: &[u8]) -> Option<NamespaceLimits>
    ensures { result ≡ limits_of_fields a.now b.now c.now }
{
    let per_minute = limit_or(120, a)?;
    let concurrent = limit_or(100, b)?;
    let fires = limit_or(60, c)?;
    Some(NamespaceLimits {
        per_minute,
        concurrent,
        fires,
    })
}

pub(crate) fn is_empty(text: &[u8]) -> bool
    ensures { result ≡ is_empty text.now }
{
    text.is_empty()
}

pub(crate) fn is_name(text: &[u8]) -> bool
    ensures { result ≡ is_name text.now }
{
    match check_name(text) {
        Ok(()) => true,
        Err(_) => false,
    }
}

pub(crate) fn may_be_listed(text: &[u8]) -> bool
    ensures { result ≡ may_be_listed text.now }
{
    is_name(text) && text != b"_".as_slice() && text != b"whisk.system".as_slice()
}

pub(crate) fn is_key(text: &[u8]) -> bool
    ensures { result ≡ is_key text.now }
{
    1 <= text.len() && text.len() <= 128 && are_key_bytes(text)
}

fn are_key_bytes(text: &[u8]) -> bool
    ensures { result ≡ list_all is_key_byte text.now }
{
    text.iter().all(|b| is_key_byte(*b))
}

fn is_key_byte(byte: u8) -> bool
    ensures { result ≡ is_key_byte byte }
{
    33 <= byte && byte <= 126
}

pub(crate) fn is_utf8(text: &[u8]) -> bool
    ensures { result ≡ is_utf8 text.now }
{
    match std::str::from_utf8(text) {
        Ok(_) => true,
        Err(_) => false,
    }
}

pub(crate) fn is_text(text: &[u8]) -> bool
    ensures { result ≡ is_text text.now }
{
    !is_empty(text) && is_utf8(text)
}

pub(crate) fn right_of(text: &[u8]) -> Option<Right>
    ensures { result ≡ right_of text.now }
{
    if text == b"read".as_slice() {
        Some(Right::Read)
    } else if text == b"write".as_slice() {
        Some(Right::Write)
    } else if text == b"invoke".as_slice() {
        Some(Right::Invoke)
    } else {
        None
    }
}

pub(crate) fn kind_of(text: &[u8]) -> Option<Kind>
    ensures { result ≡ kind_of text.now }
{
    if text == b"plain:1".as_slice() {
        Some(Kind::Plain)
    } else if text == b"program:1".as_slice() {
        Some(Kind::Program)
    } else {
        None
    }
}

// A copy of the text, where it is one.
pub(crate) fn copy_text(alloc: Global, text: &[u8]) -> Result<Str, RowFault>
    ensures { MatchResult result (λ s. (s ≡ text.now) × (is_utf8 text.now ≡ true)) (λ e. e ≢ RowFault.NoMemory → is_utf8 text.now ≡ false) }
{
    let Ok(text) = std::str::from_utf8(text) else {
        return Err(RowFault::Bad);
    };
    Ok(Str::of(alloc, text)?)
}

// The name, where it is one.
pub(crate) fn copy_name(alloc: Global, text: &[u8]) -> Result<EntityName, RowFault>
    ensures { MatchResult result (λ n. (n ≡ text.now) × (is_name text.now ≡ true)) (λ e. e ≢ RowFault.NoMemory → is_name text.now ≡ false) }
{
    match read_name(alloc, text) {
        Ok(name) => Ok(name),
        Err(NameRefusal::NoMemory) => Err(RowFault::NoMemory),
        Err(_) => Err(RowFault::Bad),
    }
}
