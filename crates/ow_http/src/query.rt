// Targets, and the pairs of queries and forms.
ghost use Rattle.std.specs.Prelude.{◌≡◌, IfOk};
ghost use Rattle.std.specs.Str.Lossy.{utf8_lossy};
ghost use Rattle.form_urlencoded.specs.Form.{decode};
ghost use Rattle.ow_http.specs.Query.{decoded_pair, pairs_of, path_of, query_of};

use ow_value::{NoMemory, Pairs, Str, kept_beside};
use std::alloc::Global;

/// The pairs of a query or of a form's body (URL Standard, section 5.1). What isn't UTF-8 is read as U+FFFD.
pub fn read_pairs(alloc: Global, input: &[u8]) -> Result<Pairs, NoMemory>
    ensures { IfOk result (λ p. p ≡ pairs_of input.now) }
{
    let mut pairs = Vec::new(alloc);
    for pair in form_urlencoded::raw_pairs(input) {
        pairs.push(decoded_pair(alloc, pair.0, pair.1)?)?;
    }
    Pairs::from_vec(pairs)
}

fn decoded_pair(alloc: Global, name: &[u8], value: &[u8]) -> Result<(Str, Str), NoMemory>
    ensures { IfOk result (λ p. p ≡ decoded_pair (name.now, value.now)) }
{
    kept_beside(decoded_text(alloc, name)?, decoded_text(alloc, value))
}

// The text of a name or a value.
fn decoded_text(alloc: Global, bytes: &[u8]) -> Result<Str, NoMemory>
    ensures { IfOk result (λ s. s ≡ utf8_lossy (decode bytes.now)) }
{
    let text = form_urlencoded::decode(alloc, bytes)?;
    Str::of(alloc, text.as_str())
}

/// What precedes the first `?`.
pub(crate) fn path_of(target: &str) -> &str
    ensures { result.now ≡ path_of target.now }
{
    match target.split_once('?') {
        Some((path, _)) => path,
        None => target,
    }
}

/// What follows the first `?`, or nothing.
pub(crate) fn query_of(target: &str) -> &str
    ensures { result.now ≡ query_of target.now }
{
    match target.split_once('?') {
        Some((_, query)) => query,
        None => "",
    }
}
