// The order of parts of full texts.
ghost use Rattle.std.specs.Prelude.{◌≡◌, [], ◌∷◌, ◌++◌, slice_index_or};
ghost use Rattle.ow_value.specs.Value.{text_cmp};
ghost use Rattle.ow_names.specs.Slash.{HasNoSlash};

use std::cmp::Ordering;

/// The order of two parts, each followed by a slash.
pub(crate) fn order_of_parts(a: &[u8], b: &[u8]) -> Ordering
    requires a_whole { HasNoSlash a.now }
    requires b_whole { HasNoSlash b.now }
    ensures { result ≡ text_cmp (a.now ++ 47 ∷ []) (b.now ++ 47 ∷ []) }
{
    let shared = a.len().min(b.len());
    let start = a[..shared].cmp(&&b[..shared]);
    start.then(byte_or_slash(a, shared).cmp(&byte_or_slash(b, shared)))
}

/// The order of a part followed by a slash, and a last part.
pub(crate) fn order_to_end(part: &[u8], last: &[u8]) -> Ordering
    requires { HasNoSlash last.now }
    ensures { result ≡ text_cmp (part.now ++ 47 ∷ []) last.now }
{
    let shared = part.len().min(last.len());
    let start = part[..shared].cmp(&&last[..shared]);
    if part.len() < last.len() {
        start.then(b'/'.cmp(&last[part.len()]))
    } else {
        start.then(Ordering::Greater)
    }
}

fn byte_or_slash(part: &[u8], place: usize) -> u8
    ensures { result ≡ slice_index_or part.now place 47 }
{
    if place < part.len() {
        part[place]
    } else {
        b'/'
    }
}
