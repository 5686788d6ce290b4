// The parts of a path.
ghost use Rattle.std.specs.Prelude.{◌≡◌, ◌≤◌, length, IfOk, true};
ghost use Rattle.std.specs.List.{before_first, after_first, position_or_len};
ghost use Rattle.std.specs.Str.Lossy.{utf8_lossy};
ghost use Rattle.percent_encoding.specs.Percent.{percent_decode};
ghost use Rattle.ow_http.specs.Route.{is_whole};
ghost use Rattle.ow_http.specs.RouteAt.{route_at, web_route};
ghost use Rattle.ow_names.specs.Slash.{is_slash};
ghost use Rattle.ow_http.specs.Segment.{after_slashes, part_at};

use crate::place::Place;
use crate::route::Route;
use ow_entity::EntityKind;
use ow_value::{Bytes, NoMemory, Str, kept_beside};
use std::alloc::Global;

/// The route of a path that names this place.
pub(crate) fn route_at(alloc: Global, place: Place, path: &str) -> Result<Route, NoMemory>
    ensures route { IfOk result (λ r. r ≡ route_at place path.now) }
    ensures whole { IfOk result (λ r. is_whole r ≡ true) }
{
    let path = path.as_bytes();
    match place {
        Place::Namespaces => Ok(Route::Namespaces),
        Place::List(kind) => Ok(Route::List {
            namespace: part_at(alloc, path, 4)?,
            kind,
        }),
        Place::Entity(kind) => {
            let (namespace, name) = two_parts_at(alloc, path, 4, 6)?;
            Ok(Route::Entity {
                namespace,
                kind,
                package: None,
                name,
            })
        }
        Place::Packaged => {
            let ((namespace, package), name) = three_parts_at(alloc, path, 4, 6, 7)?;
            Ok(Route::Entity {
                namespace,
                kind: EntityKind::Action,
                package: Some(package),
                name,
            })
        }
        Place::Activations => Ok(Route::Activations {
            namespace: part_at(alloc, path, 4)?,
        }),
        Place::Activation(part) => {
            let (namespace, id) = two_parts_at(alloc, path, 4, 6)?;
            Ok(Route::Activation {
                namespace,
                id,
                part,
            })
        }
        Place::Web => web_route(alloc, path, Str::empty()),
        Place::WebRest => web_route(alloc, path, decoded_text(alloc, after_slashes(path, 7))?),
    }
}

fn web_route(alloc: Global, path: &[u8], rest: Str) -> Result<Route, NoMemory>
    ensures { IfOk result (λ r. r ≡ web_route path.now rest) }
{
    let ((namespace, package), name) = three_parts_at(alloc, path, 4, 5, 6)?;
    Ok(Route::Web {
        namespace,
        package,
        name,
        rest,
    })
}

fn two_parts_at(alloc: Global, path: &[u8], n: u8, m: u8) -> Result<(Bytes, Bytes), NoMemory>
    ensures { IfOk result (λ r. r ≡ (part_at n path.now, part_at m path.now)) }
{
    kept_beside(part_at(alloc, path, n)?, part_at(alloc, path, m))
}

fn three_parts_at(
    alloc: Global,
    path: &[u8],
    n: u8,
    m: u8,
    k: u8,
) -> Result<((Bytes, Bytes), Bytes), NoMemory>
    ensures { IfOk result (λ r. r ≡ ((part_at n path.now, part_at m path.now), part_at k path.now)) }
{
    kept_beside(two_parts_at(alloc, path, n, m)?, part_at(alloc, path, k))
}

#[tactic(auto, unfolding(crate::specs::Segment::part_at))]
fn part_at(alloc: Global, path: &[u8], n: u8) -> Result<Bytes, NoMemory>
    ensures { IfOk result (λ b. b ≡ part_at n path.now) }
{
    let segment = before_slash(after_slashes(path, n));
    let mut decoded = Vec::new(alloc);
    percent_encoding::percent_decode(segment).append_to(&mut decoded)?;
    Bytes::from_vec(decoded)
}

// Percent-decoded text, with U+FFFD for what isn't UTF-8.
fn decoded_text(alloc: Global, bytes: &[u8]) -> Result<Str, NoMemory>
    ensures { IfOk result (λ s. s ≡ utf8_lossy (percent_decode bytes.now)) }
{
    let text = percent_encoding::percent_decode(bytes).decode_utf8_lossy(alloc)?;
    Str::of(alloc, text.as_str())
}

fn after_slashes(path: &[u8], n: u8) -> &[u8]
    ensures { result.now ≡ after_slashes n path.now }
{
    if n == 0 {
        path
    } else {
        after_slashes(after_slash(path), n - 1)
    }
}

fn after_slash(path: &[u8]) -> &[u8]
    ensures { result.now ≡ after_first is_slash path.now }
{
    let place = slash_place(path);
    if place < path.len() {
        &path[place + 1..]
    } else {
        &path[path.len()..]
    }
}

fn before_slash(path: &[u8]) -> &[u8]
    ensures { result.now ≡ before_first is_slash path.now }
{
    &path[..slash_place(path)]
}

// The place of the first slash, or the length.
fn slash_place(path: &[u8]) -> usize
    ensures place { result ≡ position_or_len is_slash path.now }
    ensures within { result ≤ length path.now }
{
    for (i, b) in path.iter().enumerate() {
        if *b == b'/' {
            return i;
        }
    }
    path.len()
}
