// Full names of paths: of the text that a caller writes, and of parts that are cut already.
ghost use Rattle.std.specs.Prelude.{◌≡◌, ◌≢◌, Some, None, Ok, Err, MatchResult};
ghost use Rattle.std.specs.List.{position};
ghost use Rattle.std.specs.Option.{option_copied};
ghost use Rattle.ow_names.specs.Name.{first_fault};
ghost use Rattle.ow_names.specs.Path.{parts, home, named, named_in, of_full_text, resolved};
ghost use Rattle.ow_names.specs.Cut.{AreParts, CutsFirst};
ghost use Rattle.ow_names.specs.Slash.{is_slash};

use crate::full::FullName;
use crate::name::{EntityName, read_name};
use crate::refusal::NameRefusal;
use ow_value::PlainData;
use std::alloc::Global;

// The parts of a text between its slashes.
#[derive(Drop)]
enum Parts<'a> {
    One(&'a [u8]),
    Two(&'a [u8], &'a [u8]),
    Three(&'a [u8], &'a [u8], &'a [u8]),
    Four(&'a [u8], &'a [u8], &'a [u8], &'a [u8]),
    More,
}

/// The full name of a text that is read in the namespace: `name`, `package/name`, `/namespace/name` or
/// `/namespace/package/name`, where `_` means the namespace itself.
pub fn resolve(alloc: Global, text: &str, namespace: &EntityName) -> Result<FullName, NameRefusal>
    ensures { MatchResult result (λ n. resolved namespace.now text.now ≡ Ok n)
        (λ e. e ≢ NameRefusal.NoMemory → resolved namespace.now text.now ≡ Err e) }
{
    match cut(text.as_bytes()) {
        Parts::One(name) => named(alloc, namespace.copy(alloc)?, None, name),
        Parts::Two(package, name) if !package.is_empty() => {
            named(alloc, namespace.copy(alloc)?, Some(package), name)
        }
        Parts::Three(first, home, name) if first.is_empty() => {
            named_in(alloc, namespace, home, None, name)
        }
        Parts::Four(first, home, package, name) if first.is_empty() => {
            named_in(alloc, namespace, home, Some(package), name)
        }
        _ => Err(NameRefusal::BadPath),
    }
}

/// The full name of the parts of a path that is read in the namespace `here`, which `_` means.
pub fn named_in(
    alloc: Global,
    here: &EntityName,
    namespace: &[u8],
    package: Option<&[u8]>,
    name: &[u8],
) -> Result<FullName, NameRefusal>
    ensures { MatchResult result (λ n. named_in here.now namespace.now (option_copied «package».entry) name.now ≡ Ok n)
        (λ e. e ≢ NameRefusal.NoMemory → named_in here.now namespace.now (option_copied «package».entry) name.now ≡ Err e) }
{
    let namespace = read_home(alloc, namespace, here)?;
    named(alloc, namespace, package, name)
}

/// The full name whose text this is: `/namespace/name` or `/namespace/package/name`. The namespace is taken as it is
/// written, also where it is `_`.
pub fn read_full_text(alloc: Global, text: &[u8]) -> Result<FullName, NameRefusal>
    ensures { MatchResult result (λ n. of_full_text text.now ≡ Ok n)
        (λ e. e ≢ NameRefusal.NoMemory → of_full_text text.now ≡ Err e) }
{
    match cut(text) {
        Parts::Three(first, namespace, name) if first.is_empty() => {
            named(alloc, read_name(alloc, namespace)?, None, name)
        }
        Parts::Four(first, namespace, package, name) if first.is_empty() => {
            named(alloc, read_name(alloc, namespace)?, Some(package), name)
        }
        _ => Err(NameRefusal::BadPath),
    }
}

// The namespace of the text, read in the namespace `here`.
fn read_home(alloc: Global, text: &[u8], here: &EntityName) -> Result<EntityName, NameRefusal>
    ensures { MatchResult result (λ n. (n ≡ home here.now text.now) × (first_fault text.now ≡ None))
        (λ e. e ≢ NameRefusal.NoMemory → first_fault text.now ≡ Some e) }
{
    let namespace = read_name(alloc, text)?;
    if text == b"_".as_slice() {
        return Ok(here.copy(alloc)?);
    }
    Ok(namespace)
}

fn named(
    alloc: Global,
    namespace: EntityName,
    package: Option<&[u8]>,
    name: &[u8],
) -> Result<FullName, NameRefusal>
    ensures { MatchResult result (λ n. named namespace (option_copied «package».entry) name.now ≡ Ok n)
        (λ e. e ≢ NameRefusal.NoMemory → named namespace (option_copied «package».entry) name.now ≡ Err e) }
{
    let package = match package {
        Some(package) => Some(read_name(alloc, package)?),
        None => None,
    };
    let name = read_name(alloc, name)?;
    Ok(FullName {
        namespace,
        package,
        name,
    })
}

fn cut(text: &[u8]) -> Parts<'_>
    ensures { AreParts result (parts text.now) }
{
    let Some((first, rest)) = first_part(text) else {
        return Parts::One(text);
    };
    let Some((second, rest)) = first_part(rest) else {
        return Parts::Two(first, rest);
    };
    let Some((third, rest)) = first_part(rest) else {
        return Parts::Three(first, second, rest);
    };
    match first_part(rest) {
        None => Parts::Four(first, second, third, rest),
        Some(_) => Parts::More,
    }
}

// The text before the first slash, and the text after it.
#[tactic(auto, using(crate::proofs::PathLaws::cuts_first, crate::proofs::PathLaws::cuts_none))]
fn first_part(text: &[u8]) -> Option<(&[u8], &[u8])>
    ensures { CutsFirst result text.now }
{
    match first_slash(text) {
        Some(place) => Some((&text[..place], &text[place + 1..])),
        None => None,
    }
}

fn first_slash(text: &[u8]) -> Option<usize>
    ensures { result ≡ position is_slash text.now }
{
    text.iter().position(|b| *b == b'/')
}
