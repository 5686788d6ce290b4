// What the path of a web request names.
ghost use Rattle.std.specs.Prelude.{◌≡◌, ◌<◌, ◌≤◌, IfSome, length, reverse, option_copied, true};
ghost use Rattle.std.specs.List.{position};
ghost use Rattle.ow_web.specs.Target.{after_dot, as_target, extension_in, extension_named, extension_of, is_dot, is_web, package_in, target_of, without_extension};

use ow_http::{Request, Route};

/// In which form the result of a web action is answered.
#[derive(Clone, Copy, PartialEq, Eq, Debug, Drop)]
pub enum Extension {
    /// `json`: the whole result.
    Json,
    /// `http`: the status, the headers and the body that the result holds.
    Http,
    /// `text`: the member `text` of the result.
    Text,
}

/// What the path of a web request names. Its parts needn't be names.
#[derive(Clone, Copy, Drop)]
pub struct Target<'a> {
    /// That of the action, which is charged.
    pub namespace: &'a [u8],
    /// None where the path has `default`.
    pub package: Option<&'a [u8]>,
    /// The action's own name, without the extension.
    pub name: &'a [u8],
    /// None where it is unknown.
    pub extension: Option<Extension>,
}

/// The parts of a web request's path. It takes no memory.
pub fn web_target(request: &Request) -> Target<'_>
    requires { is_web request.now.route ≡ true }
    ensures { as_target result ≡ target_of request.now.route }
{
    match &request.route {
        Route::Web {
            namespace,
            package,
            name,
            ..
        } => target_at(namespace.as_slice(), package.as_slice(), name.as_slice()),
        _ => unreachable!(),
    }
}

/// The extension of a web route, if it is known.
pub(crate) fn extension_of(route: &Route) -> Option<Extension>
    ensures { result ≡ extension_of route.now }
{
    match route {
        Route::Web { name, .. } => extension_in(after_dot(name.as_slice()), name.as_slice()),
        _ => None,
    }
}

fn target_at<'a>(namespace: &'a [u8], package: &'a [u8], segment: &'a [u8]) -> Target<'a>
    ensures { as_target result ≡ record {
      namespace = namespace.now;
      «package» = package_in «package».now;
      name = without_extension (after_dot segment.now) segment.now;
      extension = extension_in (after_dot segment.now) segment.now;
    } }
{
    let dot = after_dot(segment);
    Target {
        namespace,
        package: package_in(package),
        name: without_extension(dot, segment),
        extension: extension_in(dot, segment),
    }
}

#[tactic(auto, unfolding(crate::specs::Target::package_in))]
fn package_in(segment: &[u8]) -> Option<&[u8]>
    ensures { option_copied result ≡ package_in segment.now }
{
    if segment == b"default".as_slice() {
        None
    } else {
        Some(segment)
    }
}

// How many bytes follow the last dot, if there is a dot.
fn after_dot(segment: &[u8]) -> Option<usize>
    ensures value { result ≡ after_dot segment.now }
    ensures within { IfSome result (λ n. n < length segment.now) }
{
    segment.iter().rev().position(|b| *b == b'.')
}

fn without_extension(dot: Option<usize>, segment: &[u8]) -> &[u8]
    requires { IfSome dot (λ n. n < length segment.now) }
    ensures { result.now ≡ without_extension dot segment.now }
{
    match dot {
        Some(n) => &segment[..segment.len() - (n + 1)],
        None => segment,
    }
}

fn extension_in(dot: Option<usize>, segment: &[u8]) -> Option<Extension>
    requires { IfSome dot (λ n. n < length segment.now) }
    ensures { result ≡ extension_in dot segment.now }
{
    match dot {
        Some(n) => extension_named(&segment[segment.len() - n..]),
        None => Some(Extension::Http),
    }
}

#[tactic(auto, unfolding(crate::specs::Target::extension_named))]
fn extension_named(word: &[u8]) -> Option<Extension>
    ensures { result ≡ extension_named word.now }
{
    if word == b"json".as_slice() {
        Some(Extension::Json)
    } else if word == b"http".as_slice() {
        Some(Extension::Http)
    } else if word == b"text".as_slice() {
        Some(Extension::Text)
    } else {
        None
    }
}
