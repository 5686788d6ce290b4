// What is read of bytes, compared with rows of tables.
use ow_entity::EntityKind;
use ow_http::{HttpRefusal, Part, Request, Route, Routes};
use ow_value::Bytes;
use std::alloc::Global;
use std::test::Fail;

/// Whether the requests that a table names between the two texts are read, or refused, as it says.
pub(crate) fn all_are_judged(
    alloc: Global,
    before: &str,
    table: &str,
    after: &str,
) -> Result<bool, Fail> {
    let routes = Routes::new(alloc)?;
    for row in table.lines() {
        if !is_judged(alloc, &routes, before, row, after)? {
            return Ok(false);
        }
    }
    Ok(true)
}

/// Whether the bytes are read as this, or refused so, by routes made for it.
pub(crate) fn is_told(alloc: Global, bytes: &[u8], expected: &str) -> Result<bool, Fail> {
    let routes = Routes::new(alloc)?;
    reads_as(alloc, &routes, bytes, expected)
}

/// Whether the bytes are read as this, or refused so.
pub(crate) fn reads_as(
    alloc: Global,
    routes: &Routes,
    bytes: &[u8],
    expected: &str,
) -> Result<bool, Fail> {
    let read = told(alloc, routes, bytes)?;
    Ok(read.as_slice() == expected.as_bytes())
}

/// The pieces as one text.
pub(crate) fn joined(alloc: Global, pieces: &[&str]) -> Result<String, Fail> {
    let mut text = String::new(alloc);
    for piece in pieces {
        text.push_str(piece)?;
    }
    Ok(text)
}

// A row's front as a request between two texts, with the end of a line for each bar.
fn request_of(alloc: Global, before: &str, row: &str, after: &str) -> Result<String, Fail> {
    let text = joined(alloc, &[before, row, after])?;
    Ok(text.replace(alloc, '|', "\r\n")?)
}

fn is_judged(
    alloc: Global,
    routes: &Routes,
    before: &str,
    row: &str,
    after: &str,
) -> Result<bool, Fail> {
    let Some((request, expected)) = row.split_once(" -> ") else {
        return Ok(false);
    };
    let request = request_of(alloc, before, request, after)?;
    reads_as(alloc, routes, request.as_bytes(), expected)
}

// The route that is read, and whether the connection is to end; or the number of the refusal.
fn told(alloc: Global, routes: &Routes, bytes: &[u8]) -> Result<Vec<u8>, Fail> {
    match routes.read(alloc, bytes) {
        Ok(read) => shown(alloc, &read.request),
        Err(e) => numbered(alloc, e),
    }
}

fn shown(alloc: Global, request: &Request) -> Result<Vec<u8>, Fail> {
    let mut out = Vec::new(alloc);
    push_request(&mut out, request)?;
    Ok(out)
}

fn numbered(alloc: Global, refusal: HttpRefusal) -> Result<Vec<u8>, Fail> {
    let number = refusal.number();
    Ok(format!(in alloc; "{number}")?.into_bytes())
}

// A word for a route, then its parts.
fn push_route(out: &mut Vec<u8>, route: &Route) -> Result<(), Fail> {
    match route {
        Route::Namespaces => push_parts(out, "namespaces", &[]),
        Route::List { namespace, kind } => push_parts(out, list_word(*kind), &[namespace]),
        Route::Entity {
            namespace,
            kind,
            package: Some(package),
            name,
        } => push_parts(out, word_of(*kind), &[namespace, package, name]),
        Route::Entity {
            namespace,
            kind,
            package: None,
            name,
        } => push_parts(out, word_of(*kind), &[namespace, name]),
        Route::Activations { namespace } => push_parts(out, "activations", &[namespace]),
        Route::Activation {
            namespace,
            id,
            part,
        } => push_parts(out, part_word(*part), &[namespace, id]),
        Route::Web {
            namespace,
            package,
            name,
            rest,
        } => push_web(out, &[namespace, package, name], rest.as_str()),
    }
}

fn push_web(out: &mut Vec<u8>, parts: &[&Bytes], rest: &str) -> Result<(), Fail> {
    push_parts(out, "web", parts)?;
    push_word(out, rest.as_bytes())
}

fn push_parts(out: &mut Vec<u8>, word: &str, parts: &[&Bytes]) -> Result<(), Fail> {
    out.extend_from_slice(word.as_bytes())?;
    for part in parts {
        push_word(out, part.as_slice())?;
    }
    Ok(())
}

fn list_word(kind: EntityKind) -> &'static str {
    match kind {
        EntityKind::Action => "actions",
        EntityKind::Package => "packages",
        EntityKind::Rule => "rules",
        EntityKind::Trigger => "triggers",
    }
}

fn word_of(kind: EntityKind) -> &'static str {
    match kind {
        EntityKind::Action => "action",
        EntityKind::Package => "package",
        EntityKind::Rule => "rule",
        EntityKind::Trigger => "trigger",
    }
}

fn part_word(part: Part) -> &'static str {
    match part {
        Part::Whole => "record",
        Part::Response => "result",
        Part::Logs => "logs",
    }
}

fn push_word(out: &mut Vec<u8>, word: &[u8]) -> Result<(), Fail> {
    out.push(b' ')?;
    out.extend_from_slice(word)?;
    Ok(())
}

fn push_request(out: &mut Vec<u8>, request: &Request) -> Result<(), Fail> {
    push_route(out, &request.route)?;
    if request.close {
        push_word(out, b"ends")?;
    }
    Ok(())
}
