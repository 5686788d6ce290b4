use ow_entity::EntityRefusal;
use ow_http::{Call, CallRefusal, Request, Routes, read_call};
use ow_names::{FullName, full_text, read_name};
use ow_value::{Params, PlainData, Val, write_val};
use std::alloc::Global;
use std::test::Fail;

// The bytes of a request, by its method, the rest of its path, and its body.
fn request_of(alloc: Global, row: &str) -> Result<String, Fail> {
    let Some((method, rest)) = row.split_once(" /") else {
        return Err(Fail::new("no method"));
    };
    let Some((path, body)) = rest.split_once(' ') else {
        return Err(Fail::new("no body"));
    };
    with_length(alloc, method, path, body)
}

fn with_length(alloc: Global, method: &str, path: &str, body: &str) -> Result<String, Fail> {
    let mut text = String::new(alloc);
    push_head(alloc, &mut text, method, path, body.len() as u64)?;
    text.push_str(body)?;
    Ok(text)
}

const START: &str = " /api/v1/namespaces/";

const LENGTH: &str = " HTTP/1.1\r\nContent-Length:";

const END: &str = "\r\n\r\n";

fn push_head(
    alloc: Global,
    out: &mut String,
    method: &str,
    path: &str,
    length: u64,
) -> Result<(), Fail> {
    out.push_str(method)?;
    out.push_str(START)?;
    out.push_str(path)?;
    out.push_str(LENGTH)?;
    push_number(alloc, out, length)?;
    out.push_str(END)?;
    Ok(())
}

fn number_text(alloc: Global, number: u64) -> Result<String, Fail> {
    Ok(format!(in alloc; "{number}")?)
}

// What a request wants, or why it is no call.
fn called(alloc: Global, request: &Request) -> Result<String, Fail> {
    let guest = read_name(alloc, b"guest")?;
    match read_call(alloc, request, &guest) {
        Ok(call) => copied(alloc, &call),
        Err(e) => refused(alloc, &e),
    }
}

fn copied(alloc: Global, call: &Call) -> Result<String, Fail> {
    let copied = call.copy(alloc)?;
    if copied.same(call) {
        shown(alloc, &copied)
    } else {
        Err(Fail::new("another call"))
    }
}

fn refused(alloc: Global, refusal: &CallRefusal) -> Result<String, Fail> {
    let copied = refusal.copy(alloc)?;
    if copied.same(refusal) {
        told(alloc, &copied)
    } else {
        Err(Fail::new("another refusal"))
    }
}

fn is_called(alloc: Global, routes: &Routes, row: &str) -> Result<bool, Fail> {
    let Some((request, expected)) = row.split_once(" -> ") else {
        return Ok(false);
    };
    let bytes = request_of(alloc, request)?;
    let read = routes.read(alloc, bytes.as_bytes())?;
    calls_for(alloc, &read.request, expected)
}

fn calls_for(alloc: Global, request: &Request, expected: &str) -> Result<bool, Fail> {
    let called = called(alloc, request)?;
    Ok(called.as_str() == expected)
}

fn all_are_called(alloc: Global, table: &str) -> Result<bool, Fail> {
    let routes = Routes::new(alloc)?;
    for row in table.lines() {
        if !is_called(alloc, &routes, row)? {
            return Ok(false);
        }
    }
    Ok(true)
}

fn shown(alloc: Global, call: &Call) -> Result<String, Fail> {
    let mut out = String::new(alloc);
    push_call(alloc, &mut out, call)?;
    Ok(out)
}

fn push_call(alloc: Global, out: &mut String, call: &Call) -> Result<(), Fail> {
    push_name(alloc, out, &call.name)?;
    push_flag(out, call.overwrite)?;
    push_flag(out, call.blocking)?;
    push_flag(out, call.result_only)?;
    push_number(alloc, out, call.skip)?;
    push_number(alloc, out, call.limit)?;
    push_flag(out, call.draft.is_some())?;
    push_params(alloc, out, &call.params)?;
    push_status(out, call.active)
}

// The status to which a rule is set, where there is one.
fn push_status(out: &mut String, active: Option<bool>) -> Result<(), Fail> {
    match active {
        Some(true) => push_text(out, "active"),
        Some(false) => push_text(out, "inactive"),
        None => Ok(()),
    }
}

// The parameters after a space, where there are any.
fn push_params(alloc: Global, out: &mut String, params: &Params) -> Result<(), Fail> {
    if params.is_empty() {
        return Ok(());
    }
    push_object(alloc, out, params)
}

fn push_object(alloc: Global, out: &mut String, params: &Params) -> Result<(), Fail> {
    let object = Val::Object(params.copy(alloc)?);
    let written = String::from_utf8(write_val(alloc, &object)?).map_err(|_| "no text")?;
    push_text(out, written.as_str())
}

fn push_name(alloc: Global, out: &mut String, name: &Option<FullName>) -> Result<(), Fail> {
    match name {
        Some(name) => push_full(alloc, out, name),
        None => {
            out.push_str("none")?;
            Ok(())
        }
    }
}

fn push_full(alloc: Global, out: &mut String, name: &FullName) -> Result<(), Fail> {
    let text = full_text(alloc, name)?;
    out.push_str(text.as_str())?;
    Ok(())
}

fn push_flag(out: &mut String, flag: bool) -> Result<(), Fail> {
    push_text(out, if flag { "true" } else { "false" })
}

fn push_number(alloc: Global, out: &mut String, number: u64) -> Result<(), Fail> {
    let text = number_text(alloc, number)?;
    push_text(out, text.as_str())
}

fn told(alloc: Global, refusal: &CallRefusal) -> Result<String, Fail> {
    let mut out = number_text(alloc, refusal.number() as u64)?;
    push_named(&mut out, refusal)?;
    Ok(out)
}

// The query value or the field that a refusal names, after a space.
fn push_named(out: &mut String, refusal: &CallRefusal) -> Result<(), Fail> {
    match refusal {
        CallRefusal::BadQuery { name } => push_text(out, name.as_str()),
        CallRefusal::BadEntity(EntityRefusal::WrongType { name }) => push_text(out, name.as_str()),
        _ => Ok(()),
    }
}

fn push_text(out: &mut String, text: &str) -> Result<(), Fail> {
    out.push(' ')?;
    out.push_str(text)?;
    Ok(())
}

// A request's method and path, its body after a space, and what it calls for: the name, `overwrite`, `blocking`,
// `result`, `skip`, `limit`, whether there is a draft, and the parameters and the status where there are any. Or the number of the refusal, and the field that it names.
const CALLS: &str = "GET /_/actions  -> none false false false 0 30 false
GET /_/actions?limit=0  -> none false false false 0 200 false
GET /_/actions?limit=200&skip=4294967295  -> none false false false 4294967295 200 false
GET /_/actions?limit=1&limit=x  -> none false false false 0 1 false
GET /_/actions?%6cimit=5  -> none false false false 0 5 false
GET /_/actions?other=x&overwrite=maybe&blocking=  -> none false false false 0 30 false
GET /_/actions?limit=201  -> 39 limit
GET /_/actions?limit=x&limit=1  -> 39 limit
GET /_/actions?limit=  -> 39 limit
GET /_/actions?limit  -> 39 limit
GET /_/actions?limit=00  -> 39 limit
GET /_/actions?limit=007  -> 39 limit
GET /_/actions?limit=%2B1  -> 39 limit
GET /_/actions?limit=-1  -> 39 limit
GET /_/actions?skip=4294967296  -> 39 skip
GET /_/actions?skip=18446744073709551616  -> 39 skip
GET /_/actions?skip=x&limit=y  -> 39 skip
GET /_/actions?a=b&limit=y&skip=x  -> 39 limit
GET /%20a/actions  -> 6
PUT /_/actions/n  -> /guest/n false false false 0 0 true
PUT /_/actions/n?overwrite=true {} -> /guest/n true false false 0 0 true
PUT /_/actions/p/n?overwrite=false&limit=x {} -> /guest/p/n false false false 0 0 true
PUT /_/actions/n?overwrite=TRUE {} -> 39 overwrite
PUT /_/actions/n?overwrite= {} -> 39 overwrite
PUT /_/actions/%20?overwrite=1 [ -> 39 overwrite
PUT /_/actions/%20 [ -> 6
PUT /_/actions/a%2Fb {} -> 6
PUT /_/actions/p%20/n {} -> 7
PUT /_/actions/n [ -> 1
PUT /_/actions/n 1.5 -> 2
PUT /_/actions/n [] -> 10 body
PUT /_/actions/n {\"publish\":1,\"parameters\":2} -> 10 parameters
PUT /_/actions/n {\"exec\":{\"kind\":\"x:1\"}} -> 12
PUT /_/packages/p {} -> /guest/p false false false 0 0 true
PUT /_/packages/p?overwrite=true {\"binding\":{\"namespace\":\"lib\",\"name\":\"q\"}} -> /guest/p true false false 0 0 true
PUT /_/packages/p {\"binding\":[]} -> 10 binding
PUT /_/packages/p {\"binding\":{\"namespace\":\"lib\",\"name\":\"\"}} -> 4
GET /_/actions/n?overwrite=x [ -> /guest/n false false false 0 0 false
DELETE /a%20b/actions/p/n [ -> /a b/p/n false false false 0 0 false
DELETE /a%20/actions/n [ -> 7
POST /_/actions/n?blocking=true&result=true  -> /guest/n false true true 0 0 false
POST /_/actions/n {\"b\":1,\"a\":[]} -> /guest/n false false false 0 0 false {\"a\":[],\"b\":1}
POST /_/actions/n [ -> 1
POST /_/actions/n {\"a\":1.5} -> 2
POST /_/actions/n [] -> 10 body
POST /_/actions/n null -> 10 body
POST /_/actions/n?result=1&blocking=2 [ -> 39 result
POST /_/actions/%20 [ -> 6
PUT /_/triggers/n {\"parameters\":[{\"key\":\"a\",\"value\":1}]} -> /guest/n false false false 0 0 true
PUT /_/triggers/n?overwrite=true  -> /guest/n true false false 0 0 true
PUT /_/triggers/n {\"parameters\":{},\"publish\":1} -> 10 parameters
PUT /_/rules/n {\"trigger\":\"t\",\"action\":\"/_/p/a\"} -> /guest/n false false false 0 0 true
PUT /_/rules/n {\"parameters\":1,\"status\":2} -> /guest/n false false false 0 0 true
PUT /_/rules/n {\"annotations\":1,\"publish\":2,\"trigger\":3} -> 10 annotations
PUT /_/rules/n {\"publish\":null,\"trigger\":3} -> 10 publish
PUT /_/rules/n {\"trigger\":null,\"action\":\"\"} -> 10 trigger
PUT /_/rules/n {\"trigger\":\"t\",\"action\":\"\"} -> 4
PUT /_/rules/n {\"trigger\":\"t\",\"action\":2} -> 10 action
PUT /_/rules/n {\"trigger\":\"p//t\",\"action\":2} -> 8
POST /_/triggers/n  -> /guest/n false false false 0 0 false
POST /_/triggers/n {\"a\":1} -> /guest/n false false false 0 0 false {\"a\":1}
POST /_/triggers/n [ -> 1
POST /_/triggers/n?blocking=2 {\"a\":1.5} -> 2
POST /_/triggers/n [] -> 10 body
POST /_/rules/n {\"status\":\"active\"} -> /guest/n false false false 0 0 false active
POST /_/rules/n {\"status\":\"inactive\",\"a\":1} -> /guest/n false false false 0 0 false inactive
POST /_/rules/n  -> 9
POST /_/rules/n [ -> 1
POST /_/rules/n {\"status\":true} -> 10 status
POST /_/rules/n {\"status\":null} -> 10 status
POST /_/rules/n {\"status\":\"Active\"} -> 11
POST /_/rules/n [] -> 10 body
DELETE /_/rules/n [ -> /guest/n false false false 0 0 false
";

#[test]
fn each_request_has_its_call(rt: HostRuntime) -> Result<(), Fail> {
    assert!(rt; all_are_called(rt.alloc(), CALLS)?);
    Ok(())
}
