use ow_http::{Read, Request, read_request};
use ow_value::PlainData;
use std::alloc::Global;
use std::test::Fail;

const ASKED: &[u8] =
    b"POST /api/v1/namespaces/_/actions/hello?blocking=true&a=%41+b HTTP/1.0\r\nX-Whisk-Key: k1\r\nx-whisk-key: k2\r\nContent-Length: 2\r\n\r\n{}more";

fn has_key(request: &Request, expected: &str) -> bool {
    match &request.key {
        Some(key) => key.as_str() == expected,
        None => false,
    }
}

fn has_parts(request: &Request) -> bool {
    request.size == 129
        && has_key(request, "k2")
        && request.raw_query.as_str() == "blocking=true&a=%41+b"
        && request.query.len() == 2
        && request.body.as_slice() == b"{}".as_slice()
        && request.close
        && request.headers.len() == 3
}

fn is_copied(alloc: Global, read: &Read) -> Result<bool, Fail> {
    let copied = read.copy(alloc)?;
    Ok(copied.same(read))
}

fn is_asked(alloc: Global, read: &Read) -> Result<bool, Fail> {
    Ok(read.used == 129 && has_parts(&read.request) && is_copied(alloc, read)?)
}

fn is_read(alloc: Global, bytes: &[u8]) -> Result<bool, Fail> {
    let read = read_request(alloc, bytes)?;
    is_asked(alloc, &read)
}

#[test]
fn a_request_has_its_parts(rt: HostRuntime) -> Result<(), Fail> {
    assert!(rt; is_read(rt.alloc(), ASKED)?);
    Ok(())
}
