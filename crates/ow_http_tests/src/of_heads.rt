use crate::judging::{all_are_judged, is_told, reads_as};
use ow_http::Routes;
use std::alloc::Global;
use std::test::Fail;

// A request, with a bar for the end of each line, and its route or the number of the refusal.
const HEADS: &str = "PUT /api/v1/namespaces/_/actions/n HTTP/1.1|Host: h|| -> action _ n
PUT /api/v1/namespaces/_/actions/n HTTP/1.1|Content-Length: 3||abc -> action _ n
PUT /api/v1/namespaces/_/actions/n HTTP/1.1|content-length: 003||abcd -> action _ n
PUT /api/v1/namespaces/_/actions/n HTTP/1.1|Content-Encoding: identity|| -> action _ n
PUT /api/v1/namespaces/_/actions/n HTTP/1.1|Expect: 100-continue|Content-Length: 0|| -> action _ n
PUT /api/v1/namespaces/_/actions/n HTTP/1.1|X-Name: \u{e4}|| -> action _ n
PUT /api/v1/namespaces/_/actions/n HTTP/1.1|Connection: keep-alive|| -> action _ n
PUT /api/v1/namespaces/_/actions/n HTTP/1.1|coNNection: cLose|| -> action _ n ends
PUT /api/v1/namespaces/_/actions/n HTTP/1.1|Connection: keep-alive|Connection: close|| -> action _ n ends
PUT /api/v1/namespaces/_/actions/n HTTP/1.1|Content-Length: 4||abc -> 40
PUT /api/v1/namespaces/_/actions/n HTTP/1.1|Content-Length: 4194304|| -> 40
PUT /api/v1/namespaces/_/actions/n HTTP/1.1|Content-Length: 4194305|| -> 38
PUT /api/v1/namespaces/_/actions/n HTTP/1.1|Content-Length: 18446744073709551615|| -> 38
PUT /api/v1/namespaces/_/actions/n HTTP/1.1|Content-Length: 18446744073709551616|| -> 35
PUT /api/v1/namespaces/_/actions/n HTTP/1.1|Content-Length: +3||abc -> 35
PUT /api/v1/namespaces/_/actions/n HTTP/1.1|Content-Length:|| -> 35
PUT /api/v1/namespaces/_/actions/n HTTP/1.1|Content-Length: 1|content-length: 1||a -> 35
PUT /api/v1/namespaces/_/actions/n HTTP/1.1|Transfer-Encoding: identity|| -> 35
PUT /api/v1/namespaces/_/actions/n HTTP/1.1|Content-Encoding: gzip|| -> 35
PUT /api/v1/namespaces/_/actions/n HTTP/1.1|Content-Encoding: Identity|| -> 35
PUT /api/v1/namespaces/_/actions/n HTTP/1.1|Content-Encoding:|| -> 35
PUT /api/v1/namespaces/_/actions/n HTTP/1.1|no colon|| -> 35
PUT /api/v1/namespaces/_/actions/n HTTP/1.1| -> 40
PUT /api/v1/namespaces/_/actions/n HTTP/1.1|Content-Le -> 40
PUT /api/v1/namespaces/_/actions/n HTTP/1.1|Transfer-Encoding: chunked| -> 40
GET /api/v1/namespaces HTTP/1.0|| -> namespaces ends
GET /api/v1/namespaces HTTP/1.0|Connection: keep-alive|| -> namespaces ends
GET /api/v1/namespaces HTTP/1.2|| -> 35
GET /api/v1/namespaces|| -> 35
PATCH /nowhere HTTP/1.1|| -> 36
PATCH /api/v1/namespaces HTTP/1.1|Content-Length: 4194305|| -> 37
PATCH /nowhere HTTP/1.1|Content-Encoding: gzip|| -> 35
";

#[test]
fn heads_and_bodies_are_refused_in_their_order(rt: HostRuntime) -> Result<(), Fail> {
    assert!(rt; all_are_judged(rt.alloc(), "", HEADS, "")?);
    Ok(())
}

// A request with `more` headers before its last one, and `filling` bytes in the value of that.
fn long_head(alloc: Global, more: usize, filling: usize) -> Result<String, Fail> {
    let mut head = String::new(alloc);
    push_head(&mut head, more, filling)?;
    Ok(head)
}

fn push_head(head: &mut String, more: usize, filling: usize) -> Result<(), Fail> {
    push_times(head, FIRST_LINE, 1)?;
    push_times(head, ONE_MORE, more)?;
    push_times(head, "x: ", 1)?;
    push_times(head, "y", filling)?;
    push_times(head, END, 1)
}

const FIRST_LINE: &str = "GET /api/v1/namespaces HTTP/1.1\r\n";

const ONE_MORE: &str = "a: b\r\n";

const END: &str = "\r\n\r\n";

fn push_times(head: &mut String, piece: &str, times: usize) -> Result<(), Fail> {
    for _ in 0..times {
        head.push_str(piece)?;
    }
    Ok(())
}

fn is_limited(alloc: Global, more: usize, filling: usize, expected: &str) -> Result<bool, Fail> {
    let head = long_head(alloc, more, filling)?;
    is_told(alloc, head.as_bytes(), expected)
}

#[test]
fn heads_have_their_limits(rt: HostRuntime) -> Result<(), Fail> {
    let alloc = rt.alloc();
    assert!(rt; is_limited(alloc, 0, 65496, "namespaces")?);
    assert!(rt; is_limited(alloc, 0, 65497, "35")?);
    assert!(rt; is_limited(alloc, 99, 1, "namespaces")?);
    assert!(rt; is_limited(alloc, 100, 1, "35")?);
    Ok(())
}

const WRONG_TARGET: &[u8] = b"GET /api/v1/namespaces?\xff HTTP/1.1\r\n\r\n";

const WRONG_VALUE: &[u8] = b"GET /api/v1/namespaces HTTP/1.1\r\nx: \xff\r\n\r\n";

#[test]
fn heads_are_text(rt: HostRuntime) -> Result<(), Fail> {
    let alloc = rt.alloc();
    assert!(rt; is_told(alloc, WRONG_TARGET, "35")?);
    assert!(rt; is_told(alloc, WRONG_VALUE, "35")?);
    Ok(())
}

const WHOLE: &str = "PUT /api/v1/namespaces/_/actions/n HTTP/1.0\r\nContent-Length: 2\r\n\r\n{}";

fn fronts_are_cut_short(alloc: Global, whole: &[u8]) -> Result<bool, Fail> {
    let routes = Routes::new(alloc)?;
    for end in 0..whole.len() {
        if !reads_as(alloc, &routes, &whole[..end], "40")? {
            return Ok(false);
        }
    }
    Ok(true)
}

#[test]
fn each_front_of_a_request_is_cut_short(rt: HostRuntime) -> Result<(), Fail> {
    let alloc = rt.alloc();
    assert!(rt; fronts_are_cut_short(alloc, WHOLE.as_bytes())?);
    assert!(rt; is_told(alloc, WHOLE.as_bytes(), "action _ n ends")?);
    Ok(())
}
