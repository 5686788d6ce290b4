// Connections over links in memory.
use ow_desk::{Desk, Issuer, Receipts};
use ow_hall::Hall;
use ow_links::MemoryLink;
use ow_peer::{Ending, connection};
use ow_tenant::Tenants;
use ow_threads::FixedClock;
use ow_traits::{MemoryKeeper, MemorySource, Rows};
use std::alloc::Global;
use std::sync::{Mutex, Wait};
use std::test::Fail;

const TABLE: &str = "namespace,1,guest,,,\nkey,k1,anna,guest,,\n";

const HELLO: &str =
    r#"{"exec":{"kind":"plain:1","code":"{\"cases\":[{\"when\":{},\"give\":{\"greeting\":\"Hello\"}}]}"}}"#;

type Store = MemoryKeeper;

// A desk over the table, and a store whose calls with these numbers fail. The opening makes the calls with the numbers 0 and 1.
fn open(alloc: Global, failing: &[u64]) -> Result<(Desk<Store>, Issuer<Store>), Fail> {
    let mut source = MemorySource::new(TABLE.as_bytes().to_vec(alloc)?, Vec::new(alloc));
    let tenants = Tenants::read(alloc, &mut source)?;
    let store = MemoryKeeper::holding(Rows::new(alloc), failing.to_vec(alloc)?);
    match Hall::start(alloc, store, tenants, 0) {
        Ok(hall) => Ok(Desk::of(hall)),
        Err(_) => Err("not opened")?,
    }
}

// What the peer sends: each line describes a request. `~` marks bytes that are no whole request.
fn request_text(alloc: Global, line: &str) -> Result<String, Fail> {
    if let Some(bytes) = line.strip_prefix('~') {
        return Ok(String::from_str(alloc, bytes)?);
    }
    let (head, key) = line.split_once('|').unwrap_or((line, "k1"));
    let body = if head.starts_with("PUT") { HELLO } else { "" };
    let (close, key) = match key.strip_suffix('!') {
        Some(key) => ("Connection: close\r\n", key),
        None => ("", key),
    };
    let length = body.len();
    Ok(format!(in alloc;
        "{head} HTTP/1.1\r\nX-Whisk-Key: {key}\r\n{close}Content-Length: {length}\r\n\r\n{body}"
    )?)
}

fn sent_by(alloc: Global, lines: &str) -> Result<Vec<u8>, Fail> {
    let mut bytes = Vec::new(alloc);
    for line in lines.split_terminator('\n') {
        let text = request_text(alloc, line)?;
        bytes.extend_from_slice(text.as_bytes())?;
    }
    Ok(bytes)
}

// The status of each reply that was written, and how many bytes that are in all.
fn statuses(alloc: Global, written: &[u8]) -> Result<String, Fail> {
    let mut told = String::new(alloc);
    let mut rest = written;
    for _ in 0..written.len() {
        let Some(at) = rest.windows(9).position(|w| w == b"HTTP/1.1 ".as_slice()) else {
            break;
        };
        rest = rest.get(at + 9..).unwrap_or(&[]);
        for byte in rest.get(..3).unwrap_or(&[]) {
            told.push(char::from(*byte))?;
        }
        told.push(' ')?;
    }
    let length = written.len();
    let all = format!(in alloc; "{told}{length}")?;
    Ok(all)
}

// How the connection of the peer ends, and what the peer received.
fn told<H: Wait>(
    rt: &H,
    alloc: Global,
    lines: &str,
    failing: &[u64],
    link_failing: &[u64],
) -> Result<String, Fail> {
    let (desk, issuer) = open(alloc, failing)?;
    let desk = Mutex::new(desk);
    let mut notes = Receipts::new(alloc, &issuer)?;
    let bytes = sent_by(alloc, lines)?;
    let mut link = MemoryLink::new(alloc, bytes, link_failing.to_vec(alloc)?);
    let ending = connection(rt, alloc, &mut link, &desk, &FixedClock::new(0), &mut notes);
    let statuses = statuses(alloc, link.written())?;
    let (entries, marks) = (notes.entries().len(), notes.marks().len());
    Ok(format!(in alloc; "{ending:?} {statuses}, {entries} {marks}")?)
}

#[test]
fn a_reply_to_each_request(rt: HostRuntime) -> Result<(), Fail> {
    let alloc = rt.alloc();
    for (lines, wanted) in [
        ("", "Ended 0, 0 0"),
        (
            "PUT /api/v1/namespaces/_/actions/hello\n",
            "Ended 200 322, 1 0",
        ),
        (
            "PUT /api/v1/namespaces/_/actions/hello\n~GET /api/v\n",
            "CutShort 200 400 ",
        ),
        (
            "GET /api/v1/namespaces/_/actions/hello\nGET /api/v1/namespaces/_/actions|k2\n",
            "Ended 404 401 ",
        ),
        // A web request needs no key: anybody may learn that the action isn't one of the web.
        (
            "PUT /api/v1/namespaces/_/actions/hello\nGET /api/v1/web/guest/default/hello|k2\n",
            "Ended 200 404 ",
        ),
        (
            "GET /api/v1/namespaces/_/actions|k1!\nGET /api/v1/namespaces/_/actions\n",
            "Closed 200 ",
        ),
        (
            "GET /api/v1/namespaces/_/actions\nGET /elsewhere\nGET /api/v1/namespaces/_/actions\n",
            "Closed 200 404 ",
        ),
        ("~\u{1}\u{2}\n", "Closed 400 "),
    ] {
        let was = told(&rt, alloc, lines, &[], &[])?;
        assert!(rt; was.as_str().starts_with(wanted), "{lines}{was}");
    }
    Ok(())
}

#[test]
fn faults(rt: HostRuntime) -> Result<(), Fail> {
    let alloc = rt.alloc();
    for (store, link, wanted) in [
        (&[2u64] as &[u64], &[] as &[u64], "Ended 503 404 "),
        (&[], &[0], "ReadFault 0, 0 0"),
        (&[], &[1], "WriteFault 0, 1 0"),
        (&[], &[2], "WriteFault 200 322, 2 0"),
    ] {
        let lines =
            "PUT /api/v1/namespaces/_/actions/hello\nGET /api/v1/namespaces/_/actions/hello\n";
        let was = told(&rt, alloc, lines, store, link)?;
        assert!(rt; was.as_str().starts_with(wanted), "{was}");
    }
    Ok(())
}
