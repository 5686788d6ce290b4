// Requests and calls over one book.
use ow_decide::{Called, Reply, Told};
use ow_floor::{Drain, Order};
use ow_hall::{Book, Entries, Entry, Hall};
use ow_http::{Answer, Read, Request, read_request, write_reply};
use ow_names::{EntityName, FullName, read_name, resolve};
use ow_tenant::Tenants;
use ow_traits::{MemoryKeeper, MemorySource, Rows, RunReply};
use ow_value::{Lines, Params, Str};
use std::alloc::Global;
use std::test::Fail;

pub(crate) type Office = Hall<MemoryKeeper>;

// One namespace, and one key in it.
const TABLE: &str = "namespace,1,guest,,,\nkey,k1,anna,guest,,\n";

// The body of a put, and what is shown of the action in its first and second versions.
const HELLO: &str =
    r#"{"exec":{"kind":"plain:1","code":"{\"cases\":[{\"when\":{},\"give\":{\"greeting\":\"Hello\"}}]}"}}"#;

const FIRST: &str =
    r#"{"annotations":[],"exec":{"code":"{\"cases\":[{\"when\":{},\"give\":{\"greeting\":\"Hello\"}}]}","kind":"plain:1"},"limits":{"logs":10,"memory":256,"timeout":60000},"name":"hello","namespace":"guest","parameters":[],"publish":false,"version":"0.0.1"}"#;

const SECOND: &str =
    r#"{"annotations":[],"exec":{"code":"{\"cases\":[{\"when\":{},\"give\":{\"greeting\":\"Hello\"}}]}","kind":"plain:1"},"limits":{"logs":10,"memory":256,"timeout":60000},"name":"hello","namespace":"guest","parameters":[],"publish":false,"version":"0.0.2"}"#;

// The body of a put after which the parameter y can't be given.
const FINAL: &str =
    r#"{"annotations":[{"key":"final","value":true}],"parameters":[{"key":"y","value":2}]}"#;

// Method and target, body, status and the body that answers.
const ROWS: &str =
    r#"GET /api/v1/namespaces/_/actions/hello||404 Not Found|{"code":14,"error":"The resource does not exist."}
PUT /api/v1/namespaces/_/actions/hello|HELLO|200 OK|FIRST
PUT /api/v1/namespaces/_/actions/hello|HELLO|409 Conflict|{"code":17,"error":"The resource exists."}
GET /api/v1/namespaces/_/actions/hello||200 OK|FIRST
GET /api/v1/namespaces/_/actions||200 OK|[{"annotations":[],"name":"hello","namespace":"guest","publish":false,"version":"0.0.1"}]
GET /api/v1/namespaces/_/actions?limit=201||400 Bad Request|{"code":39,"error":"The query value limit is wrong."}
GET /api/v1/namespaces/whisk.system/actions/hello||403 Forbidden|{"code":24,"error":"The namespace is not granted."}
GET /api/v1/namespaces/whisk.system/actions?limit=201||403 Forbidden|{"code":24,"error":"The namespace is not granted."}
GET /api/v1/namespaces/_/triggers||200 OK|[]
PUT /api/v1/namespaces/_/actions/other||400 Bad Request|{"code":9,"error":"The field exec is missing."}
PUT /api/v1/namespaces/_/actions/hello|{"exec":1}|400 Bad Request|{"code":10,"error":"The field exec has a wrong type."}
PUT /api/v1/namespaces/_/actions/hello?overwrite=true|HELLO|200 OK|SECOND
DELETE /api/v1/namespaces/guest/actions/hello||200 OK|SECOND
DELETE /api/v1/namespaces/guest/actions/hello||404 Not Found|{"code":14,"error":"The resource does not exist."}
"#;

// What a full book doesn't take.
const WHEN_FULL: &str =
    r#"GET /api/v1/namespaces/_/triggers||503 Service Unavailable|{"code":33,"error":"The book is full."}
POST /api/v1/namespaces/_/actions/hello||503 Service Unavailable|{"code":33,"error":"The book is full."}
GET /api/v1/namespaces/_/actions/hello||503 Service Unavailable|{"code":33,"error":"The book is full."}
"#;

const GET: &str = "GET /api/v1/namespaces/_/actions/hello HTTP/1.1\r\nX-Whisk-Key: k1\r\n\r\n";

// A text of the table: one of those by its name, or itself.
pub(crate) fn text_of(word: &str) -> &str {
    if word == "HELLO" {
        HELLO
    } else if word == "FIRST" {
        FIRST
    } else if word == "SECOND" {
        SECOND
    } else if word == "FINAL" {
        FINAL
    } else {
        word
    }
}

pub(crate) fn office(alloc: Global) -> Result<Office, Fail> {
    office_of(alloc, TABLE)
}

// An office over the table of these rows.
pub(crate) fn office_of(alloc: Global, rows: &str) -> Result<Office, Fail> {
    office_over(alloc, rows, &[])
}

// The same over a store whose calls of these numbers fail, its load being 0 and the commit of the opening 1.
pub(crate) fn office_over(alloc: Global, rows: &str, failing: &[u64]) -> Result<Office, Fail> {
    let mut source = MemorySource::new(rows.as_bytes().to_vec(alloc)?, Vec::new(alloc));
    let tenants = Tenants::read(alloc, &mut source)?;
    let failing = failing.to_vec(alloc)?;
    let store = MemoryKeeper::holding(Rows::new(alloc), failing);
    match Hall::start(alloc, store, tenants, 0) {
        Ok(hall) => Ok(hall),
        Err(_) => Err("not opened")?,
    }
}

// Whether an equal list is made of them.
pub(crate) fn copies(alloc: Global, entries: &Entries) -> Result<bool, Fail> {
    let copied = entries.copy(alloc)?;
    Ok(copied.same(entries))
}

pub(crate) fn written(alloc: Global, answer: &Answer) -> Result<Vec<u8>, Fail> {
    Ok(write_reply(alloc, answer)?)
}

// The bytes of the answer to a request, where it comes at once.
fn reply_to(alloc: Global, hall: &mut Office, request: &Request) -> Result<Vec<u8>, Fail> {
    match hall.ask(alloc, 0, request)? {
        Reply::Now(answer) => written(alloc, &answer),
        Reply::Waiting { .. } => Ok(Vec::new(alloc)),
    }
}

pub(crate) fn asked(alloc: Global, hall: &mut Office, request: &str) -> Result<Vec<u8>, Fail> {
    let read = read_request(alloc, request.as_bytes())?;
    reply_to(alloc, hall, &read.request)
}

// Whether a reply has this status line and this body.
pub(crate) fn shows(alloc: Global, reply: &[u8], status: &str, body: &str) -> Result<bool, Fail> {
    let length = body.len();
    let expected = format!(in alloc;
        "HTTP/1.1 {status}\r\nContent-Type: application/json\r\nContent-Length: {length}\r\n\r\n{body}"
    )?;
    Ok(reply == expected.as_bytes())
}

fn is_answered(
    alloc: Global,
    hall: &mut Office,
    request: &str,
    status: &str,
    body: &str,
) -> Result<bool, Fail> {
    let reply = asked(alloc, hall, request)?;
    shows(alloc, reply.as_slice(), status, body)
}

// A request as curl sends it, with the one key.
pub(crate) fn request_of(alloc: Global, head: &str, body: &str) -> Result<String, Fail> {
    request_by(alloc, "k1", head, body)
}

// A request with this key; `-` means none.
pub(crate) fn request_by(alloc: Global, key: &str, head: &str, body: &str) -> Result<String, Fail> {
    let by = key_line(alloc, key)?;
    let length = body.len();
    Ok(format!(in alloc;
        "{head} HTTP/1.1\r\nHost: localhost\r\nUser-Agent: curl/8.5.0\r\nAccept: */*\r\n{by}Content-Type: application/json\r\nContent-Length: {length}\r\n\r\n{body}"
    )?)
}

fn key_line(alloc: Global, key: &str) -> Result<String, Fail> {
    if key == "-" {
        return Ok(String::new(alloc));
    }
    Ok(format!(in alloc; "X-Whisk-Key: {key}\r\n")?)
}

// Whether a row of the table is answered so.
fn holds(alloc: Global, hall: &mut Office, row: &str) -> Result<bool, Fail> {
    let mut parts = row.split('|');
    let (Some(head), Some(body), Some(status), Some(shown)) = (
        parts.next(),
        parts.next(),
        parts.next(),
        parts.next(),
    ) else {
        return Ok(false);
    };
    let request = request_of(alloc, head, text_of(body))?;
    is_answered(alloc, hall, &request, status, text_of(shown))
}

// Whether each row of a table is answered so.
pub(crate) fn all_hold(alloc: Global, hall: &mut Office, rows: &str) -> Result<bool, Fail> {
    for row in rows.lines() {
        if !holds(alloc, hall, row)? {
            return Ok(false);
        }
    }
    Ok(true)
}

// Whether the rows of the first table are answered so, and booked.
fn answers(alloc: Global, hall: &mut Office) -> Result<bool, Fail> {
    let hold = all_hold(alloc, hall, ROWS)?;
    let entries = hall.book().entries();
    Ok(hold && entries.len() == 15 && copies(alloc, entries)?)
}

#[test]
fn actions_are_put_read_and_deleted(rt: HostRuntime) -> Result<(), Fail> {
    let alloc = rt.alloc();
    let mut hall = office(alloc)?;
    let hold = answers(alloc, &mut hall);
    drop(hall);
    assert!(rt; hold?);
    Ok(())
}

// The status that a request is answered with at once, or 0.
fn status_of(alloc: Global, hall: &mut Office, request: &Request) -> Result<u16, Fail> {
    match hall.ask(alloc, 0, request)? {
        Reply::Now(answer) => Ok(answer.status),
        Reply::Waiting { .. } => Ok(0),
    }
}

// The status of a get that counts `size` bytes.
fn get_of(alloc: Global, hall: &mut Office, size: u64) -> Result<u16, Fail> {
    let Read { mut request, .. } = read_request(alloc, GET.as_bytes())?;
    request.size = size;
    status_of(alloc, hall, &request)
}

// Whether the book takes what it has room for, and no more: a request of the greatest size that a new book has room for, a request that
// is one byte greater, and one more request after them.
fn fills(alloc: Global, hall: &mut Office) -> Result<bool, Fail> {
    let over = get_of(alloc, hall, 1_073_741_697)?;
    let last = get_of(alloc, hall, 1_073_741_696)?;
    let counted = hall.book().counted();
    let next = get_of(alloc, hall, 0)?;
    Ok((over, last, next) == (503, 404, 503) && counted == 1_073_741_874)
}

// Whether a full book takes no request, and takes what no request or call brings.
fn takes_when_full(alloc: Global, hall: &mut Office) -> Result<bool, Fail> {
    let filled = fills(alloc, hall)?;
    let hold = all_hold(alloc, hall, WHEN_FULL)?;
    let ordered = ordered(alloc, hall, 0)?;
    Ok(filled && hold && ordered == 0 && hall.book().entries().len() == 3)
}

#[test]
fn the_book_is_full_at_its_number(rt: HostRuntime) -> Result<(), Fail> {
    let alloc = rt.alloc();
    let mut hall = office(alloc)?;
    let full = takes_when_full(alloc, &mut hall);
    drop(hall);
    assert!(rt; full?);
    Ok(())
}

fn name_in(alloc: Global, path: &str, guest: &EntityName) -> Result<FullName, Fail> {
    Ok(resolve(alloc, path, guest)?)
}

// The full name of the action that is called.
pub(crate) fn called_name(alloc: Global, path: &str) -> Result<FullName, Fail> {
    let guest = read_name(alloc, b"guest")?;
    name_in(alloc, path, &guest)
}

// The number of the refusal of a call, or 0.
fn refused(alloc: Global, hall: &mut Office, at: u64, name: &FullName) -> Result<u32, Fail> {
    match hall.call(alloc, at, name, Params::new())? {
        Called::Happened(_) => Ok(0),
        Called::Refused(reason) => Ok(reason.number()),
    }
}

pub(crate) fn called(alloc: Global, hall: &mut Office, at: u64) -> Result<u32, Fail> {
    called_at(alloc, hall, at, "/whisk.system/utils/echo")
}

// The number of the refusal of a call of the action at this path, or 0.
pub(crate) fn called_at(
    alloc: Global,
    hall: &mut Office,
    at: u64,
    path: &str,
) -> Result<u32, Fail> {
    let name = called_name(alloc, path)?;
    refused(alloc, hall, at, &name)
}

// The number of the run that is ordered, or 0.
pub(crate) fn ordered(alloc: Global, hall: &mut Office, at: u64) -> Result<u64, Fail> {
    match hall.next(alloc, at)? {
        Order::Run(run) => Ok(run.run),
        _ => Ok(0),
    }
}

// Whether an empty object as the answer of this run is recorded.
pub(crate) fn ended(alloc: Global, hall: &mut Office, at: u64, run: u64) -> Result<bool, Fail> {
    let text = Str::of(alloc, "{}")?;
    let logs = Lines::new();
    Ok(
        hall.answered(alloc, at, run, RunReply::Answer { text, logs })
            .is_ok(),
    )
}

// Whether a call runs, ends once, and is the last one before a drain.
fn runs(alloc: Global, hall: &mut Office) -> Result<bool, Fail> {
    let before = called(alloc, hall, 5)?;
    let runs = (
        ordered(alloc, hall, 3)?,
        ordered(alloc, hall, 7)?,
        ordered(alloc, hall, 8)?,
    );
    let ends = (ended(alloc, hall, 9, 1)?, ended(alloc, hall, 9, 1)?);
    let drained = hall.drain(alloc, 4)? == Drain::Drained(1);
    let after = called(alloc, hall, 10)?;
    Ok((before, after) == (0, 32) && runs == (1, 0, 0) && ends == (true, false) && drained)
}

// Whether these are the entries of that call, at the moments that are booked.
fn has_moments(entries: &[Entry]) -> bool {
    entries.len() == 7
        && (entries[2].at, entries[5].at) == (5, 9)
        && matches!(entries[5].answer, Told::Drain(_))
}

// Whether the book has that call's entries and tallies.
fn is_booked(alloc: Global, book: &Book) -> Result<bool, Fail> {
    let tallies = (book.quiet(), book.denied(), book.stored()) == (1, 1, 0);
    let entries = book.entries();
    Ok(tallies && has_moments(entries.as_slice()) && copies(alloc, entries)?)
}

// Whether the book that is left has them.
fn leaves(alloc: Global, hall: Office) -> Result<bool, Fail> {
    let (_store, book) = hall.finish();
    is_booked(alloc, &book)
}

// Whether the call runs, and the book has its entries at the end.
fn runs_and_leaves(alloc: Global, mut hall: Office) -> Result<bool, Fail> {
    match runs(alloc, &mut hall) {
        Ok(true) => leaves(alloc, hall),
        other => {
            drop(hall);
            other
        }
    }
}

#[test]
fn a_call_runs_and_the_drain_ends_calls(rt: HostRuntime) -> Result<(), Fail> {
    let alloc = rt.alloc();
    let hall = office(alloc)?;
    assert!(rt; runs_and_leaves(alloc, hall)?);
    Ok(())
}
