// Invocations, those who wait for their ends, and what is read of them.
use crate::of_hall::{Office, called_at, office, request_by, shows, text_of, written};
use ow_decide::{HallCollected, Reply};
use ow_floor::{Answered, Order};
use ow_http::{Answer, Request, read_request};
use ow_records::Id;
use ow_traits::RunReply;
use ow_value::{Lines, Params, PlainData, Str, Val, decimal_of, read_val};
use std::alloc::Global;
use std::test::Fail;

// The moment, and whose key a request has where it isn't k1; a call of the hall; its body or the text of the runner; and what is
// answered: a status, and the body shown. A blocking request is answered with the moment until which it waits.
const ROWS: &str = r#"0|PUT /api/v1/namespaces/_/actions/hello|HELLO|200 OK|
0|PUT /api/v1/namespaces/_/actions/quick|{"exec":{"kind":"plain:1","code":"{\"cases\":[]}"},"limits":{"timeout":100},"parameters":[{"key":"a","value":1}]}|200 OK|
0|POST /api/v1/namespaces/_/actions/hello?blocking=true&result=true||waiting|60000
0|collect 1||not yet|
0|collect 2||unknown|
0|collect 0||unknown|
0|next||run 1|
0|answer 1|{"greeting":"Hello"}|recorded|
0|collect 1||200 OK|{"greeting":"Hello"}
0|GET /api/v1/namespaces/_/activations||200 OK|[{"activationId":"00000000000000010000000000000001","duration":0,"end":0,"name":"hello","namespace":"guest","start":0,"statusCode":0,"version":"0.0.1"}]
0|GET /api/v1/namespaces/guest/activations/00000000000000010000000000000001||200 OK|{"activationId":"00000000000000010000000000000001","annotations":[{"key":"kind","value":"plain:1"},{"key":"limits","value":{"logs":10,"memory":256,"timeout":60000}},{"key":"path","value":"guest/hello"},{"key":"waitTime","value":0}],"duration":0,"end":0,"logs":["a line"],"name":"hello","namespace":"guest","response":{"result":{"greeting":"Hello"},"status":"success","statusCode":0,"success":true},"start":0,"subject":"anna","version":"0.0.1"}
0|GET /api/v1/namespaces/_/activations/00000000000000010000000000000001/result||200 OK|{"result":{"greeting":"Hello"},"status":"success","statusCode":0,"success":true}
0|GET /api/v1/namespaces/_/activations/00000000000000010000000000000001/logs||200 OK|{"logs":["a line"]}
0|GET /api/v1/namespaces/_/activations/00000000000000010000000000000002||404 Not Found|{"code":14,"error":"The resource does not exist."}
0|GET /api/v1/namespaces/_/activations/00000000000000000000000000000001||404 Not Found|{"code":14,"error":"The resource does not exist."}
0|GET /api/v1/namespaces/_/activations/1||404 Not Found|{"code":14,"error":"The resource does not exist."}
0|GET /api/v1/namespaces/_/activations/0000000000000001000000000000000A/logs||404 Not Found|{"code":14,"error":"The resource does not exist."}
0|GET /api/v1/namespaces/whisk.system/activations||403 Forbidden|{"code":24,"error":"The namespace is not granted."}
0|GET /api/v1/namespaces/whisk.system/activations/00000000000000010000000000000001||403 Forbidden|{"code":24,"error":"The namespace is not granted."}
0|GET /api/v1/namespaces/_/activations?limit=201||400 Bad Request|{"code":39,"error":"The query value limit is wrong."}
0|GET /api/v1/namespaces/_/activations?skip=1||200 OK|[]
0|POST /api/v1/namespaces/_/actions/quick?blocking=true|{"b":2}|waiting|100
99|collect 2||not yet|
100|collect 2||202 Accepted|{"activationId":"00000000000000010000000000000002"}
100|next||run 2|
100|answer 2|{"error":"no"}|recorded|
100|collect 2||502 Bad Gateway|{"activationId":"00000000000000010000000000000002","annotations":[{"key":"kind","value":"plain:1"},{"key":"limits","value":{"logs":10,"memory":256,"timeout":100}},{"key":"path","value":"guest/quick"},{"key":"waitTime","value":100}],"duration":0,"end":100,"logs":["a line"],"name":"quick","namespace":"guest","response":{"result":{"error":"no"},"status":"application error","statusCode":1,"success":false},"start":100,"subject":"anna","version":"0.0.1"}
100|POST /api/v1/namespaces/_/actions/hello||202 Accepted|{"activationId":"00000000000000010000000000000003"}
100|collect 3||unknown|
100|POST /api/v1/namespaces/_/actions/hello?blocking=2|[|400 Bad Request|{"code":39,"error":"The query value blocking is wrong."}
100|POST /api/v1/namespaces/_/actions/%20|[|400 Bad Request|{"code":6,"error":"A name has a wrong byte at 0."}
100|POST /api/v1/namespaces/_/actions/none|[|400 Bad Request|{"code":1,"error":"The text is no JSON."}
100|POST /api/v1/namespaces/_/actions/none|7|400 Bad Request|{"code":10,"error":"The field body has a wrong type."}
100|POST /api/v1/namespaces/_/actions/none||404 Not Found|{"code":14,"error":"The resource does not exist."}
100|POST /api/v1/namespaces/whisk.system/actions/hello|[|403 Forbidden|{"code":24,"error":"The namespace is not granted."}
100|GET /api/v1/namespaces/_/activations?limit=1||200 OK|[{"activationId":"00000000000000010000000000000002","duration":0,"end":100,"name":"quick","namespace":"guest","start":100,"statusCode":1,"version":"0.0.1"}]
100|drain||open|
100|POST /api/v1/namespaces/_/actions/hello||503 Service Unavailable|{"code":32,"error":"The office is draining."}
"#;

// A row of the table, by its parts.
#[derive(Clone, Copy)]
struct Row<'a> {
    at: u64,
    key: &'a str,
    call: &'a str,
    body: &'a str,
    status: &'a str,
    shown: &'a str,
}

fn row_of(row: &str) -> Option<Row<'_>> {
    let mut parts = row.split('|');
    let (at, key) = moment_of(parts.next()?)?;
    let call = parts.next()?;
    let body = parts.next()?;
    let status = parts.next()?;
    let shown = parts.next()?;
    Some(Row {
        at,
        key,
        call,
        body,
        status,
        shown,
    })
}

// The moment, and the key after it.
fn moment_of(part: &str) -> Option<(u64, &str)> {
    let (at, key) = part.split_once(' ').unwrap_or((part, "k1"));
    Some((decimal_of(at.as_bytes())?, key))
}

// An activation of the caller's own namespace.
fn id_of(count: u64) -> Id {
    Id {
        namespace: 1,
        count,
    }
}

fn number_of(text: &str) -> u64 {
    decimal_of(text.as_bytes()).unwrap_or(0)
}

// Whether an answer has this status and this body, where one is given.
fn is_shown(alloc: Global, answer: &Answer, row: &Row) -> Result<bool, Fail> {
    let reply = written(alloc, answer)?;
    if row.status == "204 No Content" {
        return Ok(reply.as_slice() == b"HTTP/1.1 204 No Content\r\n\r\n".as_slice());
    }
    if row.shown.is_empty() {
        return Ok(answer.status == 200 && row.status == "200 OK");
    }
    shows(alloc, reply.as_slice(), row.status, row.shown)
}

fn is_replied(
    alloc: Global,
    hall: &mut Office,
    row: &Row,
    request: &Request,
) -> Result<bool, Fail> {
    match hall.ask(alloc, row.at, request)? {
        Reply::Now(answer) => is_shown(alloc, &answer, row),
        Reply::Waiting { until, .. } => {
            Ok(row.status == "waiting" && until == number_of(row.shown))
        }
    }
}

fn is_asked(alloc: Global, hall: &mut Office, row: &Row) -> Result<bool, Fail> {
    let text = request_by(alloc, row.key, row.call, text_of(row.body))?;
    let read = read_request(alloc, text.as_bytes())?;
    is_replied(alloc, hall, row, &read.request)
}

fn is_collected(alloc: Global, hall: &mut Office, row: &Row, count: u64) -> Result<bool, Fail> {
    match hall.collect(alloc, row.at, &id_of(count))? {
        HallCollected::Reply(answer) => is_shown(alloc, &answer, row),
        HallCollected::NotYet => Ok(row.status == "not yet"),
        HallCollected::Unknown => Ok(row.status == "unknown"),
    }
}

// Whether the office's own call is accepted, or refused with the number that is shown.
fn is_called(alloc: Global, hall: &mut Office, row: &Row, path: &str) -> Result<bool, Fail> {
    let refusal = called_at(alloc, hall, row.at, path)?;
    Ok(u64::from(refusal) == number_of(row.shown))
}

// Whether parameters are those of a text, where one is given.
fn are_params(alloc: Global, params: &Params, text: &str) -> Result<bool, Fail> {
    if text.is_empty() {
        return Ok(true);
    }
    match read_val(alloc, text.as_bytes())? {
        Val::Object(wanted) => Ok(params.same(&wanted)),
        _ => Ok(false),
    }
}

// Whether a run of this number is ordered, with these parameters; or nothing.
fn is_ordered(alloc: Global, hall: &mut Office, row: &Row) -> Result<bool, Fail> {
    match hall.next(alloc, row.at)? {
        Order::Run(run) => Ok(
            row.status
                .split_once("run ")
                .is_some_and(|p| number_of(p.1) == run.run)
                && are_params(alloc, &run.params, row.body)?,
        ),
        Order::Nothing(_) => Ok(row.status == "nothing"),
        _ => Ok(false),
    }
}

// Whether the answer of this run, with one line beside it, is recorded, or late.
fn is_ended(alloc: Global, hall: &mut Office, row: &Row, run: u64) -> Result<bool, Fail> {
    let text = Str::of(alloc, row.body)?;
    let line = Str::of(alloc, "a line")?;
    let mut lines = Vec::new(alloc);
    lines.push(line)?;
    let logs = Lines::from_vec(lines)?;
    match hall.answered(alloc, row.at, run, RunReply::Answer { text, logs }) {
        Ok(Answered::Recorded(_)) => Ok(row.status == "recorded"),
        Ok(Answered::Late { .. }) => Ok(row.status == "late"),
        Err(_) => Ok(false),
    }
}

fn is_drained(alloc: Global, hall: &mut Office, row: &Row) -> Result<bool, Fail> {
    hall.drain(alloc, row.at)?;
    Ok(true)
}

// Whether a sweep finds as many late runs as are shown.
fn is_swept(alloc: Global, hall: &mut Office, row: &Row) -> Result<bool, Fail> {
    let swept = hall.sweep(alloc, row.at)?;
    Ok(swept.late == number_of(row.shown))
}

// Whether a row is answered so.
fn holds(alloc: Global, hall: &mut Office, row: &Row) -> Result<bool, Fail> {
    match row.call.split_once(' ') {
        Some(("collect", count)) => is_collected(alloc, hall, row, number_of(count)),
        Some(("answer", run)) => is_ended(alloc, hall, row, number_of(run)),
        Some(("call", path)) => is_called(alloc, hall, row, path),
        Some(_) => is_asked(alloc, hall, row),
        None => is_done(alloc, hall, row),
    }
}

// Whether a call of one word is answered so.
fn is_done(alloc: Global, hall: &mut Office, row: &Row) -> Result<bool, Fail> {
    match row.call {
        "next" => is_ordered(alloc, hall, row),
        "sweep" => is_swept(alloc, hall, row),
        _ => is_drained(alloc, hall, row),
    }
}

// Whether each row of a table is answered so.
pub(crate) fn rows_hold(alloc: Global, hall: &mut Office, rows: &str) -> Result<bool, Fail> {
    for line in rows.lines() {
        let Some(row) = row_of(line) else {
            return Ok(false);
        };
        if !holds(alloc, hall, &row)? {
            return Ok(false);
        }
    }
    Ok(true)
}

#[test]
fn blocking_requests_are_answered_once_their_activations_have_ended(
    rt: HostRuntime,
) -> Result<(), Fail> {
    let alloc = rt.alloc();
    let mut hall = office(alloc)?;
    let hold = rows_hold(alloc, &mut hall, ROWS);
    drop(hall);
    assert!(rt; hold?);
    Ok(())
}
