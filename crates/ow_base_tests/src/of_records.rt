// Ids, responses, outcomes and records.
use crate::held::{boxed, equals, held, holds};
use ow_entity::{Action, EntityKind, EntityRefusal, Limits, Row, finish, read_entity};
use ow_names::{EntityName, FullName, read_name, resolve};
use ow_records::{
    Activation, Ending, Form, Id, ReadyRecord, Record, Records, Response, Role, outcome, record_of,
    write_logs, write_record, write_response,
};
use ow_traits::RunReply;
use ow_value::{
    Lines, NoMemory, Params, PlainData, Scratch, Shared, Str, Val, read_val, write_val,
};
use std::alloc::{AllocError, Global};
use std::mem;
use std::test::Fail;

/// How an activation ends.
#[derive(Clone, Copy, Drop)]
enum End {
    /// By an answer with this text, and with a line of logs.
    Answer(&'static str),
    /// By an exit with this code.
    Exit(i32),
    /// By an exit with this code, and with a line of logs.
    ExitWithLine(i32),
    NoStart,
    Fault,
    Overran,
    Abandoned,
}

fn ending(alloc: Global, end: End) -> Result<Ending, NoMemory> {
    match end {
        End::Answer(text) => answer_with_line(alloc, text),
        End::Exit(code) => Ok(exit(code)),
        End::ExitWithLine(code) => exit_with_line(alloc, code),
        End::NoStart => no_start(alloc),
        End::Fault => Ok(Ending::Replied(RunReply::Fault)),
        End::Overran => Ok(Ending::Overran),
        End::Abandoned => Ok(Ending::Abandoned),
    }
}

fn answer(alloc: Global, text: &str) -> Result<Ending, NoMemory> {
    let text = Str::of(alloc, text)?;
    let logs = Lines::new();
    Ok(Ending::Replied(RunReply::Answer { text, logs }))
}

fn answer_with_line(alloc: Global, text: &str) -> Result<Ending, NoMemory> {
    let logs = line(alloc)?;
    let text = Str::of(alloc, text)?;
    Ok(Ending::Replied(RunReply::Answer { text, logs }))
}

fn exit(code: i32) -> Ending {
    let logs = Lines::new();
    Ending::Replied(RunReply::Exit { code, logs })
}

fn exit_with_line(alloc: Global, code: i32) -> Result<Ending, NoMemory> {
    let logs = line(alloc)?;
    Ok(Ending::Replied(RunReply::Exit { code, logs }))
}

fn no_start(alloc: Global) -> Result<Ending, NoMemory> {
    let text = Str::of(alloc, "no program runner")?;
    Ok(Ending::Replied(RunReply::NoStart { text }))
}

fn line(alloc: Global) -> Result<Lines, NoMemory> {
    let mut lines = Vec::new(alloc);
    lines.push(Str::of(alloc, "x")?)?;
    Lines::from_vec(lines)
}

/// Whether an equal one is made of it.
pub(crate) fn equals_copy<T: PlainData + Drop>(alloc: Global, value: &T) -> Result<bool, NoMemory> {
    let copied = value.copy(alloc)?;
    Ok(copied.same(value))
}

/// The text of what was written.
pub(crate) fn text_of(alloc: Global, written: Result<Val, NoMemory>) -> Result<String, Fail> {
    let written = boxed(alloc, written)?;
    let text = write_val(alloc, &written)?;
    Ok(String::from_utf8(text)?)
}

// Fails where the response has another code or another object.
fn shows(alloc: Global, response: &Response, code: u8, object: &str) -> Result<(), Fail> {
    holds(equals_copy(alloc, response)?, "the copy of a response")?;
    holds(response.code() == code, object)?;
    let shown = text_of(alloc, response.result().copy(alloc).map(Val::Object))?;
    equals(shown, object)
}

// Fails where the activation that ended so has another response.
fn comes_to(alloc: Global, ending: &Ending, code: u8, object: &str) -> Result<(), Fail> {
    holds(equals_copy(alloc, ending)?, "the copy of an ending")?;
    let response = boxed(alloc, outcome(alloc, ending, &Limits::DEFAULT))?;
    shows(alloc, &response, code, object)
}

fn answer_comes_to(alloc: Global, text: &str, code: u8, object: &str) -> Result<(), Fail> {
    let ending = boxed(alloc, answer(alloc, text))?;
    comes_to(alloc, &ending, code, object)
}

const NO_VALUE: &str = r#"{"error":"The result is no JSON value of whole numbers."}"#;

const NO_OBJECT: &str = r#"{"error":"The result is no JSON object."}"#;

// The text of an answer, and the code and the object of the response.
const ANSWERS: [(&str, u8, &str); 10] = [
    (r#"{"a":1}"#, 0, r#"{"a":1}"#),
    ("{}", 0, "{}"),
    (r#"{"Error":1}"#, 0, r#"{"Error":1}"#),
    (r#"{"b":1,"error":null}"#, 1, r#"{"b":1,"error":null}"#),
    (r#"{"error":{}}"#, 1, r#"{"error":{}}"#),
    ("[1]", 2, NO_OBJECT),
    ("null", 2, NO_OBJECT),
    (r#"{"a":1.5}"#, 2, NO_VALUE),
    (r#"{"a""#, 2, NO_VALUE),
    ("", 2, NO_VALUE),
];

#[test]
fn what_answers_come_to(rt: HostRuntime) -> Result<(), Fail> {
    let alloc = rt.alloc();
    for (text, code, object) in ANSWERS.iter() {
        answer_comes_to(alloc, text, *code, object)?;
    }
    Ok(())
}

// A text of `bytes` bytes that is an object.
fn padded(alloc: Global, bytes: usize) -> Result<String, AllocError> {
    let mut text = String::from_str(alloc, "{}")?;
    for _ in 2..bytes {
        text.push_str(" ")?;
    }
    Ok(text)
}

fn padded_comes_to(alloc: Global, bytes: usize, code: u8, object: &str) -> Result<(), Fail> {
    let text = padded(alloc, bytes)?;
    answer_comes_to(alloc, text.as_str(), code, object)
}

const TOO_LARGE: &str = r#"{"error":"The result has too many bytes."}"#;

#[test]
fn an_answer_has_a_megabyte_at_most(rt: HostRuntime) -> Result<(), Fail> {
    let alloc = rt.alloc();
    padded_comes_to(alloc, 1_048_576, 0, "{}")?;
    padded_comes_to(alloc, 1_048_577, 2, TOO_LARGE)
}

fn end_comes_to(alloc: Global, end: End, code: u8, object: &str) -> Result<(), Fail> {
    let ending = boxed(alloc, ending(alloc, end))?;
    comes_to(alloc, &ending, code, object)
}

fn all_come_to(alloc: Global, ends: &[(End, u8, &str)]) -> Result<(), Fail> {
    for (end, code, object) in ends {
        end_comes_to(alloc, *end, *code, object)?;
    }
    Ok(())
}

// How an activation ends, and the code and the object of its response.
const ENDS: [(End, u8, &str); 5] = [
    (
        End::Exit(0),
        2,
        r#"{"error":"The program ended with status 0."}"#,
    ),
    (
        End::Exit(-9),
        2,
        r#"{"error":"The program ended with status -9."}"#,
    ),
    (
        End::Exit(i32::MIN),
        2,
        r#"{"error":"The program ended with status -2147483648."}"#,
    ),
    (End::NoStart, 3, r#"{"error":"The action did not start."}"#),
    (End::Fault, 3, r#"{"error":"The runner failed."}"#),
];

#[test]
fn what_other_endings_come_to(rt: HostRuntime) -> Result<(), Fail> {
    all_come_to(rt.alloc(), &ENDS)
}

const ENDS_WITHOUT_A_REPLY: [(End, u8, &str); 2] = [
    (
        End::Overran,
        2,
        r#"{"error":"The action exceeded its time limit of 60000 milliseconds."}"#,
    ),
    (
        End::Abandoned,
        3,
        r#"{"error":"The activation was abandoned."}"#,
    ),
];

#[test]
fn what_endings_without_a_reply_come_to(rt: HostRuntime) -> Result<(), Fail> {
    all_come_to(rt.alloc(), &ENDS_WITHOUT_A_REPLY)
}

fn id_text(alloc: Global, namespace: u64, count: u64) -> Result<String, Fail> {
    let mut text = Vec::new(alloc);
    Id { namespace, count }.push_text(&mut text)?;
    Ok(String::from_utf8(text)?)
}

#[test]
fn the_text_of_an_id(rt: HostRuntime) -> Result<(), Fail> {
    let alloc = rt.alloc();
    equals(id_text(alloc, 0, 1)?, "00000000000000000000000000000001")?;
    equals(
        id_text(alloc, 10, u64::MAX)?,
        "000000000000000affffffffffffffff",
    )
}

/// The body of an action that may log ten MB.
pub(crate) const TEN_MB: &str = r#"{"exec":{"kind":"program:1","code":"p"},"limits":{"logs":10}}"#;

const ONE_MB: &str = r#"{"exec":{"kind":"program:1","code":"p"},"limits":{"logs":1}}"#;

const NO_LOGS: &str = r#"{"exec":{"kind":"program:1","code":"p"},"limits":{"logs":0}}"#;

// The name of the path, with the namespace guest.
fn name_of(alloc: Global, path: &str) -> Result<Box<FullName>, Fail> {
    let guest = boxed(alloc, read_name(alloc, b"guest"))?;
    boxed(alloc, resolve(alloc, path, &guest))
}

fn made(alloc: Global, name: &FullName, body: &Val) -> Result<Row, EntityRefusal> {
    let draft = read_entity(alloc, EntityKind::Action, name, body)?;
    finish(alloc, draft, None)
}

fn row_of(alloc: Global, path: &str, body: &str) -> Result<Box<Row>, Fail> {
    let name = name_of(alloc, path)?;
    let body = boxed(alloc, read_val(alloc, body.as_bytes()))?;
    boxed(alloc, made(alloc, &name, &body))
}

// The action that the body makes at the path, in the namespace guest.
fn action(alloc: Global, path: &str, body: &str) -> Result<Box<Shared<Action>>, Fail> {
    let row = row_of(alloc, path, body)?;
    match &*row {
        Row::Action(action) => boxed(alloc, action.copy(alloc)),
        _ => Err("no action")?,
    }
}

/// The activation of the action that the body makes, which was accepted at 5 with this id.
pub(crate) fn task(
    alloc: Global,
    path: &str,
    body: &str,
    namespace: &str,
    id: Id,
) -> Result<Box<Activation>, Fail> {
    let action = action(alloc, path, body)?;
    let namespace = boxed(alloc, read_name(alloc, namespace.as_bytes()))?;
    boxed(alloc, activation(alloc, &action, &namespace, id))
}

fn activation(
    alloc: Global,
    action: &Shared<Action>,
    namespace: &EntityName,
    id: Id,
) -> Result<Activation, NoMemory> {
    let namespace = namespace.copy(alloc)?;
    let subject = Str::of(alloc, "anna")?;
    let action = action.copy(alloc)?;
    Ok(Activation {
        id,
        at: 5,
        namespace,
        action,
        binding: None,
        params: Params::new(),
        subject,
        cause: None,
        until: None,
        form: Form::Leaf,
        role: Role::Alone,
        top: id,
        depth: 0,
        own: Params::new(),
    })
}

fn record(
    alloc: Global,
    task: &Activation,
    end: End,
    started: Option<u64>,
    at: u64,
) -> Result<Box<Record>, Fail> {
    let ending = boxed(alloc, ending(alloc, end))?;
    boxed(
        alloc,
        record_of(
            alloc,
            &mut Scratch::new(alloc),
            task,
            &ending,
            started,
            None,
            at,
        ),
    )
}

/// The id of the first activation.
pub(crate) const FIRST: Id = Id {
    namespace: 1,
    count: 1,
};

// Fails where the record of the activation that ended so is written otherwise.
fn is_recorded(alloc: Global, end: End, text: &str) -> Result<(), Fail> {
    let task = task(alloc, "tools/hello", TEN_MB, "guest", FIRST)?;
    let kept = record(alloc, &task, end, Some(7), 12)?;
    equals(text_of(alloc, write_record(alloc, &kept))?, text)
}

const ANSWER_RECORD: &str =
    r#"{"activationId":"00000000000000010000000000000001","annotations":[{"key":"kind","value":"program:1"},{"key":"limits","value":{"logs":10,"memory":256,"timeout":60000}},{"key":"path","value":"guest/tools/hello"},{"key":"waitTime","value":2}],"duration":5,"end":12,"logs":["x"],"name":"hello","namespace":"guest","response":{"result":{"a":1},"status":"success","statusCode":0,"success":true},"start":7,"subject":"anna","version":"0.0.1"}"#;

/// The record of an abandoned activation of the action that may log ten MB.
pub(crate) const ABANDONED: &str =
    r#"{"activationId":"00000000000000010000000000000001","annotations":[{"key":"kind","value":"program:1"},{"key":"limits","value":{"logs":10,"memory":256,"timeout":60000}},{"key":"path","value":"guest/tools/hello"}],"duration":7,"end":12,"logs":[],"name":"hello","namespace":"guest","response":{"result":{"error":"The activation was abandoned."},"status":"whisk internal error","statusCode":3,"success":false},"start":5,"subject":"anna","version":"0.0.1"}"#;

#[test]
fn the_text_of_a_record(rt: HostRuntime) -> Result<(), Fail> {
    let alloc = rt.alloc();
    is_recorded(alloc, End::Answer(r#"{"a":1}"#), ANSWER_RECORD)?;
    is_recorded(alloc, End::Abandoned, ABANDONED)
}

// The record of an activation whose action may log one MB, and which ended so at 9.
fn kept_of(
    alloc: Global,
    body: &str,
    namespace: &str,
    id: Id,
    end: End,
) -> Result<Box<Record>, Fail> {
    let task = task(alloc, "hello", body, namespace, id)?;
    record(alloc, &task, end, None, 9)
}

// Gives the record all annotations but its limits, and a cause.
fn annotate(alloc: Global, kept: &mut Record) -> Result<(), NoMemory> {
    let binding = kept.notes.path.copy(alloc)?;
    drop(mem::replace(&mut kept.notes.binding, binding));
    kept.cause = Some(FIRST);
    kept.notes.caused_by = true;
    kept.notes.init_time = Some(3);
    kept.notes.topmost = true;
    kept.notes.limits = None;
    Ok(())
}

/// The id of the second activation.
pub(crate) const SECOND: Id = Id {
    namespace: 1,
    count: 2,
};

const ANNOTATED: &str =
    r#"{"activationId":"00000000000000010000000000000002","annotations":[{"key":"binding","value":"guest/hello"},{"key":"causedBy","value":"sequence"},{"key":"initTime","value":3},{"key":"kind","value":"program:1"},{"key":"path","value":"guest/hello"},{"key":"topmost","value":true},{"key":"waitTime","value":0}],"cause":"00000000000000010000000000000001","duration":4,"end":9,"logs":[],"name":"hello","namespace":"guest","response":{"result":{"error":"The action exceeded its time limit of 60000 milliseconds."},"status":"action developer error","statusCode":2,"success":false},"start":5,"subject":"anna","version":"0.0.1"}"#;

#[test]
fn the_text_of_all_annotations(rt: HostRuntime) -> Result<(), Fail> {
    let alloc = rt.alloc();
    let mut kept = kept_of(alloc, ONE_MB, "guest", SECOND, End::Overran)?;
    annotate(alloc, &mut kept)?;
    equals(text_of(alloc, write_record(alloc, &kept))?, ANNOTATED)
}

const DONE: &str = r#"{"result":{},"status":"success","statusCode":0,"success":true}"#;

// The body of the action, how its activation ends, and what the record has as its logs and its response.
const KEPT: [(&str, End, &str, &str); 6] = [
    (ONE_MB, End::Answer("{}"), r#"{"logs":["x"]}"#, DONE),
    (
        NO_LOGS,
        End::Answer("{}"),
        r#"{"logs":["Logs were truncated."]}"#,
        DONE,
    ),
    (
        ONE_MB,
        End::ExitWithLine(3),
        r#"{"logs":["x"]}"#,
        r#"{"result":{"error":"The program ended with status 3."},"status":"action developer error","statusCode":2,"success":false}"#,
    ),
    (
        ONE_MB,
        End::NoStart,
        r#"{"logs":["no program runner"]}"#,
        r#"{"result":{"error":"The action did not start."},"status":"whisk internal error","statusCode":3,"success":false}"#,
    ),
    (
        ONE_MB,
        End::Fault,
        r#"{"logs":[]}"#,
        r#"{"result":{"error":"The runner failed."},"status":"whisk internal error","statusCode":3,"success":false}"#,
    ),
    (
        ONE_MB,
        End::Overran,
        r#"{"logs":[]}"#,
        r#"{"result":{"error":"The action exceeded its time limit of 60000 milliseconds."},"status":"action developer error","statusCode":2,"success":false}"#,
    ),
];

// Fails where the record has other logs or another response.
fn keeps(alloc: Global, kept: &Record, logs: &str, response: &str) -> Result<(), Fail> {
    holds(equals_copy(alloc, kept)?, "the copy of a record")?;
    equals(text_of(alloc, write_logs(alloc, kept))?, logs)?;
    equals(
        text_of(alloc, write_response(alloc, &kept.response))?,
        response,
    )
}

#[test]
fn what_records_keep(rt: HostRuntime) -> Result<(), Fail> {
    let alloc = rt.alloc();
    for (body, end, logs, response) in KEPT.iter() {
        let kept = kept_of(alloc, body, "guest", FIRST, *end)?;
        keeps(alloc, &kept, logs, response)?;
    }
    Ok(())
}

fn ready(alloc: Global, kept: &Record) -> Result<ReadyRecord, NoMemory> {
    match kept.copy(alloc) {
        Ok(copied) => ReadyRecord::new(alloc, copied),
        Err(refusal) => Err(refusal),
    }
}

// Adds the record of an activation of the namespace with this count.
fn add(alloc: Global, records: &mut Records, namespace: &str, count: u64) -> Result<(), Fail> {
    let id = Id {
        namespace: namespace.len() as u64,
        count,
    };
    let kept = kept_of(alloc, ONE_MB, namespace, id, End::Overran)?;
    put(alloc, records, &kept)
}

fn put(alloc: Global, records: &mut Records, kept: &Record) -> Result<(), Fail> {
    records.reserve()?;
    let ready = ready(alloc, kept)?;
    records.add(ready);
    Ok(())
}

// The namespaces and the counts of activations, in the order of their ends.
const ADDED: [(&str, u64); 5] = [
    ("guest", 2),
    ("guests", 1),
    ("anna", 3),
    ("guest", 1),
    ("guest", 3),
];

fn filled(alloc: Global) -> Result<Box<Records>, Fail> {
    let mut records = held(alloc, Records::new(alloc))?;
    for (namespace, count) in ADDED.iter() {
        add(alloc, &mut records, namespace, *count)?;
    }
    Ok(records)
}

// The text of a list of the records of guest.
fn listed(alloc: Global, records: &Records, skip: u64, limit: u64) -> Result<String, Fail> {
    let guest = boxed(alloc, read_name(alloc, b"guest"))?;
    let listed = records.list(alloc, &guest, skip, limit);
    text_of(alloc, listed.map(Val::List))
}

const ALL: &str =
    r#"[{"activationId":"00000000000000050000000000000003","duration":4,"end":9,"name":"hello","namespace":"guest","start":5,"statusCode":2,"version":"0.0.1"},{"activationId":"00000000000000050000000000000002","duration":4,"end":9,"name":"hello","namespace":"guest","start":5,"statusCode":2,"version":"0.0.1"},{"activationId":"00000000000000050000000000000001","duration":4,"end":9,"name":"hello","namespace":"guest","start":5,"statusCode":2,"version":"0.0.1"}]"#;

const SECOND_OF_GUEST: &str =
    r#"[{"activationId":"00000000000000050000000000000002","duration":4,"end":9,"name":"hello","namespace":"guest","start":5,"statusCode":2,"version":"0.0.1"}]"#;

// How many are passed over, how many are shown at most, and the list.
const LISTS: [(u64, u64, &str); 3] = [(0, 30, ALL), (1, 1, SECOND_OF_GUEST), (3, 1, "[]")];

const FIRST_OF_GUEST: Id = Id {
    namespace: 5,
    count: 1,
};

fn is_found(records: &Records, id: Id) -> bool {
    match records.get(&id) {
        Ok(kept) => kept.id == id,
        Err(_) => false,
    }
}

// The number of the refusal, where no record is found.
fn refusal(records: &Records, id: Id) -> Option<u32> {
    match records.get(&id) {
        Ok(_) => None,
        Err(refusal) => Some(refusal.number()),
    }
}

#[test]
fn records_by_their_ids(rt: HostRuntime) -> Result<(), Fail> {
    let alloc = rt.alloc();
    let mut records = filled(alloc)?;
    for (skip, limit, list) in LISTS.iter() {
        equals(listed(alloc, &records, *skip, *limit)?, list)?;
    }
    assert!(rt; is_found(&records, FIRST_OF_GUEST));
    records.cut(3);
    assert_eq!(rt; records.len(), 3);
    assert_eq!(rt; refusal(&records, FIRST_OF_GUEST), Some(14));
    equals(listed(alloc, &records, 0, 30)?, SECOND_OF_GUEST)
}

// The id of an activation of guest.
fn of_guest(count: u64) -> Id {
    Id {
        namespace: 5,
        count,
    }
}

// Adds the record of an activation of guest with this count, which ended at `at`.
fn add_ended(alloc: Global, records: &mut Records, count: u64, at: u64) -> Result<(), Fail> {
    let task = task(alloc, "hello", ONE_MB, "guest", of_guest(count))?;
    let kept = record(alloc, &task, End::Overran, None, at)?;
    put(alloc, records, &kept)
}

// The counts of activations of guest and the moments of their ends, in the order in which the records are added.
const ENDED: [(u64, u64); 4] = [(3, 9), (2, 7), (4, 8), (1, 7)];

fn ended(alloc: Global) -> Result<Box<Records>, Fail> {
    let mut records = held(alloc, Records::new(alloc))?;
    for (count, at) in ENDED.iter() {
        add_ended(alloc, &mut records, *count, *at)?;
    }
    Ok(records)
}

// Fails where the records whose ends are at most `until` aren't those of guest with these counts.
fn are_due(alloc: Global, records: &Records, until: u64, counts: &[u64]) -> Result<(), Fail> {
    let due = boxed(alloc, records.due(until))?;
    holds(due.len() == counts.len(), "how many are due")?;
    for (kept, count) in due.iter().zip(counts) {
        holds(kept.id == of_guest(*count), "which are due")?;
    }
    Ok(())
}

const THIRD_OF_GUEST: &str =
    r#"[{"activationId":"00000000000000050000000000000003","duration":4,"end":9,"name":"hello","namespace":"guest","start":5,"statusCode":2,"version":"0.0.1"}]"#;

#[test]
fn records_that_are_due(rt: HostRuntime) -> Result<(), Fail> {
    let alloc = rt.alloc();
    let mut records = ended(alloc)?;
    are_due(alloc, &records, 6, &[])?;
    are_due(alloc, &records, 7, &[1, 2])?;
    are_due(alloc, &records, 8, &[1, 2, 4])?;
    records.retire(6);
    assert_eq!(rt; records.len(), 4);
    records.retire(8);
    assert_eq!(rt; records.len(), 1);
    are_due(alloc, &records, 8, &[])?;
    are_due(alloc, &records, 9, &[3])?;
    assert_eq!(rt; refusal(&records, of_guest(1)), Some(14));
    assert!(rt; is_found(&records, of_guest(3)));
    equals(listed(alloc, &records, 0, 30)?, THIRD_OF_GUEST)?;
    add_ended(alloc, &mut records, 5, 8)?;
    are_due(alloc, &records, 8, &[5])
}
