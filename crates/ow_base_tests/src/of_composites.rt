// How composites end, and what is kept of them.
use crate::held::{boxed, equals, holds};
use crate::of_records::{FIRST, SECOND, equals_copy, task, text_of};
use ow_records::{
    Activation, Ending, Form, Id, Record, Response, Unrecorded, abandoned, record_of, write_record,
};
use ow_value::{Items, NoMemory, Params, Scratch};
use std::alloc::Global;
use std::test::Fail;

const THIRD: Id = Id {
    namespace: 1,
    count: 3,
};

const CHILDREN: [Id; 2] = [SECOND, THIRD];

fn children(alloc: Global) -> Result<Items<Id>, NoMemory> {
    let mut ids = Vec::new(alloc);
    for id in CHILDREN.iter() {
        ids.push(*id)?;
    }
    Items::from_vec(ids)
}

// The end of a composite that answers the code 1.
fn composed(alloc: Global) -> Result<Ending, NoMemory> {
    let children = children(alloc)?;
    let response = Response::new(1, Params::new());
    Ok(Ending::Composed { response, children })
}

/// The body of a sequence that may log nothing.
const SEQUENCE: &str =
    r#"{"exec":{"kind":"sequence","components":["a","p/a"]},"limits":{"logs":0}}"#;

const PLAIN: &str = r#"{"exec":{"kind":"plain:1","code":"{\"cases\":[]}"},"limits":{"logs":0}}"#;

// The activation that the body makes, of this form and with this cause.
fn composite(
    alloc: Global,
    body: &str,
    form: Form,
    cause: Option<Id>,
) -> Result<Box<Activation>, Fail> {
    let mut task = task(alloc, "tools/both", body, "guest", FIRST)?;
    task.form = form;
    task.cause = cause;
    Ok(task)
}

// Its record, once it ended by itself; it was never started.
fn record_of_composed(alloc: Global, task: &Activation) -> Result<Box<Record>, Fail> {
    let ending = boxed(alloc, composed(alloc))?;
    holds(equals_copy(alloc, &*ending)?, "the copy of an ending")?;
    let mut scratch = Scratch::new(alloc);
    boxed(
        alloc,
        record_of(alloc, &mut scratch, task, &ending, None, None, 12),
    )
}

fn is_recorded(alloc: Global, task: &Activation, text: &str) -> Result<(), Fail> {
    let kept = record_of_composed(alloc, task)?;
    equals(text_of(alloc, write_record(alloc, &kept))?, text)
}

// The body of the action, the form and the cause of the activation, and its record.
const RECORDS: [(&str, Form, Option<Id>, &str); 3] = [
    (
        SEQUENCE,
        Form::Sequence,
        None,
        r#"{"activationId":"00000000000000010000000000000001","annotations":[{"key":"kind","value":"sequence"},{"key":"limits","value":{"logs":0,"memory":256,"timeout":60000}},{"key":"path","value":"guest/tools/both"},{"key":"topmost","value":true}],"duration":7,"end":12,"logs":["00000000000000010000000000000002","00000000000000010000000000000003"],"name":"both","namespace":"guest","response":{"result":{},"status":"application error","statusCode":1,"success":false},"start":5,"subject":"anna","version":"0.0.1"}"#,
    ),
    (
        PLAIN,
        Form::Conductor,
        None,
        r#"{"activationId":"00000000000000010000000000000001","annotations":[{"key":"kind","value":"plain:1"},{"key":"limits","value":{"logs":0,"memory":256,"timeout":60000}},{"key":"path","value":"guest/tools/both"},{"key":"topmost","value":true}],"duration":7,"end":12,"logs":["00000000000000010000000000000002","00000000000000010000000000000003"],"name":"both","namespace":"guest","response":{"result":{},"status":"application error","statusCode":1,"success":false},"start":5,"subject":"anna","version":"0.0.1"}"#,
    ),
    (
        SEQUENCE,
        Form::Sequence,
        Some(SECOND),
        r#"{"activationId":"00000000000000010000000000000001","annotations":[{"key":"causedBy","value":"sequence"},{"key":"kind","value":"sequence"},{"key":"limits","value":{"logs":0,"memory":256,"timeout":60000}},{"key":"path","value":"guest/tools/both"}],"cause":"00000000000000010000000000000002","duration":7,"end":12,"logs":["00000000000000010000000000000002","00000000000000010000000000000003"],"name":"both","namespace":"guest","response":{"result":{},"status":"application error","statusCode":1,"success":false},"start":5,"subject":"anna","version":"0.0.1"}"#,
    ),
];

#[test]
fn composites_that_end(rt: HostRuntime) -> Result<(), Fail> {
    let alloc = rt.alloc();
    for (body, form, cause, text) in RECORDS.iter() {
        let task = composite(alloc, body, *form, *cause)?;
        is_recorded(alloc, &task, text)?;
    }
    Ok(())
}

// The record of the activation, which is abandoned at 12.
fn record_of_abandoned(alloc: Global, task: &Activation) -> Result<Box<Record>, Fail> {
    let kept = boxed(alloc, Unrecorded::of(alloc, task))?;
    holds(equals_copy(alloc, &*kept)?, "the copy of what is kept")?;
    boxed(alloc, abandoned(alloc, &kept, 12))
}

fn is_abandoned(alloc: Global, task: &Activation, text: &str) -> Result<(), Fail> {
    let ended = record_of_abandoned(alloc, task)?;
    equals(text_of(alloc, write_record(alloc, &ended))?, text)
}

// The form and the cause of the activation, and its record.
const ABANDONED: [(Form, Option<Id>, &str); 2] = [
    (
        Form::Sequence,
        None,
        r#"{"activationId":"00000000000000010000000000000001","annotations":[{"key":"kind","value":"sequence"},{"key":"limits","value":{"logs":0,"memory":256,"timeout":60000}},{"key":"path","value":"guest/tools/both"},{"key":"topmost","value":true}],"duration":7,"end":12,"logs":[],"name":"both","namespace":"guest","response":{"result":{"error":"The activation was abandoned."},"status":"whisk internal error","statusCode":3,"success":false},"start":5,"subject":"anna","version":"0.0.1"}"#,
    ),
    (
        Form::Sequence,
        Some(SECOND),
        r#"{"activationId":"00000000000000010000000000000001","annotations":[{"key":"causedBy","value":"sequence"},{"key":"kind","value":"sequence"},{"key":"limits","value":{"logs":0,"memory":256,"timeout":60000}},{"key":"path","value":"guest/tools/both"}],"cause":"00000000000000010000000000000002","duration":7,"end":12,"logs":[],"name":"both","namespace":"guest","response":{"result":{"error":"The activation was abandoned."},"status":"whisk internal error","statusCode":3,"success":false},"start":5,"subject":"anna","version":"0.0.1"}"#,
    ),
];

#[test]
fn composites_that_are_abandoned(rt: HostRuntime) -> Result<(), Fail> {
    let alloc = rt.alloc();
    for (form, cause, text) in ABANDONED.iter() {
        let task = composite(alloc, SEQUENCE, *form, *cause)?;
        is_abandoned(alloc, &task, text)?;
    }
    Ok(())
}
