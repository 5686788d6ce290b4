// Records that are read back, and those of activations that are abandoned.
use crate::held::{boxed, equals, holds};
use crate::of_records::{ABANDONED, FIRST, TEN_MB, task, text_of};
use ow_records::{Record, Unrecorded, abandoned, read_record, write_record};
use ow_value::{Val, read_val};
use std::alloc::{AllocError, Global};
use std::test::Fail;

// The text of a record with this id, this duration and this status.
fn text(alloc: Global, id: &str, duration: u8, status: &str) -> Result<String, AllocError> {
    format!(in alloc;
        "{{\"activationId\":\"{id}\",\"annotations\":[{{\"key\":\"kind\",\"value\":\"program:1\"}},{{\"key\":\"limits\",\"value\":{{\"logs\":10,\"memory\":256,\"timeout\":60000}}}},{{\"key\":\"path\",\"value\":\"guest/tools/hello\"}},{{\"key\":\"waitTime\",\"value\":2}}],\"cause\":\"00000000000000010000000000000001\",\"duration\":{duration},\"end\":12,\"logs\":[\"x\"],\"name\":\"hello\",\"namespace\":\"guest\",\"response\":{{\"result\":{{\"a\":1}},\"status\":\"{status}\",\"statusCode\":0,\"success\":true}},\"start\":7,\"subject\":\"anna\",\"version\":\"0.0.1\"}}"
    )
}

fn value_of(alloc: Global, text: &str) -> Result<Box<Val>, Fail> {
    boxed(alloc, read_val(alloc, text.as_bytes()))
}

// Fails where no record is read that is written so.
fn is_read(alloc: Global, text: &str) -> Result<(), Fail> {
    let value = value_of(alloc, text)?;
    let found = boxed(alloc, read_record(alloc, &value))?;
    equals(text_of(alloc, write_record(alloc, &found))?, text)
}

// The number of the refusal, or 0 where a record is read.
fn number_of(alloc: Global, text: &str) -> Result<u32, Fail> {
    let value = value_of(alloc, text)?;
    let read = read_record(alloc, &value);
    match &read {
        Ok(_) => Ok(0),
        Err(refusal) => Ok(refusal.number()),
    }
}

fn is_refused(alloc: Global, text: &str) -> Result<(), Fail> {
    holds(number_of(alloc, text)? == 30, text)
}

#[test]
fn a_written_record_is_read(rt: HostRuntime) -> Result<(), Fail> {
    let alloc = rt.alloc();
    let written = text(alloc, "0000000000000001000000000000000a", 5, "success")?;
    is_read(alloc, written.as_str())
}

// The id, the duration and the status of what is no record.
const OTHERS: [(&str, u8, &str); 4] = [
    ("0000000000000001000000000000000a", 4, "success"),
    ("0000000000000001000000000000000a", 5, "application error"),
    ("0000000000000001000000000000000A", 5, "success"),
    ("000000000000000100000000000000a", 5, "success"),
];

#[test]
fn no_other_value_is_read(rt: HostRuntime) -> Result<(), Fail> {
    let alloc = rt.alloc();
    for (id, duration, status) in OTHERS.iter() {
        let other = text(alloc, id, *duration, status)?;
        is_refused(alloc, other.as_str())?;
    }
    is_refused(alloc, "[]")
}

// The record of an activation that was accepted at 5 and is abandoned at 12.
fn record_of_abandoned(alloc: Global) -> Result<Box<Record>, Fail> {
    let task = task(alloc, "tools/hello", TEN_MB, "guest", FIRST)?;
    let kept = boxed(alloc, Unrecorded::of(alloc, &task))?;
    boxed(alloc, abandoned(alloc, &kept, 12))
}

#[test]
fn the_record_of_what_is_abandoned(rt: HostRuntime) -> Result<(), Fail> {
    let alloc = rt.alloc();
    let ended = record_of_abandoned(alloc)?;
    equals(text_of(alloc, write_record(alloc, &ended))?, ABANDONED)
}
