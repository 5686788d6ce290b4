// Kept rows that are read as items, and items that are written as rows.
use crate::held::held;
use ow_keep::{KeepRefusal, kept_items, kept_rows};
use ow_row_text::{Item, row_text};
use ow_traits::Rows;
use ow_value::{NoMemory, Str};
use std::alloc::{AllocError, Global};
use std::test::Fail;

const VERSION: (&str, &str) = ("version", "1");

const SECOND_VERSION: (&str, &str) = ("version", "2");

const NOTHING_ARCHIVED: (&str, &str) = ("archived", r#"{"last":0,"number":0}"#);

// The last record that was archived ended at moment 7.
const ARCHIVED: (&str, &str) = ("archived", r#"{"last":7,"number":2}"#);

// At the greatest moment, with the greatest number.
const ALL_ARCHIVED: (&str, &str) = (
    "archived",
    r#"{"last":253402300799999,"number":9223372036854775807}"#,
);

const NOTE: (&str, &str) = ("note/k", "9");

const LAST_NOTE: (&str, &str) = ("note/alarm/guest/t", "253402300799999");

const COUNT: (&str, &str) = ("count/0000000000000001", "2");

const DONE: (&str, &str) = (
    "done/00000000000000010000000000000001",
    r#"{"activationId":"00000000000000010000000000000001","annotations":[{"key":"kind","value":"plain:1"},{"key":"limits","value":{"logs":10,"memory":256,"timeout":60000}},{"key":"path","value":"guest/hello"},{"key":"waitTime","value":0}],"duration":0,"end":0,"logs":[],"name":"hello","namespace":"guest","response":{"result":{},"status":"success","statusCode":0,"success":true},"start":0,"subject":"office","version":"0.0.1"}"#,
);

const OPEN: (&str, &str) = (
    "open/00000000000000010000000000000002",
    r#"{"activationId":"00000000000000010000000000000002","at":0,"form":"leaf","kind":"plain:1","limits":{"logs":10,"memory":256,"timeout":60000},"namespace":"guest","path":"guest/tools/hi","subject":"office","version":"0.0.1"}"#,
);

const ACTION: (&str, &str) = (
    "row/action/guest/tools/hi",
    r#"{"annotations":[],"exec":{"code":"{\"cases\":[]}","kind":"plain:1"},"limits":{"logs":10,"memory":256,"timeout":60000},"name":"hi","namespace":"guest/tools","parameters":[],"publish":false,"version":"0.0.1"}"#,
);

const PACKAGE: (&str, &str) = (
    "row/package/guest/tools",
    r#"{"annotations":[],"binding":{},"name":"tools","namespace":"guest","parameters":[],"publish":false,"version":"0.0.1"}"#,
);

const RULE: (&str, &str) = (
    "row/rule/guest/r",
    r#"{"action":"/lib/tools/hi","annotations":[],"name":"r","namespace":"guest","publish":false,"status":"inactive","trigger":"/guest/t","version":"0.0.3"}"#,
);

const TRIGGER: (&str, &str) = (
    "row/trigger/guest/t",
    r#"{"annotations":[],"name":"t","namespace":"guest","parameters":[{"key":"a","value":1}],"publish":false,"version":"0.0.1"}"#,
);

// The record of a fire: no annotations, and a line for each active rule.
const FIRED: (&str, &str) = (
    "done/00000000000000010000000000000001",
    r#"{"activationId":"00000000000000010000000000000001","annotations":[],"duration":0,"end":5,"logs":["{\"action\":\"/lib/tools/hi\",\"activationId\":\"00000000000000010000000000000002\",\"rule\":\"/guest/r\"}"],"name":"t","namespace":"guest","response":{"result":{"a":1},"status":"success","statusCode":0,"success":true},"start":5,"subject":"anna","version":"0.0.1"}"#,
);

// A status that no rule has.
const STATUS: (&str, &str) = (
    "row/rule/guest/r",
    r#"{"action":"/lib/tools/hi","annotations":[],"name":"r","namespace":"guest","publish":false,"status":"on","trigger":"/guest/t","version":"0.0.3"}"#,
);

const UNSET: (&str, &str) = (
    "row/rule/guest/r",
    r#"{"action":"/lib/tools/hi","annotations":[],"name":"r","namespace":"guest","publish":false,"trigger":"/guest/t","version":"0.0.3"}"#,
);

// A put reads `_` as the namespace of the rule, so no rule is written with it.
const HOME: (&str, &str) = (
    "row/rule/guest/r",
    r#"{"action":"/_/hi","annotations":[],"name":"r","namespace":"guest","publish":false,"status":"active","trigger":"/guest/t","version":"0.0.3"}"#,
);

const HERE: (&str, &str) = (
    "row/rule/guest/r",
    r#"{"action":"/lib/tools/hi","annotations":[],"name":"r","namespace":"guest","publish":false,"status":"active","trigger":"/_/t","version":"0.0.3"}"#,
);

// The key of another rule.
const OTHER: (&str, &str) = (
    "row/rule/guest/q",
    r#"{"action":"/lib/tools/hi","annotations":[],"name":"r","namespace":"guest","publish":false,"status":"active","trigger":"/guest/t","version":"0.0.3"}"#,
);

// Rules and triggers lie in no package.
const GROUPED: (&str, &str) = (
    "row/rule/guest/p/r",
    r#"{"action":"/lib/tools/hi","annotations":[],"name":"r","namespace":"guest/p","publish":false,"status":"active","trigger":"/guest/t","version":"0.0.3"}"#,
);

const INSIDE: (&str, &str) = (
    "row/trigger/guest/p/t",
    r#"{"annotations":[],"name":"t","namespace":"guest/p","parameters":[],"publish":false,"version":"0.0.1"}"#,
);

const UNMADE: (&str, &str) = (
    "row/trigger/guest/t",
    r#"{"annotations":[],"name":"t","namespace":"guest","parameters":[],"publish":false,"version":"0.0.0"}"#,
);

// The code of an action that is there from the start may not be kept.
const ECHO: (&str, &str) = (
    "row/action/whisk.system/utils/echo",
    r#"{"annotations":[],"exec":{"code":"{\"cases\":[]}","kind":"plain:1"},"limits":{"logs":10,"memory":256,"timeout":60000},"name":"echo","namespace":"whisk.system/utils","parameters":[],"publish":false,"version":"0.0.1"}"#,
);

// The same activation as the record's.
const BOTH: (&str, &str) = (
    "open/00000000000000010000000000000001",
    r#"{"activationId":"00000000000000010000000000000001","at":0,"form":"leaf","kind":"plain:1","limits":{"logs":10,"memory":256,"timeout":60000},"namespace":"guest","path":"guest/hello","subject":"office","version":"0.0.1"}"#,
);

// A space after a colon.
const SPACED: (&str, &str) = (
    "row/package/guest/tools",
    r#"{"annotations": [],"binding":{},"name":"tools","namespace":"guest","parameters":[],"publish":false,"version":"0.0.1"}"#,
);

const COUNT_OF_FOUR: (&str, &str) = ("count/0000000000000001", "4");

const SEQUENCE: (&str, &str) = (
    "row/action/guest/tools/both",
    r#"{"annotations":[],"exec":{"components":["/guest/tools/hi","/whisk.system/utils/echo","/guest/tools/hi"],"kind":"sequence"},"limits":{"logs":10,"memory":256,"timeout":60000},"name":"both","namespace":"guest/tools","parameters":[],"publish":false,"version":"0.0.1"}"#,
);

// A put reads `_` as the namespace of the sequence, so no component is written with it.
const HOME_COMPONENT: (&str, &str) = (
    "row/action/guest/tools/both",
    r#"{"annotations":[],"exec":{"components":["/guest/tools/hi","/_/hi"],"kind":"sequence"},"limits":{"logs":10,"memory":256,"timeout":60000},"name":"both","namespace":"guest/tools","parameters":[],"publish":false,"version":"0.0.1"}"#,
);

const NO_COMPONENT: (&str, &str) = (
    "row/action/guest/tools/both",
    r#"{"annotations":[],"exec":{"components":[],"kind":"sequence"},"limits":{"logs":10,"memory":256,"timeout":60000},"name":"both","namespace":"guest/tools","parameters":[],"publish":false,"version":"0.0.1"}"#,
);

const OPEN_SEQUENCE: (&str, &str) = (
    "open/00000000000000010000000000000001",
    r#"{"activationId":"00000000000000010000000000000001","at":0,"form":"sequence","kind":"sequence","limits":{"logs":10,"memory":256,"timeout":60000},"namespace":"guest","path":"guest/tools/both","subject":"office","version":"0.0.1"}"#,
);

const OPEN_CONDUCTOR: (&str, &str) = (
    "open/00000000000000010000000000000002",
    r#"{"activationId":"00000000000000010000000000000002","at":0,"cause":"00000000000000010000000000000001","form":"conductor","kind":"plain:1","limits":{"logs":10,"memory":256,"timeout":60000},"namespace":"guest","path":"guest/tools/hi","subject":"office","version":"0.0.1"}"#,
);

const OPEN_RUN: (&str, &str) = (
    "open/00000000000000010000000000000004",
    r#"{"activationId":"00000000000000010000000000000004","at":0,"cause":"00000000000000010000000000000002","form":"leaf","kind":"plain:1","limits":{"logs":10,"memory":256,"timeout":60000},"namespace":"guest","path":"guest/tools/hi","subject":"office","version":"0.0.1"}"#,
);

// The record of a sequence in another, with the ids of its children as its logs.
const DONE_SEQUENCE: (&str, &str) = (
    "done/00000000000000010000000000000003",
    r#"{"activationId":"00000000000000010000000000000003","annotations":[{"key":"causedBy","value":"sequence"},{"key":"kind","value":"sequence"},{"key":"limits","value":{"logs":10,"memory":256,"timeout":60000}},{"key":"path","value":"guest/tools/both"}],"cause":"00000000000000010000000000000001","duration":7,"end":12,"logs":["00000000000000010000000000000004"],"name":"both","namespace":"guest","response":{"result":{},"status":"success","statusCode":0,"success":true},"start":5,"subject":"anna","version":"0.0.1"}"#,
);

// Each activation is that of a sequence exactly where its action is a sequence.
const SEQUENCE_OF_CODE: (&str, &str) = (
    "open/00000000000000010000000000000001",
    r#"{"activationId":"00000000000000010000000000000001","at":0,"form":"sequence","kind":"plain:1","limits":{"logs":10,"memory":256,"timeout":60000},"namespace":"guest","path":"guest/tools/hi","subject":"office","version":"0.0.1"}"#,
);

const LEAF_OF_SEQUENCE: (&str, &str) = (
    "open/00000000000000010000000000000001",
    r#"{"activationId":"00000000000000010000000000000001","at":0,"form":"leaf","kind":"sequence","limits":{"logs":10,"memory":256,"timeout":60000},"namespace":"guest","path":"guest/tools/both","subject":"office","version":"0.0.1"}"#,
);

const OTHER_FORM: (&str, &str) = (
    "open/00000000000000010000000000000001",
    r#"{"activationId":"00000000000000010000000000000001","at":0,"form":"tree","kind":"plain:1","limits":{"logs":10,"memory":256,"timeout":60000},"namespace":"guest","path":"guest/tools/hi","subject":"office","version":"0.0.1"}"#,
);

const NO_FORM: (&str, &str) = (
    "open/00000000000000010000000000000001",
    r#"{"activationId":"00000000000000010000000000000001","at":0,"kind":"plain:1","limits":{"logs":10,"memory":256,"timeout":60000},"namespace":"guest","path":"guest/tools/hi","subject":"office","version":"0.0.1"}"#,
);

// Counts of causes begin with 1.
const NO_CAUSE: (&str, &str) = (
    "open/00000000000000010000000000000001",
    r#"{"activationId":"00000000000000010000000000000001","at":0,"cause":"00000000000000010000000000000000","form":"leaf","kind":"plain:1","limits":{"logs":10,"memory":256,"timeout":60000},"namespace":"guest","path":"guest/tools/hi","subject":"office","version":"0.0.1"}"#,
);

// Rows, and the key of the first bad one, or none.
const CASES: [(&[(&str, &str)], &str); 54] = [
    (&[], ""),
    (&[VERSION], ""),
    (&[COUNT, DONE, OPEN, ACTION, PACKAGE, VERSION], ""),
    (&[COUNT], "version"),
    (&[("version", "2")], "version"),
    (&[("version", "9")], "version"),
    (&[("version", "01")], "version"),
    (
        &[("count/0000000000000001", "0"), VERSION],
        "count/0000000000000001",
    ),
    (
        &[("count/0000000000000001", "9223372036854775808"), VERSION],
        "count/0000000000000001",
    ),
    (&[("count/1", "1"), VERSION], "count/1"),
    (&[DONE, VERSION], "done/00000000000000010000000000000001"),
    (
        &[COUNT, DONE, BOTH, VERSION],
        "open/00000000000000010000000000000001",
    ),
    (&[ECHO, VERSION], "row/action/whisk.system/utils/echo"),
    (&[SPACED, VERSION], "row/package/guest/tools"),
    (&[COUNT, FIRED, RULE, TRIGGER, VERSION], ""),
    (&[STATUS, TRIGGER, VERSION], "row/rule/guest/r"),
    (&[UNSET, VERSION], "row/rule/guest/r"),
    (&[OTHER, VERSION], "row/rule/guest/q"),
    (&[GROUPED, VERSION], "row/rule/guest/p/r"),
    (&[HOME, VERSION], "row/rule/guest/r"),
    (&[HERE, VERSION], "row/rule/guest/r"),
    (&[INSIDE, VERSION], "row/trigger/guest/p/t"),
    (&[UNMADE, VERSION], "row/trigger/guest/t"),
    (&[VERSION, ("zzz", "1")], "zzz"),
    (&[SEQUENCE, VERSION], ""),
    (&[HOME_COMPONENT, VERSION], "row/action/guest/tools/both"),
    (&[NO_COMPONENT, VERSION], "row/action/guest/tools/both"),
    (
        &[
            COUNT_OF_FOUR,
            DONE_SEQUENCE,
            OPEN_SEQUENCE,
            OPEN_CONDUCTOR,
            OPEN_RUN,
            VERSION,
        ],
        "",
    ),
    (
        &[COUNT, SEQUENCE_OF_CODE, VERSION],
        "open/00000000000000010000000000000001",
    ),
    (
        &[COUNT, LEAF_OF_SEQUENCE, VERSION],
        "open/00000000000000010000000000000001",
    ),
    (
        &[COUNT, OTHER_FORM, VERSION],
        "open/00000000000000010000000000000001",
    ),
    (
        &[COUNT, NO_FORM, VERSION],
        "open/00000000000000010000000000000001",
    ),
    (
        &[COUNT, NO_CAUSE, VERSION],
        "open/00000000000000010000000000000001",
    ),
    (&[NOTHING_ARCHIVED, SECOND_VERSION], ""),
    (&[ALL_ARCHIVED, LAST_NOTE, SECOND_VERSION], ""),
    (
        &[
            ARCHIVED,
            COUNT,
            DONE,
            LAST_NOTE,
            NOTE,
            OPEN,
            ACTION,
            PACKAGE,
            SECOND_VERSION,
        ],
        "",
    ),
    (&[ARCHIVED, ("version", "9")], "version"),
    (&[ARCHIVED], "version"),
    (&[ARCHIVED, VERSION], "version"),
    (&[NOTE, VERSION], "version"),
    (&[NOTE, SECOND_VERSION], "version"),
    (&[COUNT, DONE, SECOND_VERSION], "version"),
    (
        &[NOTHING_ARCHIVED, SPACED, VERSION],
        "row/package/guest/tools",
    ),
    (
        &[("archived", r#"{"last":7,"number":0}"#), SECOND_VERSION],
        "archived",
    ),
    (
        &[
            ("archived", r#"{"last":253402300800000,"number":1}"#),
            SECOND_VERSION,
        ],
        "archived",
    ),
    (
        &[
            ("archived", r#"{"last":7,"number":9223372036854775808}"#),
            SECOND_VERSION,
        ],
        "archived",
    ),
    (
        &[("archived", r#"{"number":1,"last":0}"#), SECOND_VERSION],
        "archived",
    ),
    (&[("archived", r#"{"last":0}"#), SECOND_VERSION], "archived"),
    (
        &[("archived", r#"{"last":-1,"number":1}"#), SECOND_VERSION],
        "archived",
    ),
    (
        &[("archives", r#"{"last":0,"number":0}"#), VERSION],
        "archives",
    ),
    (&[ARCHIVED, ("note/", "9"), SECOND_VERSION], "note/"),
    (&[ARCHIVED, ("note/k", "09"), SECOND_VERSION], "note/k"),
    (
        &[ARCHIVED, ("note/k", "253402300800000"), SECOND_VERSION],
        "note/k",
    ),
    (&[ARCHIVED, ("notes/k", "9"), SECOND_VERSION], "notes/k"),
];

fn put(alloc: Global, rows: &mut Rows, key: &str, text: &str) -> Result<(), NoMemory> {
    let key = Str::of(alloc, key)?;
    let text = Str::of(alloc, text)?;
    rows.put(key, text)
}

fn rows_of(alloc: Global, pairs: &[(&str, &str)]) -> Result<Box<Rows>, Fail> {
    let mut rows = held(alloc, Rows::new(alloc))?;
    for (key, text) in pairs {
        put(alloc, &mut rows, key, text)?;
    }
    Ok(rows)
}

fn put_item(alloc: Global, rows: &mut Rows, item: &Item) -> Result<(), NoMemory> {
    let (key, text) = row_text(alloc, item)?;
    rows.put(key, text)
}

// The rows that the items are written as.
fn written(alloc: Global, items: &[Item]) -> Result<Box<Rows>, Fail> {
    let mut rows = held(alloc, Rows::new(alloc))?;
    for item in items {
        put_item(alloc, &mut rows, item)?;
    }
    Ok(rows)
}

fn has_text(rows: &Rows, key: &str, text: &str) -> bool {
    match rows.find(key) {
        Some(found) => found.as_str() == text,
        None => false,
    }
}

fn has_all(rows: &Rows, pairs: &[(&str, &str)]) -> bool {
    for (key, text) in pairs {
        if !has_text(rows, key, text) {
            return false;
        }
    }
    true
}

// Whether the items are written as these rows.
fn are_written(alloc: Global, items: &[Item], pairs: &[(&str, &str)]) -> Result<bool, Fail> {
    let rows = written(alloc, items)?;
    Ok(items.len() == pairs.len() && has_all(&rows, pairs))
}

// Whether the rows are read as items that are written as these rows, or refused with the key `bad`.
fn is_told(alloc: Global, pairs: &[(&str, &str)], bad: &str) -> Result<bool, Fail> {
    let rows = rows_of(alloc, pairs)?;
    let read = kept_items(alloc, &rows);
    match &read {
        Ok(items) if bad.is_empty() => are_written(alloc, items, pairs),
        Ok(_) => Ok(false),
        Err(KeepRefusal::BadKept { key }) => Ok(key.as_str() == bad),
        Err(KeepRefusal::NoMemory) => Err("no memory")?,
    }
}

// The first of the cases, counted from 0, with another result than expected.
fn first_wrong(alloc: Global) -> Result<Option<usize>, Fail> {
    for (number, (pairs, bad)) in CASES.iter().enumerate() {
        if !is_told(alloc, pairs, bad)? {
            return Ok(Some(number));
        }
    }
    Ok(None)
}

#[test]
fn kept_rows_are_read_as_items(rt: HostRuntime) -> Result<(), Fail> {
    assert_eq!(rt; first_wrong(rt.alloc())?, None);
    Ok(())
}

// The text of a sequence of `count` components and one more.
fn sequence_of(alloc: Global, count: usize) -> Result<String, AllocError> {
    let more = "\"/guest/tools/hi\",".repeat(alloc, count)?;
    format!(in alloc;
        "{{\"annotations\":[],\"exec\":{{\"components\":[{more}\"/guest/tools/hi\"],\"kind\":\"sequence\"}},\"limits\":{{\"logs\":10,\"memory\":256,\"timeout\":60000}},\"name\":\"both\",\"namespace\":\"guest/tools\",\"parameters\":[],\"publish\":false,\"version\":\"0.0.1\"}}"
    )
}

// How many components a sequence has besides one, and the key of the first bad row, or none.
const LENGTHS: [(usize, &str); 2] = [(49, ""), (50, "row/action/guest/tools/both")];

#[test]
fn a_kept_sequence_has_fifty_components_at_most(rt: HostRuntime) -> Result<(), Fail> {
    let alloc = rt.alloc();
    for (count, bad) in LENGTHS.iter() {
        let text = sequence_of(alloc, *count)?;
        let pairs = [("row/action/guest/tools/both", text.as_str()), VERSION];
        assert!(rt; is_told(alloc, &pairs, bad)?);
    }
    Ok(())
}

// How many bytes the key of a note has, and whether its row is bad.
const NOTE_KEYS: [(usize, bool); 3] = [(1, false), (1024, false), (1025, true)];

#[test]
fn the_key_of_a_kept_note_has_1024_bytes_at_most(rt: HostRuntime) -> Result<(), Fail> {
    let alloc = rt.alloc();
    for (count, is_bad) in NOTE_KEYS.iter() {
        let letters = "k".repeat(alloc, *count)?;
        let key = format!(in alloc; "note/{letters}")?;
        let pairs = [ARCHIVED, (key.as_str(), "9"), SECOND_VERSION];
        let bad = if *is_bad { key.as_str() } else { "" };
        assert!(rt; is_told(alloc, &pairs, bad)?);
    }
    Ok(())
}

fn greatest_moment(alloc: Global, pairs: &[(&str, &str)]) -> Result<u64, Fail> {
    let rows = rows_of(alloc, pairs)?;
    match kept_rows(alloc, &rows) {
        Ok(kept) => Ok(kept.greatest_moment()),
        Err(_) => Err("refused")?,
    }
}

// Rows, and the greatest moment in them.
const MOMENTS: [(&[(&str, &str)], u64); 5] = [
    (&[COUNT, FIRED, VERSION], 5),
    (&[NOTHING_ARCHIVED, COUNT, FIRED, SECOND_VERSION], 5),
    (&[ARCHIVED, COUNT, FIRED, SECOND_VERSION], 7),
    (&[ARCHIVED, COUNT, FIRED, NOTE, SECOND_VERSION], 9),
    (
        &[ARCHIVED, LAST_NOTE, NOTE, SECOND_VERSION],
        253_402_300_799_999,
    ),
];

#[test]
fn moments_of_notes_and_of_the_archive_count(rt: HostRuntime) -> Result<(), Fail> {
    for (pairs, moment) in MOMENTS.iter() {
        assert_eq!(rt; greatest_moment(rt.alloc(), pairs)?, *moment);
    }
    Ok(())
}
