// Days over stores: what one day leaves is there in the next, and what a store that fails results in.
use crate::days::{TABLE, held, source_of, words_of};
use ow_office::office;
use ow_traits::{MemoryKeeper, MemorySink, MemorySource, Rows};
use ow_value::Str;
use std::alloc::Global;
use std::process::Abort;
use std::test::Fail;

// Two calls, one of which is recorded and the other left.
const FIRST: &[u8] = b"call /whisk.system/utils/echo {\"a\":1}
call /whisk.system/utils/echo {\"a\":2}
next
answer 1 {\"a\":1}
";

const FIRST_OUT: &[u8] = b"accepted 00000000000000000000000000000001
accepted 00000000000000000000000000000002
run 1 00000000000000000000000000000001 slot 0 gen 1 cold
recorded 00000000000000000000000000000001 0
";

// What the other is kept as, and its record once the next day has begun.
const OPEN: &str =
    r#"{"activationId":"00000000000000000000000000000002","at":0,"form":"leaf","kind":"plain:1","limits":{"logs":10,"memory":256,"timeout":60000},"namespace":"whisk.system","path":"whisk.system/utils/echo","subject":"office","version":"0.0.1"}"#;

const ABANDONED: &str =
    r#"{"activationId":"00000000000000000000000000000002","annotations":[{"key":"kind","value":"plain:1"},{"key":"limits","value":{"logs":10,"memory":256,"timeout":60000}},{"key":"path","value":"whisk.system/utils/echo"}],"duration":0,"end":0,"logs":[],"name":"echo","namespace":"whisk.system","response":{"result":{"error":"The activation was abandoned."},"status":"whisk internal error","statusCode":3,"success":false},"start":0,"subject":"office","version":"0.0.1"}"#;

// The next day counts on from the last id.
const SECOND: &[u8] = b"next\ncall /whisk.system/utils/echo {}\n";

const SECOND_OUT: &[u8] = b"nothing empty\naccepted 00000000000000000000000000000003\n";

// Which call of the store fails, the load being 0 and the opening's commit 1; what the day answers then, and the line that reports
// how it ends.
const FAILING: [(u64, &[u8], &[u8]); 6] = [
    (0, b"", b"store fault\n"),
    (1, b"", b"store fault\n"),
    (
        2,
        b"refused 31 The store failed.
accepted 00000000000000000000000000000001
run 1 00000000000000000000000000000001 slot 0 gen 1 cold
recorded 00000000000000000000000000000001 0
refused 29 No run 1.
swept 0
reopened
reopened
drained 0
",
        b"",
    ),
    (
        4,
        b"accepted 00000000000000000000000000000001
accepted 00000000000000000000000000000002
run 1 00000000000000000000000000000001 slot 0 gen 1 cold
store fault
recorded 00000000000000000000000000000001 0
swept 0
recorded 00000000000000000000000000000002 3
reopened
reopened
drained 0
",
        b"",
    ),
    (
        5,
        b"accepted 00000000000000000000000000000001
accepted 00000000000000000000000000000002
run 1 00000000000000000000000000000001 slot 0 gen 1 cold
recorded 00000000000000000000000000000001 0
refused 29 No run 1.
swept 0
store fault
recorded 00000000000000000000000000000002 3
reopened
drained 0
",
        b"",
    ),
    (
        6,
        b"accepted 00000000000000000000000000000001
accepted 00000000000000000000000000000002
run 1 00000000000000000000000000000001 slot 0 gen 1 cold
recorded 00000000000000000000000000000001 0
refused 29 No run 1.
swept 0
recorded 00000000000000000000000000000002 3
reopened
reopened
drained 0
",
        b"",
    ),
];

const DAY: &[u8] = b"call /whisk.system/utils/echo {}
call /whisk.system/utils/echo {}
next
answer 1 {}
answer 1 {}
sweep
reopen
reopen
drain
";

// What a day over a store writes, and the store that it leaves.
#[derive(Drop)]
pub struct Left {
    pub out: MemorySink,
    pub err: MemorySink,
    pub store: Option<MemoryKeeper>,
}

pub fn left_over(
    alloc: Global,
    words: &[String],
    mut table: MemorySource,
    mut day: MemorySource,
    store: MemoryKeeper,
) -> Left {
    let mut out = MemorySink::new(alloc, Vec::new(alloc));
    let mut err = MemorySink::new(alloc, Vec::new(alloc));
    let (status, store) = office(
        alloc, words, &mut table, &mut day, &mut out, &mut err, store,
    );
    drop((status, table, day));
    Left { out, err, store }
}

fn day_over(alloc: Global, store: Box<MemoryKeeper>, day: &[u8]) -> Result<Box<Left>, Fail> {
    let words = words_of(alloc, &["day"])?;
    let table = source_of(alloc, b"", &[])?;
    let day = source_of(alloc, day, &[])?;
    held(
        alloc,
        left_over(alloc, &words, table, day, Box::into_inner(store)),
    )
}

// The text of the row at a key of the store that is left.
fn row_at<'a>(left: &'a Left, key: &str) -> Option<&'a str> {
    match left.store.as_ref()?.rows().find(key) {
        Some(found) => Some(found.as_str()),
        None => None,
    }
}

// The store that is left.
pub fn store_of(alloc: Global, left: Box<Left>) -> Result<Box<MemoryKeeper>, Fail> {
    let Left { out, err, store } = Box::into_inner(left);
    drop((out, err));
    held(alloc, store.ok_or("no store")?)
}

fn check_first<H: Abort>(rt: &H, left: &Left) {
    assert!(rt; left.out.bytes() == FIRST_OUT);
    assert!(rt; row_at(left, "open/00000000000000000000000000000002") == Some(OPEN));
}

fn check_second<H: Abort>(rt: &H, left: &Left) {
    assert!(rt; left.out.bytes() == SECOND_OUT);
    assert!(rt; row_at(left, "done/00000000000000000000000000000002") == Some(ABANDONED));
    assert!(rt; row_at(left, "open/00000000000000000000000000000002").is_none());
}

#[test]
fn what_a_day_leaves_stands_in_the_next(rt: HostRuntime) -> Result<(), Fail> {
    let alloc = rt.alloc();
    let left = day_over(alloc, held(alloc, MemoryKeeper::new(alloc))?, FIRST)?;
    check_first(&rt, &left);
    let left = day_over(alloc, store_of(alloc, left)?, SECOND)?;
    check_second(&rt, &left);
    Ok(())
}

// Whether a day over a store whose call of this number fails writes this.
fn is_written(alloc: Global, number: u64, out: &[u8], err: &[u8]) -> Result<bool, Fail> {
    let failing = vec![in alloc; number]?;
    let store = held(alloc, MemoryKeeper::holding(Rows::new(alloc), failing))?;
    let left = day_over(alloc, store, DAY)?;
    Ok(left.out.bytes() == out && left.err.bytes() == err)
}

#[test]
fn a_failed_call_of_the_store_leaves_all_as_it_was(rt: HostRuntime) -> Result<(), Fail> {
    for (number, out, err) in &FAILING {
        assert!(rt; is_written(rt.alloc(), *number, out, err)?, "call {number}");
    }
    Ok(())
}

// Which call of the store fails for a deployment, what it writes then, and the line that reports how it ends.
const FAILING_DEPLOYMENTS: [(u64, &[u8], &[u8]); 4] = [
    (0, b"", b"store fault\n"),
    (1, b"", b"store fault\n"),
    (2, b"", b"refused at 0 31 The store failed.\n"),
    (3, b"deployed made 1 changed 0 same 0\n", b""),
];

const MANIFEST: &[u8] = b"namespace = \"guest\"\n[triggers.t]\n";

fn deployed_over(
    alloc: Global,
    store: Box<MemoryKeeper>,
    manifest: &[u8],
) -> Result<Box<Left>, Fail> {
    let words = words_of(alloc, &["deploy", "--table", "office.csv"])?;
    let table = source_of(alloc, TABLE, &[])?;
    let day = source_of(alloc, manifest, &[])?;
    held(
        alloc,
        left_over(alloc, &words, table, day, Box::into_inner(store)),
    )
}

// Whether a deployment over a store whose call of this number fails writes this, and leaves its row where it is whole.
fn is_deployed(alloc: Global, number: u64, out: &[u8], err: &[u8]) -> Result<bool, Fail> {
    let failing = vec![in alloc; number]?;
    let store = held(alloc, MemoryKeeper::holding(Rows::new(alloc), failing))?;
    let left = deployed_over(alloc, store, MANIFEST)?;
    let is_kept = row_at(&left, "row/trigger/guest/t").is_some();
    let is_written = left.out.bytes() == out && left.err.bytes() == err;
    Ok(is_written && is_kept == err.is_empty())
}

#[test]
fn a_deployment_is_kept_whole_or_not_at_all(rt: HostRuntime) -> Result<(), Fail> {
    for (number, out, err) in &FAILING_DEPLOYMENTS {
        assert!(rt;
            is_deployed(rt.alloc(), *number, out, err)?,
            "call {number}"
        );
    }
    Ok(())
}

fn bad_rows(alloc: Global) -> Result<Rows, Fail> {
    let key = Str::of(alloc, "version")?;
    let text = Str::of(alloc, "2")?;
    let mut rows = Rows::new(alloc);
    rows.put(key, text)?;
    Ok(rows)
}

fn left_by_a_bad_row(alloc: Global) -> Result<Box<Left>, Fail> {
    let rows = bad_rows(alloc)?;
    let store = held(alloc, MemoryKeeper::holding(rows, Vec::new(alloc)))?;
    day_over(alloc, store, DAY)
}

fn check_bad_row<H: Abort>(rt: &H, left: &Left) {
    assert!(rt; left.err.bytes() == b"bad kept row version\n".as_slice());
    assert!(rt; left.out.bytes() == b"".as_slice());
}

#[test]
fn a_bad_row_is_told_by_its_key(rt: HostRuntime) -> Result<(), Fail> {
    let left = left_by_a_bad_row(rt.alloc())?;
    check_bad_row(&rt, &left);
    Ok(())
}
