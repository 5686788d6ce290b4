// Records that are archived once they were retained for as long as the office table says, and rows of the first version.
use crate::of_hall::{Office, office_of, office_over};
use crate::of_waits::rows_hold;
use ow_hall::{Hall, SweepRefusal};
use ow_tenant::Tenants;
use ow_traits::{MemoryKeeper, MemorySource, Rows};
use ow_value::{PlainData, Str};
use std::alloc::Global;
use std::test::Fail;

// One namespace, and one key in it. Records are retained for one day.
const TABLE: &str = "namespace,1,guest,,,\nkey,k1,anna,guest,,\nretain,1,,,,\n";

// A blocking request whose activation ends at 0. Its record is shown for a day.
const RETAINED: &str = r#"0|PUT /api/v1/namespaces/_/actions/hello|HELLO|200 OK|
0|POST /api/v1/namespaces/_/actions/hello?blocking=true&result=true||waiting|60000
0|next||run 1|
0|answer 1|{"greeting":"Hello"}|recorded|
86399999|sweep|||0
86399999|GET /api/v1/namespaces/_/activations/00000000000000010000000000000001/result||200 OK|{"result":{"greeting":"Hello"},"status":"success","statusCode":0,"success":true}
"#;

// Before and after the sweep that archives it.
const SHOWN: &str =
    r#"86400000|GET /api/v1/namespaces/_/activations/00000000000000010000000000000001/result||200 OK|{"result":{"greeting":"Hello"},"status":"success","statusCode":0,"success":true}
86400000|collect 1||200 OK|{"greeting":"Hello"}
"#;

const ARCHIVED: &str = r#"86400000|sweep|||0
86400000|GET /api/v1/namespaces/_/activations/00000000000000010000000000000001||404 Not Found|{"code":14,"error":"The resource does not exist."}
86400000|GET /api/v1/namespaces/_/activations||200 OK|[]
86400000|collect 1||202 Accepted|{"activationId":"00000000000000010000000000000001"}
"#;

// The key of its row, and what the row of the archive says then.
const DONE: &str = "done/00000000000000010000000000000001";

const ONE_ARCHIVED: &str = r#"{"last":0,"number":1}"#;

const NONE_ARCHIVED: &str = r#"{"last":0,"number":0}"#;

// The commit of the sweep that archives: after the opening, the put, the request and its end.
const ARCHIVING: u64 = 5;

fn has_text(rows: &Rows, key: &str, text: &str) -> bool {
    rows.find(key).is_some_and(|found| found.as_str() == text)
}

// Whether the row of the record has left for the old rows, and is counted.
fn has_left(store: &MemoryKeeper) -> bool {
    let old_rows = store.old_rows();
    has_text(store.rows(), "archived", ONE_ARCHIVED)
        && store.rows().find(DONE).is_none()
        && old_rows.find(DONE).is_some()
        && old_rows.len() == 1
}

// Whether a day later a record is no longer shown, and the store has it among its old rows.
fn archives(alloc: Global, hall: Office) -> Result<bool, Fail> {
    let mut hall = hall;
    let hold = is_archived(alloc, &mut hall);
    let (store, _book) = hall.finish();
    Ok(hold? && has_left(&store))
}

fn is_archived(alloc: Global, hall: &mut Office) -> Result<bool, Fail> {
    Ok(
        rows_hold(alloc, hall, RETAINED)?
            && rows_hold(alloc, hall, SHOWN)?
            && rows_hold(alloc, hall, ARCHIVED)?,
    )
}

#[test]
fn a_record_is_archived_a_day_after_its_end(rt: HostRuntime) -> Result<(), Fail> {
    let alloc = rt.alloc();
    let hall = office_of(alloc, TABLE)?;
    assert!(rt; archives(alloc, hall)?);
    Ok(())
}

// Whether a sweep whose commit fails leaves the record shown, and the next one archives it.
fn fails_first(alloc: Global, hall: &mut Office) -> Result<bool, Fail> {
    let retained = rows_hold(alloc, hall, RETAINED)?;
    let failed = matches!(hall.sweep(alloc, 86_400_000), Err(SweepRefusal::StoreFault));
    let shown = rows_hold(alloc, hall, SHOWN)?;
    Ok(retained && failed && shown && rows_hold(alloc, hall, ARCHIVED)?)
}

#[test]
fn a_sweep_whose_commit_fails_archives_nothing(rt: HostRuntime) -> Result<(), Fail> {
    let alloc = rt.alloc();
    let mut hall = office_over(alloc, TABLE, &[ARCHIVING])?;
    let hold = fails_first(alloc, &mut hall);
    drop(hall);
    assert!(rt; hold?);
    Ok(())
}

// ---- rows of the first version

// The rows of a service with one record, which has no row of another version yet.
fn kept_rows(alloc: Global, hall: Office) -> Result<Rows, Fail> {
    let mut hall = hall;
    let hold = rows_hold(alloc, &mut hall, RETAINED);
    let (store, _book) = hall.finish();
    match hold {
        Ok(true) => Ok(store.into_rows()),
        Ok(false) => {
            drop(store);
            Err("not retained")?
        }
        Err(e) => {
            drop(store);
            Err(e)
        }
    }
}

// The same rows as the first version has them: it has no row of the archive.
fn first_version(alloc: Global, rows: &Rows) -> Result<Rows, Fail> {
    let mut first = Rows::new(alloc);
    for row in rows.as_slice() {
        put_first(alloc, &mut first, row)?;
    }
    Ok(first)
}

fn put_first(alloc: Global, rows: &mut Rows, row: &(Str, Str)) -> Result<(), Fail> {
    if row.0.as_str() == "archived" {
        return Ok(());
    }
    let key = row.0.copy(alloc)?;
    if row.0.as_str() == "version" {
        let text = Str::of(alloc, "1")?;
        rows.put(key, text)?;
    } else {
        let text = row.1.copy(alloc)?;
        rows.put(key, text)?;
    }
    Ok(())
}

// The rows that a service leaves that is opened over these, and closed again.
fn opened_over(alloc: Global, rows: Rows) -> Result<Rows, Fail> {
    let mut source = MemorySource::new(TABLE.as_bytes().to_vec(alloc)?, Vec::new(alloc));
    let tenants = Tenants::read(alloc, &mut source)?;
    let store = MemoryKeeper::holding(rows, Vec::new(alloc));
    match Hall::start(alloc, store, tenants, 0) {
        Ok(hall) => {
            let (store, _book) = hall.finish();
            Ok(store.into_rows())
        }
        Err(_) => Err("not opened")?,
    }
}

// Whether rows of the first version are those of the second once they were opened, with the same other rows.
fn migrates(alloc: Global, rows: &Rows) -> Result<bool, Fail> {
    let first = first_version(alloc, rows)?;
    let fewer = first.len() + 1 == rows.len();
    let after = opened_over(alloc, first)?;
    Ok(
        fewer
            && after.same(rows)
            && has_text(rows, "archived", NONE_ARCHIVED)
            && has_text(&after, "version", "2"),
    )
}

#[test]
fn rows_of_the_first_version_are_opened(rt: HostRuntime) -> Result<(), Fail> {
    let alloc = rt.alloc();
    let hall = office_of(alloc, TABLE)?;
    let rows = kept_rows(alloc, hall)?;
    assert!(rt; migrates(alloc, &rows)?);
    Ok(())
}
