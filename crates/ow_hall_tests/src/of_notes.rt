// The office's own fires of triggers, and the notes that are kept with them.
ghost use Rattle.std.specs.Prelude.{◌≡◌, ◌≤◌, true, IfOk};
ghost use Rattle.ow_keep.specs.Allowed.{is_note};

use crate::of_hall::{Office, called_name, office_of, office_over};
use crate::of_waits::rows_hold;
use ow_decide::Fired;
use ow_hall::Hall;
use ow_http::{Reason, ServiceRefusal};
use ow_records::Id;
use ow_row_text::Note;
use ow_tenant::Tenants;
use ow_traits::{MemoryKeeper, MemorySource, Rows};
use ow_value::{Params, PlainData, Str};
use std::alloc::Global;
use std::test::Fail;

// One namespace, and one key in it. One trigger may be fired in a minute.
const TABLE: &str = "namespace,1,guest,,,1\nkey,k1,anna,guest,,\n";

// A trigger without rules.
const TRIGGER: &str = r#"0|PUT /api/v1/namespaces/_/triggers/t|{}|200 OK|
"#;

// A rule that follows it, and the action that it calls.
const RULE: &str = r#"0|PUT /api/v1/namespaces/_/actions/x|HELLO|200 OK|
0|PUT /api/v1/namespaces/_/rules/r|{"trigger":"/_/t","action":"/_/x"}|200 OK|
"#;

// The record of a fire of it, whose subject is the office, and the run of what the rule calls.
const MADE: &str =
    r#"0|GET /api/v1/namespaces/_/activations/00000000000000010000000000000001||200 OK|{"activationId":"00000000000000010000000000000001","annotations":[],"duration":0,"end":0,"logs":["{\"action\":\"/guest/x\",\"activationId\":\"00000000000000010000000000000002\",\"rule\":\"/guest/r\"}"],"name":"t","namespace":"guest","response":{"result":{},"status":"success","statusCode":0,"success":true},"start":0,"subject":"office","version":"0.0.1"}
0|next||run 1|
"#;

// The commit of the third fire: after the opening, the put of the trigger, and the first fire; the second one commits nothing.
const THIRD: u64 = 4;

// A note of the key `k`.
fn note_of(alloc: Global, value: u64) -> Result<Note, Fail>
    requires { value ≤ 6 }
    ensures { IfOk result (λ n. is_note n ≡ true) }
{
    let key = Str::of(alloc, "k")?;
    Ok(Note { key, value })
}

// Whether a fire of the trigger at the path, without parameters, is answered so.
fn is_fired(
    alloc: Global,
    hall: &mut Office,
    path: &str,
    value: u64,
    expected: &Fired,
) -> Result<bool, Fail>
    requires { value ≤ 6 }
{
    let trigger = called_name(alloc, path)?;
    let note = note_of(alloc, value)?;
    Ok(
        hall.fire(alloc, 0, &trigger, Params::new(), &note)?
            .same(expected),
    )
}

fn refused(refusal: ServiceRefusal) -> Fired {
    Fired::Refused(Reason::Service(refusal))
}

// Whether a note is kept with a quiet fire, also over a reopening.
fn keeps_note(alloc: Global, hall: &mut Office) -> Result<bool, Fail> {
    let ready = rows_hold(alloc, hall, TRIGGER)? && hall.note("k").is_none();
    let quiet = is_fired(alloc, hall, "t", 5, &Fired::Quiet)?;
    let kept = hall.note("k") == Some(5) && hall.note("j").is_none();
    hall.reopen_in_place(alloc, 0)?;
    Ok(ready && quiet && kept && hall.note("k") == Some(5))
}

// The note of a service that is opened over these rows.
fn note_over(alloc: Global, rows: Rows) -> Result<Option<u64>, Fail> {
    let mut source = MemorySource::new(TABLE.as_bytes().to_vec(alloc)?, Vec::new(alloc));
    let tenants = Tenants::read(alloc, &mut source)?;
    let store = MemoryKeeper::holding(rows, Vec::new(alloc));
    match Hall::start(alloc, store, tenants, 0) {
        Ok(hall) => {
            let note = hall.note("k");
            drop(hall);
            Ok(note)
        }
        Err(_) => Err("not opened")?,
    }
}

// Whether it is among the rows then, and is there at the next opening.
fn lasts(alloc: Global, hall: Office) -> Result<bool, Fail> {
    let mut hall = hall;
    let kept = keeps_note(alloc, &mut hall);
    let (store, _book) = hall.finish();
    let rows = store.into_rows();
    let is_row = rows.find("note/k").is_some_and(|text| text.as_str() == "5");
    let (kept, is_row, rows) = (kept?, is_row, rows);
    Ok(kept && is_row && note_over(alloc, rows)? == Some(5))
}

#[test]
fn a_note_of_a_quiet_fire_lasts(rt: HostRuntime) -> Result<(), Fail> {
    let alloc = rt.alloc();
    let hall = office_of(alloc, TABLE)?;
    assert!(rt; lasts(alloc, hall)?);
    Ok(())
}

// Whether a fire with the note that is kept commits nothing, and one whose commit fails leaves the note as it was.
fn fails_third(alloc: Global, hall: &mut Office) -> Result<bool, Fail> {
    let ready = rows_hold(alloc, hall, TRIGGER)?;
    let first = is_fired(alloc, hall, "t", 5, &Fired::Quiet)?;
    let again = is_fired(alloc, hall, "t", 5, &Fired::Quiet)?;
    let failed = is_fired(alloc, hall, "t", 6, &refused(ServiceRefusal::StoreFault))?;
    let stays = hall.note("k") == Some(5);
    let changed = is_fired(alloc, hall, "t", 6, &Fired::Quiet)? && hall.note("k") == Some(6);
    Ok(ready && first && again && failed && stays && changed)
}

#[test]
fn a_note_is_committed_where_it_changes(rt: HostRuntime) -> Result<(), Fail> {
    let alloc = rt.alloc();
    let mut hall = office_over(alloc, TABLE, &[THIRD])?;
    let hold = fails_third(alloc, &mut hall);
    drop(hall);
    assert!(rt; hold?);
    Ok(())
}

// Whether a fire of an active rule is made, and its note kept, and refused fires keep none.
fn fires_once(alloc: Global, hall: &mut Office) -> Result<bool, Fail> {
    let missing = is_fired(alloc, hall, "t", 5, &refused(ServiceRefusal::NotFound))?;
    let ready = rows_hold(alloc, hall, TRIGGER)? && rows_hold(alloc, hall, RULE)?;
    let none = hall.note("k").is_none();
    let id = Id {
        namespace: 1,
        count: 1,
    };
    let made = is_fired(alloc, hall, "t", 5, &Fired::Made { id })?;
    let limit = refused(ServiceRefusal::FireLimit {
        count: 1,
        allowed: 1,
    });
    let limited = is_fired(alloc, hall, "t", 6, &limit)?;
    let kept = hall.note("k") == Some(5);
    Ok(missing && ready && none && made && limited && kept && rows_hold(alloc, hall, MADE)?)
}

#[test]
fn a_note_is_kept_unless_the_fire_is_refused(rt: HostRuntime) -> Result<(), Fail> {
    let alloc = rt.alloc();
    let mut hall = office_of(alloc, TABLE)?;
    let hold = fires_once(alloc, &mut hall);
    drop(hall);
    assert!(rt; hold?);
    Ok(())
}
