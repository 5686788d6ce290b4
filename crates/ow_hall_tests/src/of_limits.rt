// What may be invoked in a minute and at once.
use crate::of_hall::{Office, called, called_at, ended, office, office_of, ordered};
use crate::of_waits::rows_hold;
use std::alloc::Global;
use std::test::Fail;

const TABLE: &str = "namespace,1,guest,2,1,
namespace,2,other,1,,
key,k1,anna,guest,,
key,k2,bert,other,,
grant,k1,other,invoke,,
";

// An activation is charged to the namespace of its action where the key may invoke there, and otherwise to the key's own; the office's
// own calls are charged to that of the action. The first limit allows a call again after a minute, and the second at an end, by an answer
// or a sweep.
const ROWS: &str = r#"0|PUT /api/v1/namespaces/_/actions/a|HELLO|200 OK|
0 k2|PUT /api/v1/namespaces/_/actions/b|HELLO|200 OK|
0|POST /api/v1/namespaces/_/actions/a||202 Accepted|{"activationId":"00000000000000010000000000000001"}
0|POST /api/v1/namespaces/_/actions/a||429 Too Many Requests|{"code":26,"error":"Too many concurrent activations: 1 of 1."}
0|POST /api/v1/namespaces/_/actions/a?blocking=true||429 Too Many Requests|{"code":26,"error":"Too many concurrent activations: 1 of 1."}
0|POST /api/v1/namespaces/whisk.system/actions/utils/echo||429 Too Many Requests|{"code":26,"error":"Too many concurrent activations: 1 of 1."}
0|call /guest/a||refused|26
0|call /whisk.system/utils/echo||accepted|0
0|POST /api/v1/namespaces/other/actions/b||202 Accepted|{"activationId":"00000000000000020000000000000001"}
0 k2|POST /api/v1/namespaces/_/actions/b||429 Too Many Requests|{"code":25,"error":"Too many invocations in the last minute: 1 of 1."}
0|next||run 1|
0|answer 1|{}|recorded|
1|POST /api/v1/namespaces/_/actions/a||202 Accepted|{"activationId":"00000000000000010000000000000002"}
1|POST /api/v1/namespaces/_/actions/a||429 Too Many Requests|{"code":25,"error":"Too many invocations in the last minute: 2 of 2."}
59999 k2|POST /api/v1/namespaces/_/actions/b||429 Too Many Requests|{"code":25,"error":"Too many invocations in the last minute: 1 of 1."}
60000 k2|POST /api/v1/namespaces/_/actions/b||202 Accepted|{"activationId":"00000000000000020000000000000002"}
60000|POST /api/v1/namespaces/_/actions/a||429 Too Many Requests|{"code":26,"error":"Too many concurrent activations: 1 of 1."}
60000|next||run 2|
60000|next||run 3|
60000|next||run 4|
120000|POST /api/v1/namespaces/_/actions/a||429 Too Many Requests|{"code":26,"error":"Too many concurrent activations: 1 of 1."}
120000|sweep||swept|0
120001|sweep||swept|3
120001|POST /api/v1/namespaces/_/actions/a||202 Accepted|{"activationId":"00000000000000010000000000000003"}
"#;

fn are_kept(alloc: Global, hall: &mut Office) -> Result<bool, Fail> {
    rows_hold(alloc, hall, ROWS)
}

#[test]
fn limits_are_kept(rt: HostRuntime) -> Result<(), Fail> {
    let alloc = rt.alloc();
    let mut hall = office_of(alloc, TABLE)?;
    let kept = are_kept(alloc, &mut hall);
    drop(hall);
    assert!(rt; kept?);
    Ok(())
}

// Whether the next call is accepted, runs and ends.
fn ends(alloc: Global, hall: &mut Office) -> Result<bool, Fail> {
    if called(alloc, hall, 0)? != 0 {
        return Ok(false);
    }
    let run = ordered(alloc, hall, 0)?;
    ended(alloc, hall, 0, run)
}

// Whether 120 calls at one moment end, and the next one is refused for less than a minute.
fn slides(alloc: Global, hall: &mut Office) -> Result<bool, Fail> {
    for _ in 0..120u32 {
        if !ends(alloc, hall)? {
            return Ok(false);
        }
    }
    let refused = (called(alloc, hall, 0)?, called(alloc, hall, 59_999)?);
    let taken = called(alloc, hall, 60_000)?;
    Ok(refused == (25, 25) && taken == 0)
}

#[test]
fn the_minute_slides(rt: HostRuntime) -> Result<(), Fail> {
    let alloc = rt.alloc();
    let mut hall = office(alloc)?;
    let slid = slides(alloc, &mut hall);
    drop(hall);
    assert!(rt; slid?);
    Ok(())
}

const WIDE: &str = "namespace,1,guest,5000,5000,\nkey,k1,anna,guest,,\n";

const PUT: &str = "0|PUT /api/v1/namespaces/_/actions/a|HELLO|200 OK|\n";

// Whether `count` calls of the namespace's action are accepted at once.
fn takes(alloc: Global, hall: &mut Office, count: u32) -> Result<bool, Fail> {
    for _ in 0..count {
        if called_at(alloc, hall, 0, "/guest/a")? != 0 {
            return Ok(false);
        }
    }
    Ok(true)
}

// Whether the service has 1,000 activations at once and no more, of all namespaces.
fn gets_busy(alloc: Global, hall: &mut Office) -> Result<bool, Fail> {
    let taken = rows_hold(alloc, hall, PUT)? && takes(alloc, hall, 1000)?;
    let busy = (
        called_at(alloc, hall, 0, "/guest/a")?,
        called(alloc, hall, 0)?,
    );
    let run = ordered(alloc, hall, 0)?;
    let free = ended(alloc, hall, 0, run)? && called(alloc, hall, 0)? == 0;
    Ok(taken && busy == (46, 46) && free && called(alloc, hall, 0)? == 46)
}

#[test]
fn a_thousand_activations_are_at_work_at_most(rt: HostRuntime) -> Result<(), Fail> {
    let alloc = rt.alloc();
    let mut hall = office_of(alloc, WIDE)?;
    let busy = gets_busy(alloc, &mut hall);
    drop(hall);
    assert!(rt; busy?);
    Ok(())
}
