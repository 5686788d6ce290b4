// Triggers, rules, and fires of a trigger with what its rules call.
use crate::of_hall::{Office, office_of, office_over, ordered};
use crate::of_waits::rows_hold;
use std::alloc::Global;
use std::test::Fail;

// One invocation may be accepted in a minute.
const ONE_CALL: &str = "namespace,1,guest,1,,\nkey,k1,anna,guest,,\n";

// One trigger may be fired in a minute.
const ONE_FIRE: &str = "namespace,1,guest,,,1\nkey,k1,anna,guest,,\n";

// A fire has an id and a record of its own, and the rules call in the order of their names. A rule whose call is refused is a line
// of the record. A fire that no active rule follows is answered before all that isn't its trigger.
const FIRES: &str =
    r#"0|PUT /api/v1/namespaces/_/triggers/t|{"parameters":[{"key":"a","value":1}]}|200 OK|{"annotations":[],"name":"t","namespace":"guest","parameters":[{"key":"a","value":1}],"publish":false,"version":"0.0.1"}
0|GET /api/v1/namespaces/_/triggers||200 OK|[{"annotations":[],"name":"t","namespace":"guest","publish":false,"version":"0.0.1"}]
0|GET /api/v1/namespaces/_/rules||200 OK|[]
0|POST /api/v1/namespaces/_/triggers/none||404 Not Found|{"code":14,"error":"The resource does not exist."}
0|POST /api/v1/namespaces/_/triggers/t|7|400 Bad Request|{"code":10,"error":"The field body has a wrong type."}
0|POST /api/v1/namespaces/_/triggers/t|{"b":2}|204 No Content|
0|PUT /api/v1/namespaces/_/actions/x|HELLO|200 OK|
0|PUT /api/v1/namespaces/_/actions/y|HELLO|200 OK|
0|PUT /api/v1/namespaces/_/rules/r1|{"trigger":"/_/t","action":"/_/none"}|404 Not Found|{"code":14,"error":"The resource does not exist."}
0|PUT /api/v1/namespaces/_/rules/r2|{"trigger":"/_/t","action":"/_/y"}|200 OK|{"action":"/guest/y","annotations":[],"name":"r2","namespace":"guest","publish":false,"status":"active","trigger":"/guest/t","version":"0.0.1"}
0|PUT /api/v1/namespaces/_/rules/r1|{"trigger":"/_/t","action":"/_/x"}|200 OK|{"action":"/guest/x","annotations":[],"name":"r1","namespace":"guest","publish":false,"status":"active","trigger":"/guest/t","version":"0.0.1"}
0|POST /api/v1/namespaces/_/triggers/t|{"b":2}|202 Accepted|{"activationId":"00000000000000010000000000000001"}
0|GET /api/v1/namespaces/_/activations||200 OK|[{"activationId":"00000000000000010000000000000001","duration":0,"end":0,"name":"t","namespace":"guest","start":0,"statusCode":0,"version":"0.0.1"}]
0|GET /api/v1/namespaces/_/activations/00000000000000010000000000000001||200 OK|{"activationId":"00000000000000010000000000000001","annotations":[],"duration":0,"end":0,"logs":["{\"action\":\"/guest/x\",\"activationId\":\"00000000000000010000000000000002\",\"rule\":\"/guest/r1\"}","{\"action\":\"/guest/y\",\"code\":25,\"error\":\"Too many invocations in the last minute: 1 of 1.\",\"rule\":\"/guest/r2\"}"],"name":"t","namespace":"guest","response":{"result":{"a":1,"b":2},"status":"success","statusCode":0,"success":true},"start":0,"subject":"anna","version":"0.0.1"}
0|next||run 1|
0|answer 1|{}|recorded|
0|GET /api/v1/namespaces/_/activations/00000000000000010000000000000002||200 OK|{"activationId":"00000000000000010000000000000002","annotations":[{"key":"kind","value":"plain:1"},{"key":"limits","value":{"logs":10,"memory":256,"timeout":60000}},{"key":"path","value":"guest/x"},{"key":"waitTime","value":0}],"duration":0,"end":0,"logs":["a line"],"name":"x","namespace":"guest","response":{"result":{},"status":"success","statusCode":0,"success":true},"start":0,"subject":"anna","version":"0.0.1"}
0|POST /api/v1/namespaces/_/rules/r1|{"status":"on"}|400 Bad Request|{"code":11,"error":"The field status is out of range."}
0|POST /api/v1/namespaces/_/rules/none|{"status":"inactive"}|404 Not Found|{"code":14,"error":"The resource does not exist."}
0|POST /api/v1/namespaces/_/rules/r1|{"status":"inactive"}|200 OK|{"action":"/guest/x","annotations":[],"name":"r1","namespace":"guest","publish":false,"status":"inactive","trigger":"/guest/t","version":"0.0.1"}
0|POST /api/v1/namespaces/_/rules/r1|{"status":"inactive"}|200 OK|{"action":"/guest/x","annotations":[],"name":"r1","namespace":"guest","publish":false,"status":"inactive","trigger":"/guest/t","version":"0.0.1"}
0|POST /api/v1/namespaces/_/rules/r2|{"status":"inactive"}|200 OK|
0|POST /api/v1/namespaces/_/triggers/t|{"b":2}|204 No Content|
0|DELETE /api/v1/namespaces/_/rules/r1||200 OK|{"action":"/guest/x","annotations":[],"name":"r1","namespace":"guest","publish":false,"status":"inactive","trigger":"/guest/t","version":"0.0.1"}
0|drain||drained|
0|POST /api/v1/namespaces/_/triggers/t||204 No Content|
0|POST /api/v1/namespaces/_/rules/r2|{"status":"active"}|200 OK|
0|POST /api/v1/namespaces/_/triggers/t||503 Service Unavailable|{"code":32,"error":"The office is draining."}
"#;

// A trigger and a rule that follows it, and then fires.
const FOLLOWED: &str = r#"0|PUT /api/v1/namespaces/_/triggers/t|{}|200 OK|
0|PUT /api/v1/namespaces/_/actions/x|HELLO|200 OK|
0|PUT /api/v1/namespaces/_/rules/r|{"trigger":"/_/t","action":"/_/x"}|200 OK|
"#;

const FIRED_TOO_OFTEN: &str =
    r#"0|POST /api/v1/namespaces/_/triggers/t||202 Accepted|{"activationId":"00000000000000010000000000000001"}
0|POST /api/v1/namespaces/_/triggers/t||429 Too Many Requests|{"code":27,"error":"Too many fires in the last minute: 1 of 1."}
59999|POST /api/v1/namespaces/_/triggers/t||429 Too Many Requests|{"code":27,"error":"Too many fires in the last minute: 1 of 1."}
60000|POST /api/v1/namespaces/_/triggers/t||202 Accepted|{"activationId":"00000000000000010000000000000003"}
"#;

// A fire whose commit fails, and what is left then.
const FAILED: &str =
    r#"0|POST /api/v1/namespaces/_/triggers/t||503 Service Unavailable|{"code":31,"error":"The store failed."}
0|GET /api/v1/namespaces/_/activations||200 OK|[]
"#;

const FIRED_AGAIN: &str =
    r#"0|POST /api/v1/namespaces/_/triggers/t||202 Accepted|{"activationId":"00000000000000010000000000000001"}
0|next||run 1|
"#;

fn fires(alloc: Global, hall: &mut Office) -> Result<bool, Fail> {
    rows_hold(alloc, hall, FIRES)
}

#[test]
fn a_fire_calls_by_each_active_rule(rt: HostRuntime) -> Result<(), Fail> {
    let alloc = rt.alloc();
    let mut hall = office_of(alloc, ONE_CALL)?;
    let hold = fires(alloc, &mut hall);
    drop(hall);
    assert!(rt; hold?);
    Ok(())
}

fn fires_once(alloc: Global, hall: &mut Office) -> Result<bool, Fail> {
    Ok(rows_hold(alloc, hall, FOLLOWED)? && rows_hold(alloc, hall, FIRED_TOO_OFTEN)?)
}

#[test]
fn fires_in_a_minute_are_limited(rt: HostRuntime) -> Result<(), Fail> {
    let alloc = rt.alloc();
    let mut hall = office_of(alloc, ONE_FIRE)?;
    let hold = fires_once(alloc, &mut hall);
    drop(hall);
    assert!(rt; hold?);
    Ok(())
}

// Whether a fire whose commit fails leaves no record, nothing that waits, no id that is drawn, and nothing that counts.
fn fails_first(alloc: Global, hall: &mut Office) -> Result<bool, Fail> {
    let failed = rows_hold(alloc, hall, FOLLOWED)? && rows_hold(alloc, hall, FAILED)?;
    let waiting = ordered(alloc, hall, 0)?;
    let stored = hall.book().stored();
    Ok(failed && (waiting, stored) == (0, 1) && rows_hold(alloc, hall, FIRED_AGAIN)?)
}

#[test]
fn a_fire_whose_commit_fails_changes_nothing(rt: HostRuntime) -> Result<(), Fail> {
    let alloc = rt.alloc();
    let mut hall = office_over(alloc, ONE_FIRE, &[5])?;
    let hold = fails_first(alloc, &mut hall);
    drop(hall);
    assert!(rt; hold?);
    Ok(())
}
