// Packages and bindings: what is put, shown, called through them, and refused.
use crate::of_hall::{Office, all_hold, office};
use std::alloc::Global;
use std::test::Fail;

// Method and target, body, status and the body that answers.
const ROWS: &str =
    r#"PUT /api/v1/namespaces/_/packages/p|{"parameters":[{"key":"x","value":1}]}|200 OK|{"actions":[],"annotations":[],"binding":{},"name":"p","namespace":"guest","parameters":[{"key":"x","value":1}],"publish":false,"version":"0.0.1"}
PUT /api/v1/namespaces/_/actions/p/a|HELLO|200 OK|{"annotations":[],"exec":{"code":"{\"cases\":[{\"when\":{},\"give\":{\"greeting\":\"Hello\"}}]}","kind":"plain:1"},"limits":{"logs":10,"memory":256,"timeout":60000},"name":"a","namespace":"guest/p","parameters":[],"publish":false,"version":"0.0.1"}
PUT /api/v1/namespaces/_/packages/b|{"binding":{"namespace":"_","name":"p"}}|200 OK|{"actions":[{"annotations":[],"name":"a","version":"0.0.1"}],"annotations":[],"binding":{"name":"p","namespace":"guest"},"name":"b","namespace":"guest","parameters":[],"publish":false,"version":"0.0.1"}
GET /api/v1/namespaces/_/packages/b||200 OK|{"actions":[{"annotations":[],"name":"a","version":"0.0.1"}],"annotations":[],"binding":{"name":"p","namespace":"guest"},"name":"b","namespace":"guest","parameters":[],"publish":false,"version":"0.0.1"}
GET /api/v1/namespaces/_/packages||200 OK|[{"annotations":[],"name":"b","namespace":"guest","publish":false,"version":"0.0.1"},{"annotations":[],"name":"p","namespace":"guest","publish":false,"version":"0.0.1"}]
GET /api/v1/namespaces/_/actions/b/a||200 OK|{"annotations":[],"exec":{"code":"{\"cases\":[{\"when\":{},\"give\":{\"greeting\":\"Hello\"}}]}","kind":"plain:1"},"limits":{"logs":10,"memory":256,"timeout":60000},"name":"a","namespace":"guest/p","parameters":[],"publish":false,"version":"0.0.1"}
PUT /api/v1/namespaces/_/packages/c|{"binding":{"namespace":"_","name":"b"}}|400 Bad Request|{"code":15,"error":"The package is a binding."}
PUT /api/v1/namespaces/_/packages/c|{"binding":{"namespace":"_","name":"none"}}|404 Not Found|{"code":14,"error":"The resource does not exist."}
PUT /api/v1/namespaces/_/actions/b/x|HELLO|400 Bad Request|{"code":15,"error":"The package is a binding."}
PUT /api/v1/namespaces/_/actions/none/x|HELLO|404 Not Found|{"code":14,"error":"The resource does not exist."}
DELETE /api/v1/namespaces/_/actions/b/a||404 Not Found|{"code":14,"error":"The resource does not exist."}
DELETE /api/v1/namespaces/_/packages/p||409 Conflict|{"code":21,"error":"The package holds actions."}
GET /api/v1/namespaces/whisk.system/packages/utils||200 OK|{"actions":[{"annotations":[],"name":"echo","version":"0.0.1"}],"annotations":[],"binding":{},"name":"utils","namespace":"whisk.system","parameters":[],"publish":true,"version":"0.0.1"}
GET /api/v1/namespaces/whisk.system/actions/utils/echo||200 OK|{"annotations":[],"exec":{"code":"{\"cases\":[{\"give\":{\"$all\":true},\"when\":{}}]}","kind":"plain:1"},"limits":{"logs":10,"memory":256,"timeout":60000},"name":"echo","namespace":"whisk.system/utils","parameters":[],"publish":false,"version":"0.0.1"}
GET /api/v1/namespaces/whisk.system/actions/utils/none||404 Not Found|{"code":14,"error":"The resource does not exist."}
GET /api/v1/namespaces/whisk.system/actions/echo||403 Forbidden|{"code":24,"error":"The namespace is not granted."}
GET /api/v1/namespaces/whisk.system/packages/none||403 Forbidden|{"code":24,"error":"The namespace is not granted."}
GET /api/v1/namespaces/whisk.system/packages||403 Forbidden|{"code":24,"error":"The namespace is not granted."}
PUT /api/v1/namespaces/whisk.system/packages/utils?overwrite=true|{}|403 Forbidden|{"code":24,"error":"The namespace is not granted."}
DELETE /api/v1/namespaces/whisk.system/actions/utils/echo||403 Forbidden|{"code":24,"error":"The namespace is not granted."}
POST /api/v1/namespaces/whisk.system/actions/utils/echo|{"a":1}|202 Accepted|{"activationId":"00000000000000010000000000000001"}
POST /api/v1/namespaces/whisk.system/actions/utils/none|{"a":1}|404 Not Found|{"code":14,"error":"The resource does not exist."}
POST /api/v1/namespaces/_/actions/b/a|{"x":2}|202 Accepted|{"activationId":"00000000000000010000000000000002"}
PUT /api/v1/namespaces/_/actions/p/a?overwrite=true|FINAL|200 OK|{"annotations":[{"key":"final","value":true}],"exec":{"code":"{\"cases\":[{\"when\":{},\"give\":{\"greeting\":\"Hello\"}}]}","kind":"plain:1"},"limits":{"logs":10,"memory":256,"timeout":60000},"name":"a","namespace":"guest/p","parameters":[{"key":"y","value":2}],"publish":false,"version":"0.0.2"}
POST /api/v1/namespaces/_/actions/p/a|{"y":2}|400 Bad Request|{"code":16,"error":"The parameter y is fixed."}
POST /api/v1/namespaces/_/actions/b/a|{"z":1,"x":1}|400 Bad Request|{"code":16,"error":"The parameter x is fixed."}
POST /api/v1/namespaces/_/actions/b/a|{"z":1}|202 Accepted|{"activationId":"00000000000000010000000000000003"}
DELETE /api/v1/namespaces/_/actions/p/a||200 OK|{"annotations":[{"key":"final","value":true}],"exec":{"code":"{\"cases\":[{\"when\":{},\"give\":{\"greeting\":\"Hello\"}}]}","kind":"plain:1"},"limits":{"logs":10,"memory":256,"timeout":60000},"name":"a","namespace":"guest/p","parameters":[{"key":"y","value":2}],"publish":false,"version":"0.0.2"}
DELETE /api/v1/namespaces/_/packages/p||200 OK|{"actions":[],"annotations":[],"binding":{},"name":"p","namespace":"guest","parameters":[{"key":"x","value":1}],"publish":false,"version":"0.0.1"}
GET /api/v1/namespaces/_/packages/b||200 OK|{"actions":[],"annotations":[],"binding":{"name":"p","namespace":"guest"},"name":"b","namespace":"guest","parameters":[],"publish":false,"version":"0.0.1"}
GET /api/v1/namespaces/_/actions/b/a||404 Not Found|{"code":14,"error":"The resource does not exist."}
POST /api/v1/namespaces/_/actions/b/a|{}|404 Not Found|{"code":14,"error":"The resource does not exist."}
"#;

// Whether the rows are answered so, and booked.
fn answers(alloc: Global, hall: &mut Office) -> Result<bool, Fail> {
    let hold = all_hold(alloc, hall, ROWS)?;
    Ok(hold && hall.book().entries().len() == 33)
}

#[test]
fn packages_are_put_bound_and_called(rt: HostRuntime) -> Result<(), Fail> {
    let alloc = rt.alloc();
    let mut hall = office(alloc)?;
    let hold = answers(alloc, &mut hall);
    drop(hall);
    assert!(rt; hold?);
    Ok(())
}
