// Sequences and conductors: what their children get, what ends them, and what their records show.
use crate::of_hall::{Office, office};
use crate::of_waits::rows_hold;
use std::alloc::Global;
use std::test::Fail;

// A sequence ends with the first result that has an error: the second component isn't called. Where all goes well each component
// gets the result before it, and the last result is that of the sequence. A component that doesn't exist ends it at once.
const SEQUENCES: &str =
    r#"0|PUT /api/v1/namespaces/_/actions/a|{"exec":{"kind":"plain:1","code":"{\"cases\":[]}"},"parameters":[{"key":"q","value":0}]}|200 OK|
0|PUT /api/v1/namespaces/_/actions/b|HELLO|200 OK|
0|PUT /api/v1/namespaces/_/actions/s|{"exec":{"kind":"sequence","components":["/_/a","/_/b"]},"parameters":[{"key":"p","value":1}]}|200 OK|{"annotations":[],"exec":{"components":["/guest/a","/guest/b"],"kind":"sequence"},"limits":{"logs":10,"memory":256,"timeout":60000},"name":"s","namespace":"guest","parameters":[{"key":"p","value":1}],"publish":false,"version":"0.0.1"}
0|PUT /api/v1/namespaces/_/actions/loop|{"exec":{"kind":"sequence","components":["/_/a","/_/loop"]}}|400 Bad Request|{"code":20,"error":"The sequence contains itself."}
0|POST /api/v1/namespaces/_/actions/s?blocking=true&result=true|{"x":2}|waiting|60000
0|next|{"p":1,"q":0,"x":2}|run 1|
0|answer 1|{"error":"no"}|recorded|
0|collect 1||502 Bad Gateway|{"error":"no"}
0|next||nothing|
0|GET /api/v1/namespaces/_/activations||200 OK|[{"activationId":"00000000000000010000000000000002","duration":0,"end":0,"name":"a","namespace":"guest","start":0,"statusCode":1,"version":"0.0.1"},{"activationId":"00000000000000010000000000000001","duration":0,"end":0,"name":"s","namespace":"guest","start":0,"statusCode":1,"version":"0.0.1"}]
0|GET /api/v1/namespaces/_/activations/00000000000000010000000000000001||200 OK|{"activationId":"00000000000000010000000000000001","annotations":[{"key":"kind","value":"sequence"},{"key":"limits","value":{"logs":10,"memory":256,"timeout":60000}},{"key":"path","value":"guest/s"},{"key":"topmost","value":true}],"duration":0,"end":0,"logs":["00000000000000010000000000000002"],"name":"s","namespace":"guest","response":{"result":{"error":"no"},"status":"application error","statusCode":1,"success":false},"start":0,"subject":"anna","version":"0.0.1"}
0|GET /api/v1/namespaces/_/activations/00000000000000010000000000000002||200 OK|{"activationId":"00000000000000010000000000000002","annotations":[{"key":"causedBy","value":"sequence"},{"key":"kind","value":"plain:1"},{"key":"limits","value":{"logs":10,"memory":256,"timeout":60000}},{"key":"path","value":"guest/a"},{"key":"waitTime","value":0}],"cause":"00000000000000010000000000000001","duration":0,"end":0,"logs":["a line"],"name":"a","namespace":"guest","response":{"result":{"error":"no"},"status":"application error","statusCode":1,"success":false},"start":0,"subject":"anna","version":"0.0.1"}
0|POST /api/v1/namespaces/_/actions/s|{"x":2}|202 Accepted|{"activationId":"00000000000000010000000000000003"}
0|next|{"p":1,"q":0,"x":2}|run 2|
0|answer 2|{"y":3}|recorded|
0|next|{"y":3}|run 3|
0|answer 3|{"z":4}|recorded|
0|GET /api/v1/namespaces/_/activations/00000000000000010000000000000003||200 OK|{"activationId":"00000000000000010000000000000003","annotations":[{"key":"kind","value":"sequence"},{"key":"limits","value":{"logs":10,"memory":256,"timeout":60000}},{"key":"path","value":"guest/s"},{"key":"topmost","value":true}],"duration":0,"end":0,"logs":["00000000000000010000000000000004","00000000000000010000000000000005"],"name":"s","namespace":"guest","response":{"result":{"z":4},"status":"success","statusCode":0,"success":true},"start":0,"subject":"anna","version":"0.0.1"}
0|PUT /api/v1/namespaces/_/actions/one|{"exec":{"kind":"sequence","components":["/_/none"]}}|200 OK|
0|POST /api/v1/namespaces/_/actions/one||202 Accepted|{"activationId":"00000000000000010000000000000006"}
0|GET /api/v1/namespaces/_/activations/00000000000000010000000000000006/result||200 OK|{"result":{"error":"The component does not exist."},"status":"application error","statusCode":1,"success":false}
0|next||nothing|
"#;

// A conductor runs before each component and after it, and gets the component's result with its own state over that. It gets an error
// where a component doesn't exist, and a result with an error ends it.
const CONDUCTORS: &str = r#"0|PUT /api/v1/namespaces/_/actions/a|HELLO|200 OK|
0|PUT /api/v1/namespaces/_/actions/c|{"exec":{"kind":"plain:1","code":"{\"cases\":[]}"},"annotations":[{"key":"conductor","value":true}],"parameters":[{"key":"own","value":1}]}|200 OK|
0|POST /api/v1/namespaces/_/actions/c?blocking=true&result=true|{"x":2}|waiting|60000
0|next|{"own":1,"x":2}|run 1|
0|answer 1|{"action":"a","params":{"i":5},"state":{"i":6,"step":1}}|recorded|
0|next|{"i":5}|run 2|
0|answer 2|{"i":7,"j":8}|recorded|
0|next|{"i":6,"j":8,"own":1,"step":1}|run 3|
0|collect 1||not yet|
0|answer 3|{"params":{"end":8}}|recorded|
0|collect 1||200 OK|{"end":8}
0|GET /api/v1/namespaces/_/activations/00000000000000010000000000000001||200 OK|{"activationId":"00000000000000010000000000000001","annotations":[{"key":"kind","value":"plain:1"},{"key":"limits","value":{"logs":10,"memory":256,"timeout":60000}},{"key":"path","value":"guest/c"},{"key":"topmost","value":true}],"duration":0,"end":0,"logs":["00000000000000010000000000000002","00000000000000010000000000000003","00000000000000010000000000000004"],"name":"c","namespace":"guest","response":{"result":{"end":8},"status":"success","statusCode":0,"success":true},"start":0,"subject":"anna","version":"0.0.1"}
0|GET /api/v1/namespaces/_/activations/00000000000000010000000000000004||200 OK|{"activationId":"00000000000000010000000000000004","annotations":[{"key":"causedBy","value":"sequence"},{"key":"kind","value":"plain:1"},{"key":"limits","value":{"logs":10,"memory":256,"timeout":60000}},{"key":"path","value":"guest/c"},{"key":"waitTime","value":0}],"cause":"00000000000000010000000000000001","duration":0,"end":0,"logs":["a line"],"name":"c","namespace":"guest","response":{"result":{"params":{"end":8}},"status":"success","statusCode":0,"success":true},"start":0,"subject":"anna","version":"0.0.1"}
0|POST /api/v1/namespaces/_/actions/c||202 Accepted|{"activationId":"00000000000000010000000000000005"}
0|next|{"own":1}|run 4|
0|answer 4|{"action":"none","state":{"s":1}}|recorded|
0|next|{"error":"The component does not exist.","own":1,"s":1}|run 5|
0|answer 5|{"error":"done"}|recorded|
0|GET /api/v1/namespaces/_/activations/00000000000000010000000000000005/result||200 OK|{"result":{"error":"done"},"status":"application error","statusCode":1,"success":false}
0|next||nothing|
"#;

// A sweep ends a late component and its sequence. The reply that comes then is late, and no step follows it.
const SWEPT: &str = r#"0|PUT /api/v1/namespaces/_/actions/a|HELLO|200 OK|
0|PUT /api/v1/namespaces/_/actions/quick|{"exec":{"kind":"plain:1","code":"{\"cases\":[]}"},"limits":{"timeout":100}}|200 OK|
0|PUT /api/v1/namespaces/_/actions/s|{"exec":{"kind":"sequence","components":["/_/quick","/_/a"]}}|200 OK|
0|POST /api/v1/namespaces/_/actions/s||202 Accepted|{"activationId":"00000000000000010000000000000001"}
0|next|{}|run 1|
100|sweep|||0
101|sweep|||1
101|GET /api/v1/namespaces/_/activations||200 OK|[{"activationId":"00000000000000010000000000000002","duration":101,"end":101,"name":"quick","namespace":"guest","start":0,"statusCode":2,"version":"0.0.1"},{"activationId":"00000000000000010000000000000001","duration":101,"end":101,"name":"s","namespace":"guest","start":0,"statusCode":2,"version":"0.0.1"}]
101|answer 1|{"y":3}|late|
101|GET /api/v1/namespaces/_/activations||200 OK|[{"activationId":"00000000000000010000000000000002","duration":101,"end":101,"name":"quick","namespace":"guest","start":0,"statusCode":2,"version":"0.0.1"},{"activationId":"00000000000000010000000000000001","duration":101,"end":101,"name":"s","namespace":"guest","start":0,"statusCode":2,"version":"0.0.1"}]
101|GET /api/v1/namespaces/_/activations/00000000000000010000000000000001/result||200 OK|{"result":{"error":"The action exceeded its time limit of 100 milliseconds."},"status":"action developer error","statusCode":2,"success":false}
101|next||nothing|
"#;

// Whether the rows of a table hold over a new office.
fn held(alloc: Global, rows: &str) -> Result<bool, Fail> {
    let mut hall: Office = office(alloc)?;
    let hold = rows_hold(alloc, &mut hall, rows);
    drop(hall);
    hold
}

#[test]
fn a_sequence_ends_at_its_first_error(rt: HostRuntime) -> Result<(), Fail> {
    let hold = held(rt.alloc(), SEQUENCES);
    assert!(rt; hold?);
    Ok(())
}

#[test]
fn a_conductor_keeps_its_state(rt: HostRuntime) -> Result<(), Fail> {
    let hold = held(rt.alloc(), CONDUCTORS);
    assert!(rt; hold?);
    Ok(())
}

#[test]
fn a_late_reply_steps_no_sequence(rt: HostRuntime) -> Result<(), Fail> {
    let hold = held(rt.alloc(), SWEPT);
    assert!(rt; hold?);
    Ok(())
}
