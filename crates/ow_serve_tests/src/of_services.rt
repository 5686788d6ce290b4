// The results of services.
use crate::gates::Turnstile;
use crate::peers::Peer;
use crate::services::{Case, System, told};
use ow_threads::{Gate, OpenGate};
use std::alloc::Global;
use std::process::Abort;
use std::sync::Arc;
use std::test::Fail;

const HELLO: Peer = Peer {
    action: "hello",
    greeting: "Hello",
    head: "",
    rest: "",
};

// It requests the end of its connection.
const HOWDY: Peer = Peer {
    action: "howdy",
    greeting: "Howdy",
    head: "Connection: close\r\n",
    rest: "",
};

// Its bytes end in the head of a third request.
const LATER: Peer = Peer {
    action: "later",
    greeting: "Later",
    head: "",
    rest: "GET /api/v",
};

// What each of them receives: the stored action, and its greeting; a reply of 322 bytes, and one of 91.
const HELLO_TOLD: &str = r#"413 bytes
200 OK
Content-Type: application/json
Content-Length: 250

{"annotations":[],"exec":{"code":"{\"cases\":[{\"when\":{},\"give\":{\"greeting\":\"Hello\"}}]}","kind":"plain:1"},"limits":{"logs":10,"memory":256,"timeout":60000},"name":"hello","namespace":"guest","parameters":[],"publish":false,"version":"0.0.1"}
200 OK
Content-Type: application/json
Content-Length: 20

{"greeting":"Hello"}
"#;

const HOWDY_TOLD: &str = r#"413 bytes
200 OK
Content-Type: application/json
Content-Length: 250

{"annotations":[],"exec":{"code":"{\"cases\":[{\"when\":{},\"give\":{\"greeting\":\"Howdy\"}}]}","kind":"plain:1"},"limits":{"logs":10,"memory":256,"timeout":60000},"name":"howdy","namespace":"guest","parameters":[],"publish":false,"version":"0.0.1"}
200 OK
Content-Type: application/json
Content-Length: 20

{"greeting":"Howdy"}
"#;

// And one of 127.
const LATER_TOLD: &str = r#"540 bytes
200 OK
Content-Type: application/json
Content-Length: 250

{"annotations":[],"exec":{"code":"{\"cases\":[{\"when\":{},\"give\":{\"greeting\":\"Later\"}}]}","kind":"plain:1"},"limits":{"logs":10,"memory":256,"timeout":60000},"name":"later","namespace":"guest","parameters":[],"publish":false,"version":"0.0.1"}
200 OK
Content-Type: application/json
Content-Length: 20

{"greeting":"Later"}
400 Bad Request
Content-Type: application/json
Content-Length: 47

{"code":40,"error":"The request is cut short."}
"#;

const NOTHING_TOLD: &str = "0 bytes\n";

fn joined(alloc: Global, parts: &[&str]) -> Result<String, Fail> {
    let mut text = String::new(alloc);
    for part in parts {
        text.push_str(part)?;
    }
    Ok(text)
}

// Checks that the text has these parts.
fn check_text<H: Abort>(rt: &H, alloc: Global, text: &str, parts: &[&str]) -> Result<(), Fail> {
    let wanted = joined(alloc, parts)?;
    assert_eq!(rt; text, wanted.as_str());
    Ok(())
}

fn check_by<H: System + Abort, G: Gate + Drop + Send + Sync + 'static>(
    rt: &H,
    alloc: Global,
    case: Case,
    gate: Arc<G, Global>,
    parts: &[&str],
) -> Result<(), Fail> {
    let told = told(rt, alloc, case, gate)?;
    check_text(rt, alloc, told.as_str(), parts)
}

fn check<H: System + Abort>(rt: &H, alloc: Global, case: Case, parts: &[&str]) -> Result<(), Fail> {
    let gate = Arc::new(alloc, OpenGate::new())?;
    check_by(rt, alloc, case, gate, parts)
}

#[test]
fn each_peer_is_answered(rt: HostRuntime) -> Result<(), Fail> {
    let case = Case {
        peers: &[HELLO, HOWDY, LATER],
        unheard: &[],
        refused: &[],
    };
    let first = "closed, 0 and 0 faults\nEnded\nClosed\nCutShort\n";
    check(
        &rt,
        rt.alloc(),
        case,
        &[first, HELLO_TOLD, HOWDY_TOLD, LATER_TOLD],
    )
}

#[test]
fn a_listener_that_fails(rt: HostRuntime) -> Result<(), Fail> {
    let case = Case {
        peers: &[HELLO, HOWDY, LATER],
        unheard: &[2],
        refused: &[],
    };
    let first = "listen fault, 1 and 0 faults\nEnded\nClosed\n";
    check(
        &rt,
        rt.alloc(),
        case,
        &[first, HELLO_TOLD, HOWDY_TOLD, NOTHING_TOLD],
    )
}

#[test]
fn threads_that_are_refused(rt: HostRuntime) -> Result<(), Fail> {
    let case = Case {
        peers: &[HELLO, HOWDY, LATER],
        unheard: &[],
        refused: &[4, 5, 6],
    };
    let first = "closed, 0 and 3 faults\nEnded\nClosed\nCutShort\n";
    check(
        &rt,
        rt.alloc(),
        case,
        &[first, HELLO_TOLD, HOWDY_TOLD, LATER_TOLD],
    )?;
    let case = Case {
        peers: &[HELLO],
        unheard: &[],
        refused: &[0],
    };
    let first = "no worker, 0 and 1 faults\n";
    check(&rt, rt.alloc(), case, &[first, NOTHING_TOLD])
}

#[test]
fn runs_are_spread_over_threads(rt: HostRuntime) -> Result<(), Fail> {
    let alloc = rt.alloc();
    let case = Case {
        peers: &[HELLO, HOWDY],
        unheard: &[],
        refused: &[],
    };
    let first = "closed, 0 and 0 faults\nEnded\nClosed\n";
    let parts = [first, HELLO_TOLD, HOWDY_TOLD];
    let gate = Arc::new(alloc, Turnstile::new(rt.clone()?))?;
    check_by(&rt, alloc, case, Arc::try_clone(&gate)?, &parts)?;
    assert!(rt; gate.have_met());
    Ok(())
}
