// Keys and what they grant: what is refused, and what is shown to whom.
use crate::of_hall::{Office, asked, office, office_of, request_of};
use crate::of_waits::rows_hold;
use std::alloc::Global;
use std::test::Fail;

// Two namespaces with a key each, and three keys of the first with one right in the second.
const TABLE: &str = "namespace,1,guest,,,
namespace,2,other,,,
key,k1,anna,guest,,
key,k2,bert,other,,
key,r,rita,guest,,
key,w,walt,guest,,
key,i,ines,guest,,
grant,r,other,read,,
grant,w,other,write,,
grant,i,other,invoke,,
";

// The moment and the key; a call of the hall; its body; and what is answered.
const ROWS: &str =
    r#"0 -|GET /api/v1/namespaces||401 Unauthorized|{"code":23,"error":"The key is unknown."}
0 none|GET /api/v1/namespaces||401 Unauthorized|{"code":23,"error":"The key is unknown."}
0 K1|GET /api/v1/namespaces||401 Unauthorized|{"code":23,"error":"The key is unknown."}
0 -|GET /api/v1/namespaces/_/triggers||401 Unauthorized|{"code":23,"error":"The key is unknown."}
0 -|PUT /api/v1/namespaces/other/actions/hello|[|401 Unauthorized|{"code":23,"error":"The key is unknown."}
0 none|PUT /api/v1/namespaces/other/actions/hello|[|401 Unauthorized|{"code":23,"error":"The key is unknown."}
0|GET /api/v1/namespaces||200 OK|["guest"]
0 r|GET /api/v1/namespaces||200 OK|["guest","other"]
0 w|GET /api/v1/namespaces||200 OK|["guest","other"]
0 i|GET /api/v1/namespaces||200 OK|["guest","other"]
0 k2|GET /api/v1/namespaces||200 OK|["other"]
0 k2|PUT /api/v1/namespaces/_/actions/hello|HELLO|200 OK|
0|GET /api/v1/namespaces/_/actions||200 OK|[]
0|GET /api/v1/namespaces/other/actions||403 Forbidden|{"code":24,"error":"The namespace is not granted."}
0|GET /api/v1/namespaces/nowhere/actions||403 Forbidden|{"code":24,"error":"The namespace is not granted."}
0|GET /api/v1/namespaces/other/actions/hello||403 Forbidden|{"code":24,"error":"The namespace is not granted."}
0|POST /api/v1/namespaces/other/actions/hello||403 Forbidden|{"code":24,"error":"The namespace is not granted."}
0 r|GET /api/v1/namespaces/other/actions||200 OK|[{"annotations":[],"name":"hello","namespace":"other","publish":false,"version":"0.0.1"}]
0 r|GET /api/v1/namespaces/other/actions/hello||200 OK|
0 r|GET /api/v1/namespaces/other/actions/none||404 Not Found|{"code":14,"error":"The resource does not exist."}
0 r|PUT /api/v1/namespaces/other/actions/hello|HELLO|403 Forbidden|{"code":24,"error":"The namespace is not granted."}
0 r|PUT /api/v1/namespaces/other/actions/none|HELLO|403 Forbidden|{"code":24,"error":"The namespace is not granted."}
0 r|DELETE /api/v1/namespaces/other/actions/hello||403 Forbidden|{"code":24,"error":"The namespace is not granted."}
0 r|DELETE /api/v1/namespaces/other/actions/none||403 Forbidden|{"code":24,"error":"The namespace is not granted."}
0 r|POST /api/v1/namespaces/other/actions/hello||403 Forbidden|{"code":24,"error":"The namespace is not granted."}
0 r|POST /api/v1/namespaces/other/actions/none||403 Forbidden|{"code":24,"error":"The namespace is not granted."}
0 w|GET /api/v1/namespaces/other/actions||403 Forbidden|{"code":24,"error":"The namespace is not granted."}
0 w|GET /api/v1/namespaces/other/actions/hello||403 Forbidden|{"code":24,"error":"The namespace is not granted."}
0 w|GET /api/v1/namespaces/other/actions/none||403 Forbidden|{"code":24,"error":"The namespace is not granted."}
0 w|POST /api/v1/namespaces/other/actions/hello||403 Forbidden|{"code":24,"error":"The namespace is not granted."}
0 w|PUT /api/v1/namespaces/other/actions/hello|HELLO|409 Conflict|{"code":17,"error":"The resource exists."}
0 w|DELETE /api/v1/namespaces/other/actions/none||404 Not Found|{"code":14,"error":"The resource does not exist."}
0 i|GET /api/v1/namespaces/other/actions/hello||403 Forbidden|{"code":24,"error":"The namespace is not granted."}
0 i|PUT /api/v1/namespaces/other/actions/hello|HELLO|403 Forbidden|{"code":24,"error":"The namespace is not granted."}
0 i|POST /api/v1/namespaces/other/actions/none||404 Not Found|{"code":14,"error":"The resource does not exist."}
0 i|POST /api/v1/namespaces/other/actions/hello||202 Accepted|{"activationId":"00000000000000020000000000000001"}
0|next||run 1|
0|answer 1|{}|recorded|
0 i|GET /api/v1/namespaces/other/activations||403 Forbidden|{"code":24,"error":"The namespace is not granted."}
0 i|GET /api/v1/namespaces/_/activations||200 OK|[]
0 i|GET /api/v1/namespaces/_/activations/00000000000000020000000000000001||404 Not Found|{"code":14,"error":"The resource does not exist."}
0 r|GET /api/v1/namespaces/other/activations||200 OK|[{"activationId":"00000000000000020000000000000001","duration":0,"end":0,"name":"hello","namespace":"other","start":0,"statusCode":0,"version":"0.0.1"}]
0 r|GET /api/v1/namespaces/other/activations/00000000000000020000000000000001||200 OK|{"activationId":"00000000000000020000000000000001","annotations":[{"key":"kind","value":"plain:1"},{"key":"limits","value":{"logs":10,"memory":256,"timeout":60000}},{"key":"path","value":"other/hello"},{"key":"waitTime","value":0}],"duration":0,"end":0,"logs":["a line"],"name":"hello","namespace":"other","response":{"result":{},"status":"success","statusCode":0,"success":true},"start":0,"subject":"ines","version":"0.0.1"}
"#;

fn keys_grant(alloc: Global, hall: &mut Office) -> Result<bool, Fail> {
    rows_hold(alloc, hall, ROWS)
}

#[test]
fn a_key_does_what_it_is_granted(rt: HostRuntime) -> Result<(), Fail> {
    let alloc = rt.alloc();
    let mut hall = office_of(alloc, TABLE)?;
    let hold = keys_grant(alloc, &mut hall);
    drop(hall);
    assert!(rt; hold?);
    Ok(())
}

// What is done in the one namespace, and in the other before it.
const OWN: &str =
    r#"0|PUT /api/v1/namespaces/_/packages/p|{"parameters":[{"key":"x","value":1}]}|200 OK|
0|PUT /api/v1/namespaces/_/actions/p/hello|HELLO|200 OK|
0|POST /api/v1/namespaces/_/actions/p/hello|{"x":1}|202 Accepted|{"activationId":"00000000000000010000000000000001"}
"#;

const BESIDE: &str = r#"0 k2|PUT /api/v1/namespaces/_/packages/p|{"publish":true}|200 OK|
0 k2|PUT /api/v1/namespaces/_/actions/p/hello|HELLO|200 OK|
0 k2|PUT /api/v1/namespaces/_/actions/hello|HELLO|200 OK|
0 k2|PUT /api/v1/namespaces/_/triggers/t||200 OK|
0 k2|PUT /api/v1/namespaces/_/rules/r|{"trigger":"/_/t","action":"/_/hello"}|200 OK|
0 k2|POST /api/v1/namespaces/_/actions/hello||202 Accepted|{"activationId":"00000000000000020000000000000001"}
0|next||run 1|
0|answer 1|{"other":1}|recorded|
"#;

const FIRST_ENDS: &str = "0|next||run 1|\n0|answer 1|{}|recorded|\n";

const SECOND_ENDS: &str = "0|next||run 2|\n0|answer 2|{}|recorded|\n";

// What may be read there.
const READS: &str = "GET /api/v1/namespaces
GET /api/v1/namespaces/_/packages
GET /api/v1/namespaces/_/packages/p
GET /api/v1/namespaces/_/actions
GET /api/v1/namespaces/_/actions/hello
GET /api/v1/namespaces/_/actions/p/hello
GET /api/v1/namespaces/_/triggers
GET /api/v1/namespaces/_/rules
GET /api/v1/namespaces/other/triggers/t
GET /api/v1/namespaces/_/activations
GET /api/v1/namespaces/_/activations/00000000000000010000000000000001
GET /api/v1/namespaces/_/activations/00000000000000010000000000000001/result
GET /api/v1/namespaces/_/activations/00000000000000010000000000000001/logs
GET /api/v1/namespaces/_/activations/00000000000000020000000000000001
GET /api/v1/namespaces/other/actions/hello
GET /api/v1/namespaces/other/activations/00000000000000020000000000000001";

// Whether both offices answer this alike.
fn answer_alike(
    alloc: Global,
    first: &mut Office,
    second: &mut Office,
    head: &str,
) -> Result<bool, Fail> {
    let request = request_of(alloc, head, "")?;
    let one = asked(alloc, first, &request)?;
    let other = asked(alloc, second, &request)?;
    Ok(one.as_slice() == other.as_slice())
}

fn all_alike(alloc: Global, first: &mut Office, second: &mut Office) -> Result<bool, Fail> {
    for head in READS.lines() {
        if !answer_alike(alloc, first, second, head)? {
            return Ok(false);
        }
    }
    Ok(true)
}

// Whether the key of the one namespace reads the same, with and without rows and records of the other.
fn reads_alike(alloc: Global, first: &mut Office, second: &mut Office) -> Result<bool, Fail> {
    let alone = rows_hold(alloc, first, OWN)? && rows_hold(alloc, first, FIRST_ENDS)?;
    let beside = rows_hold(alloc, second, BESIDE)?
        && rows_hold(alloc, second, OWN)?
        && rows_hold(alloc, second, SECOND_ENDS)?;
    Ok(alone && beside && all_alike(alloc, first, second)?)
}

fn reads_alike_beside(alloc: Global, first: &mut Office) -> Result<bool, Fail> {
    let mut second = office_of(alloc, TABLE)?;
    let alike = reads_alike(alloc, first, &mut second);
    drop(second);
    alike
}

#[test]
fn what_is_read_in_a_namespace_is_its_own(rt: HostRuntime) -> Result<(), Fail> {
    let alloc = rt.alloc();
    let mut first = office(alloc)?;
    let alike = reads_alike_beside(alloc, &mut first);
    drop(first);
    assert!(rt; alike?);
    Ok(())
}
