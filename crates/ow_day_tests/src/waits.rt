// Days whose requests wait, whose runs take a turn, and whose answers are collected.
use crate::days::is_answered;
use std::test::Fail;

const WAITS: [(&[u8], &[u8], &[u8]); 5] = [
    // The result of an action that a turn runs, and the list of what was recorded.
    (
        b"ask 186
PUT /api/v1/namespaces/_/actions/hello HTTP/1.1\r
X-Whisk-Key: k1\r
Content-Length: 98\r
\r
{\"exec\":{\"kind\":\"plain:1\",\"code\":\"{\\\"cases\\\":[{\\\"when\\\":{},\\\"give\\\":{\\\"greeting\\\":\\\"Hello\\\"}}]}\"}}
ask 95
POST /api/v1/namespaces/_/actions/hello?blocking=true&result=true HTTP/1.1\r
X-Whisk-Key: k1\r
\r

turn
collect 00000000000000010000000000000001
ask 66
GET /api/v1/namespaces/_/activations HTTP/1.1\r
X-Whisk-Key: k1\r
\r

",
        b"reply 322
HTTP/1.1 200 OK\r
Content-Type: application/json\r
Content-Length: 250\r
\r
{\"annotations\":[],\"exec\":{\"code\":\"{\\\"cases\\\":[{\\\"when\\\":{},\\\"give\\\":{\\\"greeting\\\":\\\"Hello\\\"}}]}\",\"kind\":\"plain:1\"},\"limits\":{\"logs\":10,\"memory\":256,\"timeout\":60000},\"name\":\"hello\",\"namespace\":\"guest\",\"parameters\":[],\"publish\":false,\"version\":\"0.0.1\"}
waiting 00000000000000010000000000000001
run 1 00000000000000010000000000000001 slot 0 gen 1 cold
recorded 00000000000000010000000000000001 0
reply 91
HTTP/1.1 200 OK\r
Content-Type: application/json\r
Content-Length: 20\r
\r
{\"greeting\":\"Hello\"}
reply 224
HTTP/1.1 200 OK\r
Content-Type: application/json\r
Content-Length: 152\r
\r
[{\"activationId\":\"00000000000000010000000000000001\",\"duration\":0,\"end\":0,\"name\":\"hello\",\"namespace\":\"guest\",\"start\":0,\"statusCode\":0,\"version\":\"0.0.1\"}]
",
        b"",
    ),
    // A request that waits at most 100 milliseconds.
    (
        b"ask 199
PUT /api/v1/namespaces/_/actions/a HTTP/1.1\r
X-Whisk-Key: k1\r
Content-Length: 114\r
\r
{\"exec\":{\"kind\":\"plain:1\",\"code\":\"{\\\"cases\\\":[{\\\"when\\\":{},\\\"give\\\":{\\\"$all\\\":true}}]}\"},\"limits\":{\"timeout\":100}}
ask 79
POST /api/v1/namespaces/_/actions/a?blocking=true HTTP/1.1\r
X-Whisk-Key: k1\r
\r

at 99
collect 00000000000000010000000000000001
at 100
collect 00000000000000010000000000000001
turn
collect 00000000000000010000000000000001
",
        b"reply 307
HTTP/1.1 200 OK\r
Content-Type: application/json\r
Content-Length: 235\r
\r
{\"annotations\":[],\"exec\":{\"code\":\"{\\\"cases\\\":[{\\\"when\\\":{},\\\"give\\\":{\\\"$all\\\":true}}]}\",\"kind\":\"plain:1\"},\"limits\":{\"logs\":10,\"memory\":256,\"timeout\":100},\"name\":\"a\",\"namespace\":\"guest\",\"parameters\":[],\"publish\":false,\"version\":\"0.0.1\"}
waiting 00000000000000010000000000000001
not yet
reply 128
HTTP/1.1 202 Accepted\r
Content-Type: application/json\r
Content-Length: 51\r
\r
{\"activationId\":\"00000000000000010000000000000001\"}
run 1 00000000000000010000000000000001 slot 0 gen 1 cold
recorded 00000000000000010000000000000001 0
reply 514
HTTP/1.1 200 OK\r
Content-Type: application/json\r
Content-Length: 442\r
\r
{\"activationId\":\"00000000000000010000000000000001\",\"annotations\":[{\"key\":\"initTime\",\"value\":0},{\"key\":\"kind\",\"value\":\"plain:1\"},{\"key\":\"limits\",\"value\":{\"logs\":10,\"memory\":256,\"timeout\":100}},{\"key\":\"path\",\"value\":\"guest/a\"},{\"key\":\"waitTime\",\"value\":100}],\"duration\":0,\"end\":100,\"logs\":[],\"name\":\"a\",\"namespace\":\"guest\",\"response\":{\"result\":{},\"status\":\"success\",\"statusCode\":0,\"success\":true},\"start\":100,\"subject\":\"anna\",\"version\":\"0.0.1\"}
",
        b"",
    ),
    // An action whose logs may have no byte.
    (
        b"ask 194
PUT /api/v1/namespaces/_/actions/a HTTP/1.1\r
X-Whisk-Key: k1\r
Content-Length: 109\r
\r
{\"exec\":{\"kind\":\"plain:1\",\"code\":\"{\\\"cases\\\":[{\\\"when\\\":{},\\\"give\\\":{\\\"$all\\\":true}}]}\"},\"limits\":{\"logs\":0}}
call /guest/a {}
next
logged 1 1 {}
x
ask 104
GET /api/v1/namespaces/_/activations/00000000000000010000000000000001/logs HTTP/1.1\r
X-Whisk-Key: k1\r
\r

",
        b"reply 308
HTTP/1.1 200 OK\r
Content-Type: application/json\r
Content-Length: 236\r
\r
{\"annotations\":[],\"exec\":{\"code\":\"{\\\"cases\\\":[{\\\"when\\\":{},\\\"give\\\":{\\\"$all\\\":true}}]}\",\"kind\":\"plain:1\"},\"limits\":{\"logs\":0,\"memory\":256,\"timeout\":60000},\"name\":\"a\",\"namespace\":\"guest\",\"parameters\":[],\"publish\":false,\"version\":\"0.0.1\"}
accepted 00000000000000010000000000000001
run 1 00000000000000010000000000000001 slot 0 gen 1 cold
recorded 00000000000000010000000000000001 0
reply 104
HTTP/1.1 200 OK\r
Content-Type: application/json\r
Content-Length: 33\r
\r
{\"logs\":[\"Logs were truncated.\"]}
",
        b"",
    ),
    // A program that ended without an answer.
    (
        b"ask 173
PUT /api/v1/namespaces/_/actions/a HTTP/1.1\r
X-Whisk-Key: k1\r
Content-Length: 89\r
\r
{\"exec\":{\"kind\":\"plain:1\",\"code\":\"{\\\"cases\\\":[{\\\"when\\\":{},\\\"give\\\":{\\\"$all\\\":true}}]}\"}}
call /guest/a {}
next
exit 1 3
ask 106
GET /api/v1/namespaces/_/activations/00000000000000010000000000000001/result HTTP/1.1\r
X-Whisk-Key: k1\r
\r

",
        b"reply 309
HTTP/1.1 200 OK\r
Content-Type: application/json\r
Content-Length: 237\r
\r
{\"annotations\":[],\"exec\":{\"code\":\"{\\\"cases\\\":[{\\\"when\\\":{},\\\"give\\\":{\\\"$all\\\":true}}]}\",\"kind\":\"plain:1\"},\"limits\":{\"logs\":10,\"memory\":256,\"timeout\":60000},\"name\":\"a\",\"namespace\":\"guest\",\"parameters\":[],\"publish\":false,\"version\":\"0.0.1\"}
accepted 00000000000000010000000000000001
run 1 00000000000000010000000000000001 slot 0 gen 1 cold
recorded 00000000000000010000000000000001 2
reply 192
HTTP/1.1 200 OK\r
Content-Type: application/json\r
Content-Length: 120\r
\r
{\"result\":{\"error\":\"The program ended with status 3.\"},\"status\":\"action developer error\",\"statusCode\":2,\"success\":false}
",
        b"",
    ),
    // No request waits for these.
    (
        b"call /whisk.system/utils/echo {}
collect 00000000000000000000000000000001
collect 00000000000000000000000000000002
turn
turn
",
        b"accepted 00000000000000000000000000000001
refused 14 The resource does not exist.
refused 14 The resource does not exist.
run 1 00000000000000000000000000000001 slot 0 gen 1 cold
recorded 00000000000000000000000000000001 0
nothing empty
",
        b"",
    ),
];

#[test]
fn requests_wait_and_are_collected(rt: HostRuntime) -> Result<(), Fail> {
    for (number, (day, text, line)) in WAITS.iter().enumerate() {
        assert!(rt; is_answered(rt.alloc(), day, text, line)?, "day {number}");
    }
    Ok(())
}
