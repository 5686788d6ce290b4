// Days over office tables: keys, rights, limits, the pool, and what is wanted ahead.
use crate::days::{Given, OVER_TABLE, office_over};
use std::alloc::Global;
use std::test::Fail;

const TABLES: [(&[u8], &[u8], &[u8]); 5] = [
    // No key, a key that is none, a namespace that isn't granted, and one that isn't there.
    (
        b"namespace,1,guest,,,
namespace,2,other,,,
key,k1,anna,guest,,
key,k2,bert,other,,
",
        b"ask 35
GET /api/v1/namespaces HTTP/1.1\r
\r

ask 52
GET /api/v1/namespaces HTTP/1.1\r
X-Whisk-Key: k3\r
\r

ask 52
GET /api/v1/namespaces HTTP/1.1\r
X-Whisk-Key: k1\r
\r

ask 66
GET /api/v1/namespaces/other/actions HTTP/1.1\r
X-Whisk-Key: k1\r
\r

ask 65
GET /api/v1/namespaces/none/actions HTTP/1.1\r
X-Whisk-Key: k1\r
\r

ask 66
GET /api/v1/namespaces/other/actions HTTP/1.1\r
X-Whisk-Key: k2\r
\r

",
        b"reply 122
HTTP/1.1 401 Unauthorized\r
Content-Type: application/json\r
Content-Length: 41\r
\r
{\"code\":23,\"error\":\"The key is unknown.\"}
reply 122
HTTP/1.1 401 Unauthorized\r
Content-Type: application/json\r
Content-Length: 41\r
\r
{\"code\":23,\"error\":\"The key is unknown.\"}
reply 79
HTTP/1.1 200 OK\r
Content-Type: application/json\r
Content-Length: 9\r
\r
[\"guest\"]
reply 129
HTTP/1.1 403 Forbidden\r
Content-Type: application/json\r
Content-Length: 51\r
\r
{\"code\":24,\"error\":\"The namespace is not granted.\"}
reply 129
HTTP/1.1 403 Forbidden\r
Content-Type: application/json\r
Content-Length: 51\r
\r
{\"code\":24,\"error\":\"The namespace is not granted.\"}
reply 72
HTTP/1.1 200 OK\r
Content-Type: application/json\r
Content-Length: 2\r
\r
[]
",
    ),
    // Two invocations in a minute, which slides.
    (
        b"namespace,1,guest,2,,
key,k1,anna,guest,,
",
        b"ask 173
PUT /api/v1/namespaces/_/actions/a HTTP/1.1\r
X-Whisk-Key: k1\r
Content-Length: 89\r
\r
{\"exec\":{\"kind\":\"plain:1\",\"code\":\"{\\\"cases\\\":[{\\\"when\\\":{},\\\"give\\\":{\\\"$all\\\":true}}]}\"}}
call /guest/a {}
call /guest/a {}
turn
turn
at 59999
call /guest/a {}
at 60000
call /guest/a {}
",
        b"reply 309
HTTP/1.1 200 OK\r
Content-Type: application/json\r
Content-Length: 237\r
\r
{\"annotations\":[],\"exec\":{\"code\":\"{\\\"cases\\\":[{\\\"when\\\":{},\\\"give\\\":{\\\"$all\\\":true}}]}\",\"kind\":\"plain:1\"},\"limits\":{\"logs\":10,\"memory\":256,\"timeout\":60000},\"name\":\"a\",\"namespace\":\"guest\",\"parameters\":[],\"publish\":false,\"version\":\"0.0.1\"}
accepted 00000000000000010000000000000001
accepted 00000000000000010000000000000002
run 1 00000000000000010000000000000001 slot 0 gen 1 cold
recorded 00000000000000010000000000000001 0
run 2 00000000000000010000000000000002 slot 0 gen 1 warm
recorded 00000000000000010000000000000002 0
refused 25 Too many invocations in the last minute: 2 of 2.
accepted 00000000000000010000000000000003
",
    ),
    // One activation at a time, and other namespaces aren't counted.
    (
        b"namespace,1,guest,,1,
key,k1,anna,guest,,
",
        b"ask 173
PUT /api/v1/namespaces/_/actions/a HTTP/1.1\r
X-Whisk-Key: k1\r
Content-Length: 89\r
\r
{\"exec\":{\"kind\":\"plain:1\",\"code\":\"{\\\"cases\\\":[{\\\"when\\\":{},\\\"give\\\":{\\\"$all\\\":true}}]}\"}}
call /guest/a {}
call /guest/a {}
call /whisk.system/utils/echo {}
turn
call /guest/a {}
drain
call /guest/a {}
",
        b"reply 309
HTTP/1.1 200 OK\r
Content-Type: application/json\r
Content-Length: 237\r
\r
{\"annotations\":[],\"exec\":{\"code\":\"{\\\"cases\\\":[{\\\"when\\\":{},\\\"give\\\":{\\\"$all\\\":true}}]}\",\"kind\":\"plain:1\"},\"limits\":{\"logs\":10,\"memory\":256,\"timeout\":60000},\"name\":\"a\",\"namespace\":\"guest\",\"parameters\":[],\"publish\":false,\"version\":\"0.0.1\"}
accepted 00000000000000010000000000000001
refused 26 Too many concurrent activations: 1 of 1.
accepted 00000000000000000000000000000001
run 1 00000000000000010000000000000001 slot 0 gen 1 cold
recorded 00000000000000010000000000000001 0
accepted 00000000000000010000000000000002
open 2
refused 32 The office is draining.
",
    ),
    // A container that the table wants ahead.
    (
        b"prewarm,plain:1,256,1,,
",
        b"next
next
begun 1
call /whisk.system/utils/echo {}
next
",
        b"prewarm 1 slot 0 gen 1 plain:1 256
nothing empty
ok
accepted 00000000000000000000000000000001
run 2 00000000000000000000000000000001 slot 0 gen 1 prewarmed
",
    ),
    // Its pool has room for two containers.
    (
        b"pool,512,,,,
",
        b"call /whisk.system/utils/echo {}
call /whisk.system/utils/echo {}
call /whisk.system/utils/echo {}
next
next
next
",
        b"accepted 00000000000000000000000000000001
accepted 00000000000000000000000000000002
accepted 00000000000000000000000000000003
run 1 00000000000000000000000000000001 slot 0 gen 1 cold
run 2 00000000000000000000000000000002 slot 1 gen 1 cold
nothing no room
",
    ),
];

// Whether all of a day is answered by this text over a table.
fn is_answered_over(alloc: Global, table: &[u8], day: &[u8], text: &[u8]) -> Result<bool, Fail> {
    let given = Given {
        words: OVER_TABLE,
        table,
        failing_table: &[],
        day,
        failing_reads: &[],
        failing_writes: &[],
    };
    let told = office_over(alloc, given)?;
    Ok(told.status.number() == 0 && told.out.bytes() == text)
}

#[test]
fn days_go_by_their_tables(rt: HostRuntime) -> Result<(), Fail> {
    for (number, (table, day, text)) in TABLES.iter().enumerate() {
        assert!(rt;
            is_answered_over(rt.alloc(), table, day, text)?,
            "day {number}"
        );
    }
    Ok(())
}
