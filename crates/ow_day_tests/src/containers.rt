// Days of containers: reports on them, sweeps, and turns that keep them.
use crate::days::is_answered;
use std::test::Fail;

const CONTAINERS: [(&[u8], &[u8]); 10] = [
    // A sweep ends a late run, and its reply comes late.
    (
        b"call /whisk.system/utils/echo {}
next
at 60000
sweep
at 60001
sweep
answer 1 {}
gone 0 1
answer 1 {}
",
        b"accepted 00000000000000000000000000000001
run 1 00000000000000000000000000000001 slot 0 gen 1 cold
swept 0
recorded 00000000000000000000000000000001 2
swept 1
late 1 60001
ok
refused 29 No run 1.
",
    ),
    // It ends all late runs, by the moment of their orders.
    (
        b"call /whisk.system/utils/echo {}
call /whisk.system/utils/echo {}
next
next
at 60001
sweep
sweep
fault 2
lost 1
drain
",
        b"accepted 00000000000000000000000000000001
accepted 00000000000000000000000000000002
run 1 00000000000000000000000000000001 slot 0 gen 1 cold
run 2 00000000000000000000000000000002 slot 1 gen 1 cold
recorded 00000000000000000000000000000001 2
recorded 00000000000000000000000000000002 2
swept 2
swept 0
late 2 60001
ok
drained 2
",
    ),
    // A lost run waits again, and its container goes.
    (
        b"call /whisk.system/utils/echo {\"a\":1}
next
answer 1 {\"a\":1}
call /whisk.system/utils/echo {}
next
lost 2
gone 0 1
next
",
        b"accepted 00000000000000000000000000000001
run 1 00000000000000000000000000000001 slot 0 gen 1 cold
recorded 00000000000000000000000000000001 0
accepted 00000000000000000000000000000002
run 2 00000000000000000000000000000002 slot 0 gen 1 warm
ok
ok
run 3 00000000000000000000000000000002 slot 0 gen 2 cold
",
    ),
    // The container may go first.
    (
        b"call /whisk.system/utils/echo {\"a\":1}
next
answer 1 {\"a\":1}
call /whisk.system/utils/echo {}
next
gone 0 1
lost 2
next
",
        b"accepted 00000000000000000000000000000001
run 1 00000000000000000000000000000001 slot 0 gen 1 cold
recorded 00000000000000000000000000000001 0
accepted 00000000000000000000000000000002
run 2 00000000000000000000000000000002 slot 0 gen 1 warm
ok
ok
run 3 00000000000000000000000000000002 slot 0 gen 2 cold
",
    ),
    // What isn't so is refused.
    (
        b"begun 1
lost 1
gone 0 0
gone 15 1
gone 16 1
gone 4294967295 4294967295
call /whisk.system/utils/echo {}
next
begun 1
begun 1
gone 0 2
gone 0 1
gone 0 1
lost 1
lost 1
gone 0 1
sweep",
        b"refused 29 No run 1.
refused 29 No run 1.
refused 28 No slot 0 of that generation: 0 kept.
refused 28 No slot 15 of that generation: 0 kept.
refused 28 No slot 16 of that generation: 0 kept.
refused 28 No slot 4294967295 of that generation: 0 kept.
accepted 00000000000000000000000000000001
run 1 00000000000000000000000000000001 slot 0 gen 1 cold
ok
refused 29 No run 1.
refused 28 No slot 0 of that generation: 1 kept.
ok
refused 28 No slot 0 of that generation: 1 kept.
ok
refused 29 No run 1.
refused 28 No slot 0 of that generation: 1 kept.
swept 0
",
    ),
    // Containers that turns leave are used by later turns.
    (
        b"call /whisk.system/utils/echo {}
turn
call /whisk.system/utils/echo {}
turn
gone 0 1
call /whisk.system/utils/echo {}
turn
next
turn",
        b"accepted 00000000000000000000000000000001
run 1 00000000000000000000000000000001 slot 0 gen 1 cold
recorded 00000000000000000000000000000001 0
accepted 00000000000000000000000000000002
run 2 00000000000000000000000000000002 slot 0 gen 1 warm
recorded 00000000000000000000000000000002 0
ok
accepted 00000000000000000000000000000003
run 3 00000000000000000000000000000003 slot 0 gen 2 cold
recorded 00000000000000000000000000000003 0
nothing empty
nothing empty
",
    ),
    // A turn loses a run whose container doesn't lie there.
    (
        b"call /whisk.system/utils/echo {}
next
answer 1 {}
call /whisk.system/utils/echo {}
turn
gone 0 1
turn
",
        b"accepted 00000000000000000000000000000001
run 1 00000000000000000000000000000001 slot 0 gen 1 cold
recorded 00000000000000000000000000000001 0
accepted 00000000000000000000000000000002
run 2 00000000000000000000000000000002 slot 0 gen 1 warm
lost 2
ok
run 3 00000000000000000000000000000002 slot 0 gen 2 cold
recorded 00000000000000000000000000000002 0
",
    ),
    // Another version starts in a new container.
    (
        b"ask 173
PUT /api/v1/namespaces/_/actions/a HTTP/1.1\r
X-Whisk-Key: k1\r
Content-Length: 89\r
\r
{\"exec\":{\"kind\":\"plain:1\",\"code\":\"{\\\"cases\\\":[{\\\"when\\\":{},\\\"give\\\":{\\\"$all\\\":true}}]}\"}}
call /guest/a {}
turn
ask 188
PUT /api/v1/namespaces/_/actions/a?overwrite=true HTTP/1.1\r
X-Whisk-Key: k1\r
Content-Length: 89\r
\r
{\"exec\":{\"kind\":\"plain:1\",\"code\":\"{\\\"cases\\\":[{\\\"when\\\":{},\\\"give\\\":{\\\"$all\\\":true}}]}\"}}
call /guest/a {}
turn
",
        b"reply 309
HTTP/1.1 200 OK\r
Content-Type: application/json\r
Content-Length: 237\r
\r
{\"annotations\":[],\"exec\":{\"code\":\"{\\\"cases\\\":[{\\\"when\\\":{},\\\"give\\\":{\\\"$all\\\":true}}]}\",\"kind\":\"plain:1\"},\"limits\":{\"logs\":10,\"memory\":256,\"timeout\":60000},\"name\":\"a\",\"namespace\":\"guest\",\"parameters\":[],\"publish\":false,\"version\":\"0.0.1\"}
accepted 00000000000000010000000000000001
run 1 00000000000000010000000000000001 slot 0 gen 1 cold
recorded 00000000000000010000000000000001 0
reply 309
HTTP/1.1 200 OK\r
Content-Type: application/json\r
Content-Length: 237\r
\r
{\"annotations\":[],\"exec\":{\"code\":\"{\\\"cases\\\":[{\\\"when\\\":{},\\\"give\\\":{\\\"$all\\\":true}}]}\",\"kind\":\"plain:1\"},\"limits\":{\"logs\":10,\"memory\":256,\"timeout\":60000},\"name\":\"a\",\"namespace\":\"guest\",\"parameters\":[],\"publish\":false,\"version\":\"0.0.2\"}
accepted 00000000000000010000000000000002
run 2 00000000000000010000000000000002 slot 1 gen 1 cold
recorded 00000000000000010000000000000002 0
",
    ),
    // A container makes room by going.
    (
        b"ask 198
PUT /api/v1/namespaces/_/actions/a HTTP/1.1\r
X-Whisk-Key: k1\r
Content-Length: 113\r
\r
{\"exec\":{\"kind\":\"plain:1\",\"code\":\"{\\\"cases\\\":[{\\\"when\\\":{},\\\"give\\\":{\\\"$all\\\":true}}]}\"},\"limits\":{\"memory\":512}}
ask 198
PUT /api/v1/namespaces/_/actions/b HTTP/1.1\r
X-Whisk-Key: k1\r
Content-Length: 113\r
\r
{\"exec\":{\"kind\":\"plain:1\",\"code\":\"{\\\"cases\\\":[{\\\"when\\\":{},\\\"give\\\":{\\\"$all\\\":true}}]}\"},\"limits\":{\"memory\":512}}
call /guest/a {}
call /guest/a {}
call /guest/a {}
call /guest/a {}
next
next
next
next
call /guest/b {}
next
answer 2 {}
next
gone 1 1
turn
call /guest/b {}
turn
",
        b"reply 309
HTTP/1.1 200 OK\r
Content-Type: application/json\r
Content-Length: 237\r
\r
{\"annotations\":[],\"exec\":{\"code\":\"{\\\"cases\\\":[{\\\"when\\\":{},\\\"give\\\":{\\\"$all\\\":true}}]}\",\"kind\":\"plain:1\"},\"limits\":{\"logs\":10,\"memory\":512,\"timeout\":60000},\"name\":\"a\",\"namespace\":\"guest\",\"parameters\":[],\"publish\":false,\"version\":\"0.0.1\"}
reply 309
HTTP/1.1 200 OK\r
Content-Type: application/json\r
Content-Length: 237\r
\r
{\"annotations\":[],\"exec\":{\"code\":\"{\\\"cases\\\":[{\\\"when\\\":{},\\\"give\\\":{\\\"$all\\\":true}}]}\",\"kind\":\"plain:1\"},\"limits\":{\"logs\":10,\"memory\":512,\"timeout\":60000},\"name\":\"b\",\"namespace\":\"guest\",\"parameters\":[],\"publish\":false,\"version\":\"0.0.1\"}
accepted 00000000000000010000000000000001
accepted 00000000000000010000000000000002
accepted 00000000000000010000000000000003
accepted 00000000000000010000000000000004
run 1 00000000000000010000000000000001 slot 0 gen 1 cold
run 2 00000000000000010000000000000002 slot 1 gen 1 cold
run 3 00000000000000010000000000000003 slot 2 gen 1 cold
run 4 00000000000000010000000000000004 slot 3 gen 1 cold
accepted 00000000000000010000000000000005
nothing no room
recorded 00000000000000010000000000000002 0
remove 1:1
ok
run 5 00000000000000010000000000000005 slot 1 gen 2 cold
recorded 00000000000000010000000000000005 0
accepted 00000000000000010000000000000006
run 6 00000000000000010000000000000006 slot 1 gen 2 warm
recorded 00000000000000010000000000000006 0
",
    ),
    // A turn removes containers.
    (
        b"ask 198
PUT /api/v1/namespaces/_/actions/a HTTP/1.1\r
X-Whisk-Key: k1\r
Content-Length: 113\r
\r
{\"exec\":{\"kind\":\"plain:1\",\"code\":\"{\\\"cases\\\":[{\\\"when\\\":{},\\\"give\\\":{\\\"$all\\\":true}}]}\"},\"limits\":{\"memory\":512}}
ask 198
PUT /api/v1/namespaces/_/actions/b HTTP/1.1\r
X-Whisk-Key: k1\r
Content-Length: 113\r
\r
{\"exec\":{\"kind\":\"plain:1\",\"code\":\"{\\\"cases\\\":[{\\\"when\\\":{},\\\"give\\\":{\\\"$all\\\":true}}]}\"},\"limits\":{\"memory\":512}}
call /guest/a {}
call /guest/a {}
call /guest/a {}
call /guest/a {}
next
next
next
next
answer 3 {}
answer 4 {}
call /guest/b {}
turn
turn
",
        b"reply 309
HTTP/1.1 200 OK\r
Content-Type: application/json\r
Content-Length: 237\r
\r
{\"annotations\":[],\"exec\":{\"code\":\"{\\\"cases\\\":[{\\\"when\\\":{},\\\"give\\\":{\\\"$all\\\":true}}]}\",\"kind\":\"plain:1\"},\"limits\":{\"logs\":10,\"memory\":512,\"timeout\":60000},\"name\":\"a\",\"namespace\":\"guest\",\"parameters\":[],\"publish\":false,\"version\":\"0.0.1\"}
reply 309
HTTP/1.1 200 OK\r
Content-Type: application/json\r
Content-Length: 237\r
\r
{\"annotations\":[],\"exec\":{\"code\":\"{\\\"cases\\\":[{\\\"when\\\":{},\\\"give\\\":{\\\"$all\\\":true}}]}\",\"kind\":\"plain:1\"},\"limits\":{\"logs\":10,\"memory\":512,\"timeout\":60000},\"name\":\"b\",\"namespace\":\"guest\",\"parameters\":[],\"publish\":false,\"version\":\"0.0.1\"}
accepted 00000000000000010000000000000001
accepted 00000000000000010000000000000002
accepted 00000000000000010000000000000003
accepted 00000000000000010000000000000004
run 1 00000000000000010000000000000001 slot 0 gen 1 cold
run 2 00000000000000010000000000000002 slot 1 gen 1 cold
run 3 00000000000000010000000000000003 slot 2 gen 1 cold
run 4 00000000000000010000000000000004 slot 3 gen 1 cold
recorded 00000000000000010000000000000003 0
recorded 00000000000000010000000000000004 0
accepted 00000000000000010000000000000005
remove 2:1
gone 2 1
run 5 00000000000000010000000000000005 slot 2 gen 2 cold
recorded 00000000000000010000000000000005 0
",
    ),
];

#[test]
fn containers_come_and_go(rt: HostRuntime) -> Result<(), Fail> {
    for (number, (day, text)) in CONTAINERS.iter().enumerate() {
        assert!(rt; is_answered(rt.alloc(), day, text, b"")?, "day {number}");
    }
    Ok(())
}

// Lines that are no statements.
const BAD: [&[u8]; 12] = [
    b"begun",
    b"begun 1 ",
    b"begun 01",
    b"lost",
    b"lost -1",
    b"gone 0",
    b"gone 0 ",
    b"gone 0 4294967296",
    b"gone 4294967296 0",
    b"gone 0 1 1",
    b"sweep 1",
    b"sweep ",
];

#[test]
fn what_is_told_of_containers_has_its_form(rt: HostRuntime) -> Result<(), Fail> {
    for (number, day) in BAD.iter().enumerate() {
        let line = b"bad day at 1\n";
        assert!(rt; is_answered(rt.alloc(), day, b"", line)?, "line {number}");
    }
    Ok(())
}
