// Days whose devices fail at each of their calls in turn, and days that stop after each commit.
use crate::days::{Given, OVER_TABLE, TABLE, held, office_over, source_of, words_of};
use crate::stores::{Left, left_over, store_of};
use ow_traits::{MemoryKeeper, Rows};
use std::alloc::Global;
use std::test::Fail;

// A sequence that ends at its second component.
const SEQUENCE: &[u8] = b"ask 173
PUT /api/v1/namespaces/_/actions/a HTTP/1.1\r\nX-Whisk-Key: k1\r\nContent-Length: 89\r\n\r\n{\"exec\":{\"kind\":\"plain:1\",\"code\":\"{\\\"cases\\\":[{\\\"when\\\":{},\\\"give\\\":{\\\"$all\\\":true}}]}\"}}
ask 176
PUT /api/v1/namespaces/_/actions/b HTTP/1.1\r\nX-Whisk-Key: k1\r\nContent-Length: 92\r\n\r\n{\"exec\":{\"kind\":\"plain:1\",\"code\":\"{\\\"cases\\\":[{\\\"when\\\":{},\\\"give\\\":{\\\"error\\\":\\\"no\\\"}}]}\"}}
ask 173
PUT /api/v1/namespaces/_/actions/c HTTP/1.1\r\nX-Whisk-Key: k1\r\nContent-Length: 89\r\n\r\n{\"exec\":{\"kind\":\"plain:1\",\"code\":\"{\\\"cases\\\":[{\\\"when\\\":{},\\\"give\\\":{\\\"$all\\\":true}}]}\"}}
ask 139
PUT /api/v1/namespaces/_/actions/s HTTP/1.1\r\nX-Whisk-Key: k1\r\nContent-Length: 55\r\n\r\n{\"exec\":{\"kind\":\"sequence\",\"components\":[\"a\",\"b\",\"c\"]}}
call /guest/s {}
turn
turn
drain
";

// A conductor that calls two actions, one after the other.
const CONDUCTOR: &[u8] = b"ask 187
PUT /api/v1/namespaces/_/actions/triple HTTP/1.1\r\nX-Whisk-Key: k1\r\nContent-Length: 98\r\n\r\n{\"exec\":{\"kind\":\"plain:1\",\"code\":\"{\\\"cases\\\":[{\\\"when\\\":{\\\"value\\\":3},\\\"give\\\":{\\\"value\\\":9}}]}\"}}
ask 191
PUT /api/v1/namespaces/_/actions/increment HTTP/1.1\r\nX-Whisk-Key: k1\r\nContent-Length: 99\r\n\r\n{\"exec\":{\"kind\":\"plain:1\",\"code\":\"{\\\"cases\\\":[{\\\"when\\\":{\\\"value\\\":9},\\\"give\\\":{\\\"value\\\":10}}]}\"}}
ask 497
PUT /api/v1/namespaces/_/actions/con HTTP/1.1\r\nX-Whisk-Key: k1\r\nContent-Length: 410\r\n\r\n{\"exec\":{\"kind\":\"plain:1\",\"code\":\"{\\\"cases\\\":[{\\\"when\\\":{\\\"step\\\":2},\\\"give\\\":{\\\"params\\\":{\\\"value\\\":{\\\"$\\\":\\\"value\\\"}}}},{\\\"when\\\":{\\\"step\\\":1},\\\"give\\\":{\\\"action\\\":\\\"increment\\\",\\\"params\\\":{\\\"value\\\":{\\\"$\\\":\\\"value\\\"}},\\\"state\\\":{\\\"step\\\":2}}},{\\\"when\\\":{},\\\"give\\\":{\\\"action\\\":\\\"triple\\\",\\\"params\\\":{\\\"value\\\":{\\\"$\\\":\\\"value\\\"}},\\\"state\\\":{\\\"step\\\":1}}}]}\"},\"annotations\":[{\"key\":\"conductor\",\"value\":true}]}
call /guest/con {\"value\":3}
turn
turn
turn
turn
turn
turn
drain
";

// A fire that two rules follow.
const FIRE: &[u8] = b"ask 123
PUT /api/v1/namespaces/_/triggers/t HTTP/1.1\r\nX-Whisk-Key: k1\r\nContent-Length: 38\r\n\r\n{\"parameters\":[{\"key\":\"a\",\"value\":1}]}
ask 173
PUT /api/v1/namespaces/_/actions/x HTTP/1.1\r\nX-Whisk-Key: k1\r\nContent-Length: 89\r\n\r\n{\"exec\":{\"kind\":\"plain:1\",\"code\":\"{\\\"cases\\\":[{\\\"when\\\":{},\\\"give\\\":{\\\"$all\\\":true}}]}\"}}
ask 173
PUT /api/v1/namespaces/_/actions/y HTTP/1.1\r\nX-Whisk-Key: k1\r\nContent-Length: 89\r\n\r\n{\"exec\":{\"kind\":\"plain:1\",\"code\":\"{\\\"cases\\\":[{\\\"when\\\":{},\\\"give\\\":{\\\"$all\\\":true}}]}\"}}
ask 111
PUT /api/v1/namespaces/_/rules/r1 HTTP/1.1\r\nX-Whisk-Key: k1\r\nContent-Length: 28\r\n\r\n{\"trigger\":\"t\",\"action\":\"x\"}
ask 111
PUT /api/v1/namespaces/_/rules/r2 HTTP/1.1\r\nX-Whisk-Key: k1\r\nContent-Length: 28\r\n\r\n{\"trigger\":\"t\",\"action\":\"y\"}
ask 92
POST /api/v1/namespaces/_/triggers/t HTTP/1.1\r\nX-Whisk-Key: k1\r\nContent-Length: 7\r\n\r\n{\"b\":2}
turn
turn
drain
";

// ---- devices

// What the conductor's day writes, without the front of its ids: of a reply its status.
const WHOLE: &str = "200 OK
200 OK
200 OK
accepted 1
accepted 2
run 1 2 slot 0 gen 1 cold
recorded 2 0
accepted 3
run 2 3 slot 1 gen 1 cold
recorded 3 0
accepted 4
run 3 4 slot 0 gen 1 warm
recorded 4 0
accepted 5
run 4 5 slot 2 gen 1 cold
recorded 5 0
accepted 6
run 5 6 slot 0 gen 1 warm
recorded 6 0
recorded 1 0
nothing empty
drained 6
";

// Which call of the store fails, the load being 0 and the opening's commit 1; how many lines come as in the whole day, and what comes then.
const FAILED: [(u64, usize, &str); 10] = [
    (
        2,
        0,
        "503 Service Unavailable
200 OK
200 OK
accepted 1
accepted 2
run 1 2 slot 0 gen 1 cold
recorded 2 0
accepted 3
run 2 3 slot 0 gen 1 warm
recorded 3 0
accepted 4
run 3 4 slot 1 gen 1 cold
recorded 4 1
accepted 5
run 4 5 slot 0 gen 1 warm
recorded 5 0
recorded 1 0
nothing empty
nothing empty
drained 5
",
    ),
    (
        3,
        1,
        "503 Service Unavailable
200 OK
accepted 1
accepted 2
run 1 2 slot 0 gen 1 cold
recorded 2 0
accepted 3
run 2 3 slot 1 gen 1 cold
recorded 3 0
accepted 4
run 3 4 slot 0 gen 1 warm
recorded 4 0
accepted 5
run 4 5 slot 0 gen 1 warm
recorded 5 0
recorded 1 0
nothing empty
nothing empty
drained 5
",
    ),
    (
        4,
        2,
        "503 Service Unavailable
refused 14 The resource does not exist.
nothing empty
nothing empty
nothing empty
nothing empty
nothing empty
nothing empty
drained 0
",
    ),
    (
        5,
        3,
        "refused 31 The store failed.
nothing empty
nothing empty
nothing empty
nothing empty
nothing empty
nothing empty
drained 0
",
    ),
    (
        6,
        6,
        "store fault
nothing empty
nothing empty
nothing empty
nothing empty
nothing empty
open 2
",
    ),
    (
        7,
        9,
        "store fault
nothing empty
nothing empty
nothing empty
nothing empty
open 2
",
    ),
    (
        8,
        12,
        "store fault
nothing empty
nothing empty
nothing empty
open 2
",
    ),
    (
        9,
        15,
        "store fault
nothing empty
nothing empty
open 2
",
    ),
    (
        10,
        18,
        "store fault
nothing empty
open 2
",
    ),
    (11, 22, ""),
];

// The front of each id.
const FRONT: &str = "0000000000000001000000000000000";

fn push_line(text: &mut String, first: &str, second: &str) -> Result<(), Fail> {
    text.push_str(first)?;
    text.push_str(second)?;
    text.push('\n')?;
    Ok(())
}

// Whether the line is one of a reply after its status, or the first one of its statement.
fn is_of_reply(line: &str) -> bool {
    line.is_empty()
        || line.starts_with('{')
        || line.starts_with("reply ")
        || line.starts_with("Content-")
}

fn push_short(text: &mut String, line: &str) -> Result<(), Fail> {
    if let Some(status) = line.strip_prefix("HTTP/1.1 ") {
        return push_line(text, status, "");
    }
    if is_of_reply(line) {
        return Ok(());
    }
    let (before, after) = line.split_once(FRONT).unwrap_or((line, ""));
    push_line(text, before, after)
}

// What a day wrote, without the front of its ids: of a reply its status.
fn short(alloc: Global, out: &[u8]) -> Result<String, Fail> {
    let out = String::from_utf8(out.to_vec(alloc)?).map_err(|_| "no text")?;
    let mut text = String::new(alloc);
    for line in out.as_str().lines() {
        push_short(&mut text, line)?;
    }
    Ok(text)
}

// The first `count` lines of the whole day, and then the rest.
fn expected(alloc: Global, count: usize, rest: &str) -> Result<String, Fail> {
    let mut text = String::new(alloc);
    for (number, line) in WHOLE.lines().enumerate() {
        if number < count {
            push_line(&mut text, line, "")?;
        }
    }
    text.push_str(rest)?;
    Ok(text)
}

// What a day over the table and a store leaves.
fn over_store(alloc: Global, store: Box<MemoryKeeper>, day: &[u8]) -> Result<Box<Left>, Fail> {
    let words = words_of(alloc, OVER_TABLE)?;
    let table = source_of(alloc, TABLE, &[])?;
    let day = source_of(alloc, day, &[])?;
    held(
        alloc,
        left_over(alloc, &words, table, day, Box::into_inner(store)),
    )
}

// What the conductor's day leaves of a new store whose call of this number fails.
fn left_by_fault(alloc: Global, number: u64) -> Result<Box<Left>, Fail> {
    let failing = vec![in alloc; number]?;
    let store = held(alloc, MemoryKeeper::holding(Rows::new(alloc), failing))?;
    over_store(alloc, store, CONDUCTOR)
}

// Whether the conductor's day is written so, where the store's call of this number fails.
fn is_written(alloc: Global, number: u64, count: usize, rest: &str) -> Result<bool, Fail> {
    let left = left_by_fault(alloc, number)?;
    let out = short(alloc, left.out.bytes())?;
    let right = expected(alloc, count, rest)?;
    Ok(out.as_str() == right.as_str() && left.err.bytes() == b"".as_slice())
}

// Whether the service isn't opened over a store whose call of this number fails.
fn is_unopened(alloc: Global, number: u64) -> Result<bool, Fail> {
    let left = left_by_fault(alloc, number)?;
    Ok(left.out.bytes() == b"".as_slice() && left.err.bytes() == b"store fault\n".as_slice())
}

#[test]
fn the_store_fails_at_each_call(rt: HostRuntime) -> Result<(), Fail> {
    let alloc = rt.alloc();
    assert!(rt; is_unopened(alloc, 0)?);
    assert!(rt; is_unopened(alloc, 1)?);
    for (number, count, rest) in &FAILED {
        assert!(rt; is_written(alloc, *number, *count, rest)?, "call {number}");
    }
    Ok(())
}

// The conductor's day, of which the reads of these numbers fail, and the writes of these.
fn given<'a>(
    failing_table: &'a [u64],
    failing_reads: &'a [u64],
    failing_writes: &'a [u64],
) -> Given<'a> {
    Given {
        words: OVER_TABLE,
        table: TABLE,
        failing_table,
        day: CONDUCTOR,
        failing_reads,
        failing_writes,
    }
}

// Whether the day ends with this status and line, and a prefix of what the whole day writes; or all of it is carried out.
fn is_cut(alloc: Global, faulty: Given<'_>, status: u8, line: &[u8]) -> Result<bool, Fail> {
    let whole = office_over(alloc, given(&[], &[], &[]))?;
    let told = office_over(alloc, faulty)?;
    let is_front = whole.out.bytes().starts_with(told.out.bytes());
    let is_whole = told.out.bytes() == whole.out.bytes() && told.status.number() == 0;
    let is_cut = told.status.number() == status && told.err.bytes() == line;
    Ok(is_front && (is_cut || is_whole))
}

// Whether a read of the table, a read of the day and a write fail so.
fn fail_so(alloc: Global, number: u64) -> Result<bool, Fail> {
    let failing = [number];
    Ok(
        is_cut(alloc, given(&failing, &[], &[]), 3, b"read fault\n")?
            && is_cut(alloc, given(&[], &failing, &[]), 3, b"read fault\n")?
            && is_cut(alloc, given(&[], &[], &failing), 4, b"write fault\n")?,
    )
}

#[test]
fn a_read_and_a_write_fail_at_each_call(rt: HostRuntime) -> Result<(), Fail> {
    for number in 0..4 {
        assert!(rt; fail_so(rt.alloc(), number)?, "call {number}");
    }
    Ok(())
}

// ---- stops

// After how many commits a day stops, the opening's first, and what the next opening makes of its store. For each row, by their keys: `s` is
// the record of a success, `e` of an error, `a` of an abandoned activation, `o` an open activation, and `r` an entity.
const SEQUENCE_LEFT: [(u64, &str); 8] = [
    (1, ""),
    (2, "r"),
    (3, "rr"),
    (4, "rrr"),
    (5, "rrrr"),
    (6, "aarrrr"),
    (7, "asarrrr"),
    (8, "eserrrr"),
];

const CONDUCTOR_LEFT: [(u64, &str); 10] = [
    (1, ""),
    (2, "r"),
    (3, "rr"),
    (4, "rrr"),
    (5, "aarrr"),
    (6, "asarrr"),
    (7, "assarrr"),
    (8, "asssarrr"),
    (9, "assssarrr"),
    (10, "ssssssrrr"),
];

const FIRE_LEFT: [(u64, &str); 9] = [
    (1, ""),
    (2, "r"),
    (3, "rr"),
    (4, "rrr"),
    (5, "rrrr"),
    (6, "rrrrr"),
    (7, "saarrrrr"),
    (8, "ssarrrrr"),
    (9, "sssrrrrr"),
];

// More than the calls of the store that a day makes.
const CALLS: u64 = 40;

// The numbers of all calls of the store after the first `commits` commits.
fn calls_after(alloc: Global, commits: u64) -> Result<Vec<u64>, Fail> {
    let mut failing = Vec::new(alloc);
    for number in 0..CALLS {
        if number > commits {
            failing.push(number)?;
        }
    }
    Ok(failing)
}

// The store of a day that stops after the first `commits` commits: all later ones fail.
fn stopped(alloc: Global, day: &[u8], commits: u64) -> Result<Box<MemoryKeeper>, Fail> {
    let failing = calls_after(alloc, commits)?;
    let store = held(alloc, MemoryKeeper::holding(Rows::new(alloc), failing))?;
    store_of(alloc, over_store(alloc, store, day)?)
}

// What an empty day over its rows leaves.
fn opened_again(alloc: Global, store: Box<MemoryKeeper>) -> Result<Box<Left>, Fail> {
    let rows = Box::into_inner(store).into_rows();
    let store = held(alloc, MemoryKeeper::holding(rows, Vec::new(alloc)))?;
    over_store(alloc, store, b"")
}

// The letter of a record.
fn record_letter(text: &str) -> char {
    if text.contains("The activation was abandoned.") {
        'a'
    } else if text.contains("\"success\":true") {
        's'
    } else {
        'e'
    }
}

fn push_letter(letters: &mut String, key: &str, text: &str) -> Result<(), Fail> {
    if key.starts_with("done/") {
        letters.push(record_letter(text))?;
    }
    if key.starts_with("open/") {
        letters.push('o')?;
    }
    if key.starts_with("row/") {
        letters.push('r')?;
    }
    Ok(())
}

fn letters_of(alloc: Global, rows: &Rows) -> Result<String, Fail> {
    let mut letters = String::new(alloc);
    for (key, text) in rows.as_slice() {
        push_letter(&mut letters, key.as_str(), text.as_str())?;
    }
    Ok(letters)
}

// Whether the next opening makes this of a day that stops after the first `commits` commits.
fn is_left(alloc: Global, day: &[u8], commits: u64, expected: &str) -> Result<bool, Fail> {
    let left = opened_again(alloc, stopped(alloc, day, commits)?)?;
    let Some(store) = left.store.as_ref() else {
        return Ok(false);
    };
    let letters = letters_of(alloc, store.rows())?;
    Ok(letters.as_str() == expected && left.err.bytes() == b"".as_slice())
}

fn all_are_left(alloc: Global, day: &[u8], table: &[(u64, &str)]) -> Result<bool, Fail> {
    for (commits, expected) in table {
        if !is_left(alloc, day, *commits, expected)? {
            return Ok(false);
        }
    }
    Ok(true)
}

#[test]
fn a_stop_after_each_commit_leaves_each_activation_once(rt: HostRuntime) -> Result<(), Fail> {
    let alloc = rt.alloc();
    assert!(rt; all_are_left(alloc, SEQUENCE, &SEQUENCE_LEFT)?);
    assert!(rt; all_are_left(alloc, CONDUCTOR, &CONDUCTOR_LEFT)?);
    assert!(rt; all_are_left(alloc, FIRE, &FIRE_LEFT)?);
    Ok(())
}
