// Days and words, with what the office answers and writes for them.
use ow_command_line::Status;
use ow_office::office;
use ow_traits::{MemoryKeeper, MemorySink, MemorySource};
use std::alloc::Global;
use std::test::Fail;

// The office table of the days: one namespace, and a key of its own.
pub const TABLE: &[u8] = b"namespace,1,guest,,,\nkey,k1,anna,guest,,\n";

// The words for a day over it.
pub const OVER_TABLE: &[&str] = &["day", "--table", "office.csv"];

// What one call of the office is given: its words, the bytes of the table and of the day, and the numbers of the reads
// of these and of the writes that fail.
#[derive(Clone, Copy)]
pub struct Given<'a> {
    pub words: &'a [&'a str],
    pub table: &'a [u8],
    pub failing_table: &'a [u64],
    pub day: &'a [u8],
    pub failing_reads: &'a [u64],
    pub failing_writes: &'a [u64],
}

// A day over the table, of which no call fails.
fn over_table(day: &[u8]) -> Given<'_> {
    Given {
        words: OVER_TABLE,
        table: TABLE,
        failing_table: &[],
        day,
        failing_reads: &[],
        failing_writes: &[],
    }
}

// The outcome of one call of the office.
#[derive(Drop)]
pub struct Told {
    pub status: Status,
    // How many bytes of the day are left.
    pub left: usize,
    pub out: MemorySink,
    pub err: MemorySink,
}

// The value, in a box, since each return path of a function drops what it holds: a box by one call.
pub fn held<T: Drop>(alloc: Global, value: T) -> Result<Box<T>, Fail> {
    match Box::new(alloc, value) {
        Ok(held) => Ok(held),
        Err(_) => Err("no memory")?,
    }
}

// The office over sources and sinks in memory.
fn told_over(
    alloc: Global,
    words: &[String],
    mut table: MemorySource,
    mut day: MemorySource,
    mut out: MemorySink,
) -> Told {
    let mut err = MemorySink::new(alloc, Vec::new(alloc));
    let store = MemoryKeeper::new(alloc);
    let (status, store) = office(
        alloc, words, &mut table, &mut day, &mut out, &mut err, store,
    );
    let left = day.bytes().len();
    drop((store, table, day));
    Told {
        status,
        left,
        out,
        err,
    }
}

pub fn words_of(alloc: Global, given: &[&str]) -> Result<Vec<String>, Fail> {
    let mut words = Vec::new(alloc);
    for word in given {
        words.push(String::from_str(alloc, word)?)?;
    }
    Ok(words)
}

pub fn source_of(alloc: Global, bytes: &[u8], failing: &[u64]) -> Result<MemorySource, Fail> {
    let bytes = bytes.to_vec(alloc)?;
    Ok(MemorySource::new(bytes, failing.to_vec(alloc)?))
}

// The outcome of a call that is given this.
pub fn office_over(alloc: Global, given: Given<'_>) -> Result<Box<Told>, Fail> {
    let words = words_of(alloc, given.words)?;
    let failing = given.failing_writes.to_vec(alloc)?;
    let table = source_of(alloc, given.table, given.failing_table)?;
    let day = source_of(alloc, given.day, given.failing_reads)?;
    let out = MemorySink::new(alloc, failing);
    held(alloc, told_over(alloc, &words, table, day, out))
}

// Whether the day is answered by this text, and this line reports how it ends: no line where all of it is carried out.
pub fn is_answered(alloc: Global, day: &[u8], text: &[u8], line: &[u8]) -> Result<bool, Fail> {
    let told = office_over(alloc, over_table(day))?;
    Ok(told.out.bytes() == text && told.err.bytes() == line)
}

// Whether all of the day is carried out, and its answers end in this text.
fn ends_in(alloc: Global, day: &[u8], text: &[u8]) -> Result<bool, Fail> {
    let told = office_over(alloc, over_table(day))?;
    Ok(told.status.number() == 0 && told.out.bytes().ends_with(text))
}

// Whether `left` bytes are left of a day that ends with this line.
fn leaves(alloc: Global, day: &[u8], line: &[u8], left: usize) -> Result<bool, Fail> {
    let told = office_over(alloc, over_table(day))?;
    Ok(told.err.bytes() == line && told.left == left)
}

// A day of this text, then a piece this many times, then this end.
fn long_day(
    alloc: Global,
    head: &[u8],
    piece: &[u8],
    times: usize,
    end: &[u8],
) -> Result<Vec<u8>, Fail> {
    let mut day = Vec::from_slice(alloc, head)?;
    for _ in 0..times {
        day.extend_from_slice(piece)?;
    }
    day.extend_from_slice(end)?;
    Ok(day)
}

// The name of the built-in action is written out in each day, as a user writes it.
const CASES: [(&[u8], &[u8], &[u8]); 17] = [
    (b"end\n", b"", b""),
    (b"", b"", b""),
    (
        b"call /whisk.system/utils/echo {\"a\":1}\nnext\nanswer 1 {\"a\":1}\ndrain\nend\n",
        b"accepted 00000000000000000000000000000001
run 1 00000000000000000000000000000001 slot 0 gen 1 cold
recorded 00000000000000000000000000000001 0
drained 1
",
        b"",
    ),
    (
        b"call /whisk.system/utils/echo {}\nnext\ndrain",
        b"accepted 00000000000000000000000000000001
run 1 00000000000000000000000000000001 slot 0 gen 1 cold
open 1
",
        b"",
    ),
    (
        b"call /whisk.system/utils/no {}
next
answer 1 {}
call /whisk.system/utils/echo x
end
",
        b"refused 14 The resource does not exist.
nothing empty
refused 29 No run 1.
refused 1 The text is no JSON.
",
        b"",
    ),
    (
        b"call /whisk.system/utils/echo {}
call /whisk.system/utils/echo {}
next
next
answer 2 {\"error\":null}
answer 2 {}
answer 1 7
drain
",
        b"accepted 00000000000000000000000000000001
accepted 00000000000000000000000000000002
run 1 00000000000000000000000000000001 slot 0 gen 1 cold
run 2 00000000000000000000000000000002 slot 1 gen 1 cold
recorded 00000000000000000000000000000002 1
refused 29 No run 2.
recorded 00000000000000000000000000000001 2
drained 2
",
        b"",
    ),
    (
        b"call /whisk.system/utils/no x
call /whisk.system/utils/echo [1]
call /whisk.system/utils/echo {\"a\":0.5}
call /whisk.system/utils/echo 
",
        b"refused 1 The text is no JSON.
refused 10 The field body has a wrong type.
refused 2 A number is not a whole number of 64 bits.
refused 1 The text is no JSON.
",
        b"",
    ),
    (b"next\nend\nnonsense\n", b"nothing empty\n", b""),
    (b"at 253402300799999\nat 0\nnext\n", b"nothing empty\n", b""),
    (b"next\n\nnext\n", b"nothing empty\n", b"bad day at 2\n"),
    (b"next\r\n", b"", b"bad day at 1\n"),
    (b"next \n", b"", b"bad day at 1\n"),
    (b"at 253402300800000\n", b"", b"bad day at 1\n"),
    (b"at 00\n", b"", b"bad day at 1\n"),
    (b"call  {}\n", b"", b"bad day at 1\n"),
    (b"answer 1\n", b"", b"bad day at 1\n"),
    (b"answer 18446744073709551616 {}\n", b"", b"bad day at 1\n"),
];

const MALFORMED: &[u8] = b"{\"code\":35,\"error\":\"The request head is malformed.\"}\n";

// Requests among other statements, and refusals of calls.
const ASKS: [(&[u8], &[u8], &[u8]); 15] = [
    (
        b"call /whisk.system/utils/echo {}\nnext\ndrain\ncall /whisk.system/utils/echo {}\n",
        b"accepted 00000000000000000000000000000001
run 1 00000000000000000000000000000001 slot 0 gen 1 cold
open 1
refused 32 The office is draining.
",
        b"",
    ),
    (
        b"ask 68
GET /api/v1/namespaces/_/actions/hello HTTP/1.1\r
X-Whisk-Key: k1\r
\r

ask 72
GET /api/v1/namespaces/_/actions?limit=201 HTTP/1.1\r
X-Whisk-Key: k1\r
\r

",
        b"reply 128
HTTP/1.1 404 Not Found\r
Content-Type: application/json\r
Content-Length: 50\r
\r
{\"code\":14,\"error\":\"The resource does not exist.\"}
reply 133
HTTP/1.1 400 Bad Request\r
Content-Type: application/json\r
Content-Length: 53\r
\r
{\"code\":39,\"error\":\"The query value limit is wrong.\"}
",
        b"",
    ),
    (
        b"ask 272
PUT /api/v1/namespaces/_/actions/hello HTTP/1.1\r
Host: localhost\r
User-Agent: curl/8.5.0\r
Accept: */*\r
X-Whisk-Key: k1\r
Content-Type: application/json\r
Content-Length: 98\r
\r
{\"exec\":{\"kind\":\"plain:1\",\"code\":\"{\\\"cases\\\":[{\\\"when\\\":{},\
\\\"give\\\":{\\\"greeting\\\":\\\"Hello\\\"}}]}\"}}
ask 272
PUT /api/v1/namespaces/_/actions/hello HTTP/1.1\r
Host: localhost\r
User-Agent: curl/8.5.0\r
Accept: */*\r
X-Whisk-Key: k1\r
Content-Type: application/json\r
Content-Length: 98\r
\r
{\"exec\":{\"kind\":\"plain:1\",\"code\":\"{\\\"cases\\\":[{\\\"when\\\":{},\
\\\"give\\\":{\\\"greeting\\\":\\\"Hello\\\"}}]}\"}}
ask 287
PUT /api/v1/namespaces/_/actions/hello?overwrite=true HTTP/1.1\r
Host: localhost\r
User-Agent: curl/8.5.0\r
Accept: */*\r
X-Whisk-Key: k1\r
Content-Type: application/json\r
Content-Length: 98\r
\r
{\"exec\":{\"kind\":\"plain:1\",\"code\":\"{\\\"cases\\\":[{\\\"when\\\":{},\
\\\"give\\\":{\\\"greeting\\\":\\\"Hello\\\"}}]}\"}}
ask 290
PUT /api/v1/namespaces/_/actions/hello?overwrite=true HTTP/1.1\r
Host: localhost\r
User-Agent: curl/8.5.0\r
Accept: */*\r
X-Whisk-Key: k1\r
Content-Type: application/json\r
Content-Length: 100\r
\r
{\"exec\":{\"kind\":\"nodejs:20\",\"code\":\"{\\\"cases\\\":[{\\\"when\\\":{},\
\\\"give\\\":{\\\"greeting\\\":\\\"Hello\\\"}}]}\"}}
ask 75
DELETE /api/v1/namespaces/guest/actions/hello HTTP/1.1\r
X-Whisk-Key: k1\r
\r

ask 75
DELETE /api/v1/namespaces/guest/actions/hello HTTP/1.1\r
X-Whisk-Key: k1\r
\r

",
        b"reply 322
HTTP/1.1 200 OK\r
Content-Type: application/json\r
Content-Length: 250\r
\r
{\"annotations\":[],\"exec\":{\"code\":\"{\\\"cases\\\":[{\\\"when\\\":{},\
\\\"give\\\":{\\\"greeting\\\":\\\"Hello\\\"}}]}\",\"kind\":\"plain:1\"},\"limits\":{\"logs\":10,\"memory\":256,\
\"timeout\":60000},\"name\":\"hello\",\"namespace\":\"guest\",\"parameters\":[],\"publish\":false,\
\"version\":\"0.0.1\"}
reply 119
HTTP/1.1 409 Conflict\r
Content-Type: application/json\r
Content-Length: 42\r
\r
{\"code\":17,\"error\":\"The resource exists.\"}
reply 322
HTTP/1.1 200 OK\r
Content-Type: application/json\r
Content-Length: 250\r
\r
{\"annotations\":[],\"exec\":{\"code\":\"{\\\"cases\\\":[{\\\"when\\\":{},\
\\\"give\\\":{\\\"greeting\\\":\\\"Hello\\\"}}]}\",\"kind\":\"plain:1\"},\"limits\":{\"logs\":10,\"memory\":256,\
\"timeout\":60000},\"name\":\"hello\",\"namespace\":\"guest\",\"parameters\":[],\"publish\":false,\
\"version\":\"0.0.2\"}
reply 122
HTTP/1.1 400 Bad Request\r
Content-Type: application/json\r
Content-Length: 42\r
\r
{\"code\":12,\"error\":\"The kind is unknown.\"}
reply 322
HTTP/1.1 200 OK\r
Content-Type: application/json\r
Content-Length: 250\r
\r
{\"annotations\":[],\"exec\":{\"code\":\"{\\\"cases\\\":[{\\\"when\\\":{},\
\\\"give\\\":{\\\"greeting\\\":\\\"Hello\\\"}}]}\",\"kind\":\"plain:1\"},\"limits\":{\"logs\":10,\"memory\":256,\
\"timeout\":60000},\"name\":\"hello\",\"namespace\":\"guest\",\"parameters\":[],\"publish\":false,\
\"version\":\"0.0.2\"}
reply 128
HTTP/1.1 404 Not Found\r
Content-Type: application/json\r
Content-Length: 50\r
\r
{\"code\":14,\"error\":\"The resource does not exist.\"}
",
        b"",
    ),
    (
        b"ask 272
PUT /api/v1/namespaces/_/actions/hello HTTP/1.1\r
Host: localhost\r
User-Agent: curl/8.5.0\r
Accept: */*\r
X-Whisk-Key: k1\r
Content-Type: application/json\r
Content-Length: 98\r
\r
{\"exec\":{\"kind\":\"plain:1\",\"code\":\"{\\\"cases\\\":[{\\\"when\\\":{},\
\\\"give\\\":{\\\"greeting\\\":\\\"Hello\\\"}}]}\"}}
at 5
call /guest/hello {\"a\":1}
next
ask 72
GET /api/v1/namespaces/_/actions/hello HTTP/1.1\r
X-Whisk-Key: k1\r
\r
more
answer 1 {}
drain
ask 62
GET /api/v1/namespaces/_/actions HTTP/1.1\r
X-Whisk-Key: k1\r
\r

",
        b"reply 322
HTTP/1.1 200 OK\r
Content-Type: application/json\r
Content-Length: 250\r
\r
{\"annotations\":[],\"exec\":{\"code\":\"{\\\"cases\\\":[{\\\"when\\\":{},\
\\\"give\\\":{\\\"greeting\\\":\\\"Hello\\\"}}]}\",\"kind\":\"plain:1\"},\"limits\":{\"logs\":10,\"memory\":256,\
\"timeout\":60000},\"name\":\"hello\",\"namespace\":\"guest\",\"parameters\":[],\"publish\":false,\
\"version\":\"0.0.1\"}
accepted 00000000000000010000000000000001
run 1 00000000000000010000000000000001 slot 0 gen 1 cold
reply 322
HTTP/1.1 200 OK\r
Content-Type: application/json\r
Content-Length: 250\r
\r
{\"annotations\":[],\"exec\":{\"code\":\"{\\\"cases\\\":[{\\\"when\\\":{},\
\\\"give\\\":{\\\"greeting\\\":\\\"Hello\\\"}}]}\",\"kind\":\"plain:1\"},\"limits\":{\"logs\":10,\"memory\":256,\
\"timeout\":60000},\"name\":\"hello\",\"namespace\":\"guest\",\"parameters\":[],\"publish\":false,\
\"version\":\"0.0.1\"}
recorded 00000000000000010000000000000001 0
drained 1
reply 160
HTTP/1.1 200 OK\r
Content-Type: application/json\r
Content-Length: 89\r
\r
[{\"annotations\":[],\"name\":\"hello\",\"namespace\":\"guest\",\"publish\":false,\"version\":\"0.0.1\"}]
",
        b"",
    ),
    (
        b"call x x
call /guest x
call /a/b/c/d x
call //b x
call /-a/b x
call /a%20/b x
call /guest/%zz x
call /guest/x%80 x
call /guest/x x
call /guest/x 1.5
call /guest/x [[[[[[[[[[[[[[[[[[[[[[[[[[[[[[[[[[[[[[[[[[[[[[[[[[[[[[[[[[[[[[[[[[[[[[[[[[[[[[[[[[[[[[[[[[[[[[[[[[[[[]]\
]]]]]]]]]]]]]]]]]]]]]]]]]]]]]]]]]]]]]]]]]]]]]]]]]]]]]]]]]]]]]]]]]]]]]]]]]]]]]]]]]]]]]]]]]]]]]]]]]]]
call /guest/x 7
call /_/x {}
call %2fwhisk.system%2Futils/echo {}
",
        b"refused 8 The path names no entity.
refused 8 The path names no entity.
refused 8 The path names no entity.
refused 4 A name is empty.
refused 6 A name has a wrong byte at 0.
refused 7 A name ends in a space.
refused 6 A name has a wrong byte at 0.
refused 6 A name has a wrong byte at 1.
refused 1 The text is no JSON.
refused 2 A number is not a whole number of 64 bits.
refused 3 The value is nested deeper than 100.
refused 10 The field body has a wrong type.
refused 14 The resource does not exist.
accepted 00000000000000000000000000000001
",
        b"",
    ),
    (
        b"ask 0",
        b"reply 127
HTTP/1.1 400 Bad Request\r
Content-Type: application/json\r
Content-Length: 47\r
\r
{\"code\":40,\"error\":\"The request is cut short.\"}
",
        b"",
    ),
    (
        b"ask 0\n\nnext\n",
        b"reply 127
HTTP/1.1 400 Bad Request\r
Content-Type: application/json\r
Content-Length: 47\r
\r
{\"code\":40,\"error\":\"The request is cut short.\"}
nothing empty
",
        b"",
    ),
    (
        b"ask 3\nabc",
        b"reply 127
HTTP/1.1 400 Bad Request\r
Content-Type: application/json\r
Content-Length: 47\r
\r
{\"code\":40,\"error\":\"The request is cut short.\"}
",
        b"",
    ),
    (
        b"ask 40\nxxxxxxxxxxxxxxxxxxxxxxxxxxxxxxxxxxxxxxx",
        b"",
        b"bad day at 1\n",
    ),
    (b"ask 3\nabcd\n", b"", b"bad day at 1\n"),
    (b"ask 3\nabcd", b"", b"bad day at 1\n"),
    (b"next\nask 1", b"nothing empty\n", b"bad day at 2\n"),
    (b"ask 8388609\n", b"", b"bad day at 1\n"),
    (b"ask 00\n\n", b"", b"bad day at 1\n"),
    (b"ask\n", b"", b"bad day at 1\n"),
];

// The replies of runners to the runs of one day, and bad ones.
const RUNS: [(&[u8], &[u8], &[u8]); 14] = [
    (
        b"call /whisk.system/utils/echo {}
call /whisk.system/utils/echo {}
call /whisk.system/utils/echo {}
call /whisk.system/utils/echo {}
next
next
next
next
exit 4 3
logged 3 2 {\"error\":1}
next

nostart 2 no such program
fault 1
fault 1
drain
",
        b"accepted 00000000000000000000000000000001
accepted 00000000000000000000000000000002
accepted 00000000000000000000000000000003
accepted 00000000000000000000000000000004
run 1 00000000000000000000000000000001 slot 0 gen 1 cold
run 2 00000000000000000000000000000002 slot 1 gen 1 cold
run 3 00000000000000000000000000000003 slot 2 gen 1 cold
run 4 00000000000000000000000000000004 slot 3 gen 1 cold
recorded 00000000000000000000000000000004 2
recorded 00000000000000000000000000000003 1
recorded 00000000000000000000000000000002 3
recorded 00000000000000000000000000000001 3
refused 29 No run 1.
drained 4
",
        b"",
    ),
    (
        b"logged 7 1 {}\nend\nexit 8 255\nnostart 9 \nfault 10\nlogged 11 0 x",
        b"refused 29 No run 7.
refused 29 No run 8.
refused 29 No run 9.
refused 29 No run 10.
refused 29 No run 11.
",
        b"",
    ),
    (b"logged 1 2 {}\n\nx", b"refused 29 No run 1.\n", b""),
    (
        b"next\nlogged 1 1 {}",
        b"nothing empty\n",
        b"bad day at 2\n",
    ),
    (b"logged 1 1 {}\n", b"", b"bad day at 1\n"),
    (b"logged 1 2 {}\nx\n", b"", b"bad day at 1\n"),
    (
        b"logged 1 18446744073709551615 {}\nx\n",
        b"",
        b"bad day at 1\n",
    ),
    (b"logged 1 1 {}\n\xff\n", b"", b"bad day at 1\n"),
    (b"logged 1 1\nx\n", b"", b"bad day at 1\n"),
    (b"logged 1 01 {}\nx\n", b"", b"bad day at 1\n"),
    (b"exit 1 256\n", b"", b"bad day at 1\n"),
    (b"exit 1\n", b"", b"bad day at 1\n"),
    (b"nostart 1\n", b"", b"bad day at 1\n"),
    (b"fault 1 \n", b"", b"bad day at 1\n"),
];

#[test]
fn days_are_answered(rt: HostRuntime) -> Result<(), Fail> {
    for (number, (day, text, line)) in CASES.iter().enumerate() {
        assert!(rt; is_answered(rt.alloc(), day, text, line)?, "day {number}");
    }
    Ok(())
}

#[test]
fn requests_are_answered(rt: HostRuntime) -> Result<(), Fail> {
    for (number, (day, text, line)) in ASKS.iter().enumerate() {
        assert!(rt; is_answered(rt.alloc(), day, text, line)?, "day {number}");
    }
    Ok(())
}

#[test]
fn runs_are_replied_to(rt: HostRuntime) -> Result<(), Fail> {
    for (number, (day, text, line)) in RUNS.iter().enumerate() {
        assert!(rt; is_answered(rt.alloc(), day, text, line)?, "day {number}");
    }
    Ok(())
}

const MANY_TOLD: &[u8] = b"refused 29 No run 1.\nnothing empty\n";

fn many_lines_are_read(alloc: Global) -> Result<bool, Fail> {
    let day = long_day(
        alloc,
        b"logged 1 100000 {}\n",
        b"a line\n",
        100_000,
        b"next\n",
    )?;
    is_answered(alloc, &day, MANY_TOLD, b"")
}

#[test]
fn many_lines_of_logs_are_read_in_pieces(rt: HostRuntime) -> Result<(), Fail> {
    assert!(rt; many_lines_are_read(rt.alloc())?);
    Ok(())
}

// A runner's answer of eight bytes, and the bytes that are put into its text.
const ANSWER: &[u8] = b"call /whisk.system/utils/echo {}\nnext\nanswer 1 {\"a\":\"";

// Whether a day with an answer of `size` bytes ends in this line.
fn long_answer_ends_in(alloc: Global, size: usize, line: &[u8]) -> Result<bool, Fail> {
    let day = long_day(alloc, ANSWER, b"x", size.saturating_sub(8), b"\"}")?;
    ends_in(alloc, &day, line)
}

#[test]
fn an_answer_has_at_most_a_megabyte(rt: HostRuntime) -> Result<(), Fail> {
    let line = b"recorded 00000000000000000000000000000001 0\n";
    assert!(rt; long_answer_ends_in(rt.alloc(), 1_048_576, line)?);
    Ok(())
}

#[test]
fn a_longer_answer_is_none(rt: HostRuntime) -> Result<(), Fail> {
    let line = b"recorded 00000000000000000000000000000001 2\n";
    assert!(rt; long_answer_ends_in(rt.alloc(), 1_048_577, line)?);
    Ok(())
}

fn long_request_is_read(alloc: Global) -> Result<bool, Fail> {
    let day = long_day(alloc, b"ask 200000\n", b"x", 200_000, b"")?;
    ends_in(alloc, &day, MALFORMED)
}

#[test]
fn a_long_request_is_read_in_pieces(rt: HostRuntime) -> Result<(), Fail> {
    assert!(rt; long_request_is_read(rt.alloc())?);
    Ok(())
}

// Whether the second write fails, with this many bytes written before it.
fn fails_to_write_behind(alloc: Global, day: &[u8], written: usize) -> Result<bool, Fail> {
    let mut given = over_table(day);
    given.failing_writes = &[1];
    let told = office_over(alloc, given)?;
    Ok(told.status.number() == 4 && told.out.bytes().len() == written)
}

fn many_answers_are_written(alloc: Global) -> Result<bool, Fail> {
    let day = long_day(alloc, b"", b"ask 0\n\n", 8_000, b"")?;
    fails_to_write_behind(alloc, &day, 7_599 * 138)
}

// A reply to no bytes has 138 bytes with its line, and 8,000 such statements are one piece of a day.
#[test]
fn a_megabyte_of_answers_is_written_before_the_piece_ends(rt: HostRuntime) -> Result<(), Fail> {
    assert!(rt; many_answers_are_written(rt.alloc())?);
    Ok(())
}

// Whether `left` bytes are left of a day that ends with this line. The day is this head, and 70,000 bytes after it.
fn leaves_behind(alloc: Global, head: &[u8], line: &[u8], left: usize) -> Result<bool, Fail> {
    let day = long_day(alloc, head, b"x", 70_000, b"")?;
    leaves(alloc, &day, line, left)
}

#[test]
fn what_follows_the_end_is_left(rt: HostRuntime) -> Result<(), Fail> {
    assert!(rt; leaves_behind(rt.alloc(), b"end\n", b"", 4_468)?);
    Ok(())
}

#[test]
fn what_follows_a_bad_statement_is_left(rt: HostRuntime) -> Result<(), Fail> {
    assert!(rt; leaves_behind(rt.alloc(), b"x\n", b"bad day at 1\n", 4_466)?);
    Ok(())
}
