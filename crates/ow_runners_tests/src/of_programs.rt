// Programs of the system. They take no arguments. A shell reads the parameters as its input. It runs what is in `$(..)` of a text before
// it finds that the whole is no command.
use crate::runs::{params_of, programs, reply_of};
use ow_runners::ProgramRunner;
use ow_traits::{Kind, RunReply, Runner};
use ow_value::{Fields, Lines, Params, Str, Val, write_val};
use std::alloc::Global;
use std::test::Fail;

// The name of a program, parameters, and the reply: what it is, and each line of its logs after a slash.
const ROWS: &str = r#"cat|{"a":1}|answer {"a":1}
cat|{"b":[1,"x"],"a":null}|answer {"a":null,"b":[1,"x"]}
true|{"a":1}|answer 
false|{"a":1}|exit 1
dog|{"a":1}|no start: no such program
missing|{"a":1}|no start: the program did not start
folder|{"a":1}|no start: the program did not start
sh|{"a":"$(kill -9 $$)"}|exit -1
sh|{"a":"$(echo one >&2; echo >&2; printf two >&2; kill -9 $$)"}|exit -1/one//two
sh|{"a":"$(printf a\\377b >&2; kill -9 $$)"}|exit -1/a�b
"#;

const ECHO: &str = r#"{"cases":[{"give":{"$all":true},"when":{}}]}"#;

// A shell that writes ten megabytes of its standard error, and kills itself.
const LONG_ERRORS: &str = r#"{"a":"$(head -c 10485760 /dev/zero >&2; kill -9 $$)"}"#;

const MEGABYTE: usize = 1_048_576;

fn with_logs(words: String, logs: &Lines) -> Result<String, Fail> {
    let mut words = words;
    for line in logs.as_slice() {
        words.push('/')?;
        words.push_str(line.as_str())?;
    }
    Ok(words)
}

// The reply in words.
fn words_of(alloc: Global, reply: &RunReply) -> Result<String, Fail> {
    match reply {
        RunReply::Answer { text, logs } => {
            let text = text.as_str();
            with_logs(format!(in alloc; "answer {text}")?, logs)
        }
        RunReply::Exit { code, logs } => with_logs(format!(in alloc; "exit {code}")?, logs),
        RunReply::NoStart { text } => {
            let text = text.as_str();
            Ok(format!(in alloc; "no start: {text}")?)
        }
        RunReply::Fault => Ok(format!(in alloc; "fault")?),
    }
}

// The reply to a row, in words, and the words that the row has.
fn told<'a, R: Runner>(
    alloc: Global,
    runner: &mut R,
    row: &'a str,
) -> Result<(String, &'a str), Fail> {
    let mut parts = row.split('|');
    let (Some(name), Some(params), Some(expected)) = (parts.next(), parts.next(), parts.next())
    else {
        return Err("no row")?;
    };
    let params = params_of(alloc, params)?;
    let reply = reply_of(alloc, runner, Kind::Program, name, &params)?;
    Ok((words_of(alloc, &reply)?, expected))
}

#[test]
fn each_program_replies_by_its_end(rt: HostRuntime) -> Result<(), Fail> {
    let alloc = rt.alloc();
    let mut runner = ProgramRunner::new(&rt, programs(alloc)?);
    for row in ROWS.lines() {
        let (words, expected) = told(alloc, &mut runner, row)?;
        assert_eq!(rt; words.as_str(), expected);
    }
    assert_eq!(rt; runner.faults(), 0);
    Ok(())
}

// Whether plain code is answered by its cases.
fn echoes<R: Runner>(alloc: Global, runner: &mut R) -> Result<bool, Fail> {
    let params = params_of(alloc, r#"{"a":1}"#)?;
    let reply = reply_of(alloc, runner, Kind::Plain, ECHO, &params)?;
    let words = words_of(alloc, &reply)?;
    Ok(words.as_str() == r#"answer {"a":1}"#)
}

#[test]
fn plain_code_is_answered_by_its_cases(rt: HostRuntime) -> Result<(), Fail> {
    let alloc = rt.alloc();
    let mut runner = ProgramRunner::new(&rt, programs(alloc)?);
    assert!(rt; echoes(alloc, &mut runner)?);
    Ok(())
}

// Parameters with a text of a megabyte.
fn large(alloc: Global) -> Result<Params, Fail> {
    let text = String::from_utf8(vec![in alloc; b'x'; MEGABYTE]?)?;
    let mut fields = Fields::new(alloc);
    fields.set(Str::of(alloc, "a")?, Val::Text(Str::from_string(text)?))?;
    Ok(fields.into_params()?)
}

// Whether a megabyte comes back from a program that hands on what it reads.
fn comes_back<R: Runner>(alloc: Global, runner: &mut R) -> Result<bool, Fail> {
    let params = large(alloc)?;
    let reply = reply_of(alloc, runner, Kind::Program, "cat", &params)?;
    let sent = write_val(alloc, &Val::Object(params))?;
    match &reply {
        RunReply::Answer { text, logs } => {
            Ok(text.as_str().as_bytes() == sent.as_slice() && logs.is_empty())
        }
        _ => Ok(false),
    }
}

// Whether a program that doesn't read a megabyte exits all the same.
fn leaves_unread<R: Runner>(alloc: Global, runner: &mut R) -> Result<bool, Fail> {
    let params = large(alloc)?;
    let reply = reply_of(alloc, runner, Kind::Program, "false", &params)?;
    Ok(matches!(reply, RunReply::Exit { code: 1, .. }))
}

#[test]
fn a_megabyte_is_written_while_output_is_read(rt: HostRuntime) -> Result<(), Fail> {
    let alloc = rt.alloc();
    let mut runner = ProgramRunner::new(&rt, programs(alloc)?);
    assert!(rt; comes_back(alloc, &mut runner)?);
    assert!(rt; leaves_unread(alloc, &mut runner)?);
    assert_eq!(rt; runner.faults(), 0);
    Ok(())
}

// Whether the logs are one line of ten megabytes.
fn is_long(logs: &Lines) -> bool {
    match logs.as_slice() {
        [line] => line.len() == 10 * MEGABYTE,
        _ => false,
    }
}

// Whether ten megabytes of standard error are read to their end.
fn reads_errors<R: Runner>(alloc: Global, runner: &mut R) -> Result<bool, Fail> {
    let params = params_of(alloc, LONG_ERRORS)?;
    match reply_of(alloc, runner, Kind::Program, "sh", &params)? {
        RunReply::Exit { code, logs } => Ok(code == -1 && is_long(&logs)),
        _ => Ok(false),
    }
}

#[test]
fn ten_megabytes_of_errors_are_read(rt: HostRuntime) -> Result<(), Fail> {
    let alloc = rt.alloc();
    let mut runner = ProgramRunner::new(&rt, programs(alloc)?);
    assert!(rt; reads_errors(alloc, &mut runner)?);
    Ok(())
}

// Whether the logs are those of a copy by `dd`, whose last line has a time.
fn are_of_copy(logs: &Lines) -> bool {
    match logs.as_slice() {
        [read, written, _] => {
            read.as_str() == "0+1 records in" && written.as_str() == "0+1 records out"
        }
        _ => false,
    }
}

// Whether the reply of a program that answers has its logs.
fn tells_copy<R: Runner>(alloc: Global, runner: &mut R) -> Result<bool, Fail> {
    let params = params_of(alloc, r#"{"a":1}"#)?;
    match reply_of(alloc, runner, Kind::Program, "dd", &params)? {
        RunReply::Answer { text, logs } => Ok(text.as_str() == r#"{"a":1}"# && are_of_copy(&logs)),
        _ => Ok(false),
    }
}

#[test]
fn an_answer_has_logs(rt: HostRuntime) -> Result<(), Fail> {
    let alloc = rt.alloc();
    let mut runner = ProgramRunner::new(&rt, programs(alloc)?);
    assert!(rt; tells_copy(alloc, &mut runner)?);
    Ok(())
}
