// The plain runner by a table, and the runner of a script.
use ow_invoker::{PlainContainer, PlainRunner};
use ow_traits::{Kind, RunReply, Runner, ScriptRunner, Started};
use ow_value::{Items, Lines, Params, PlainData, Str, Val, read_val};
use std::alloc::Global;
use std::test::Fail;

// The steps of a sequence: triple, then increment, then the value.
const CONDUCTOR: &str =
    r#"{"cases":[{"when":{"step":2},"give":{"params":{"value":{"$":"value"}}}},{"when":{"step":1},"give":{"action":"increment","params":{"value":{"$":"value"}},"state":{"step":2}}},{"when":{},"give":{"action":"triple","params":{"value":{"$":"value"}},"state":{"step":1}}}]}"#;

const ECHO: &str = r#"{"cases":[{"give":{"$all":true},"when":{}}]}"#;

// Code, parameters, and the text that is answered.
const ROWS: &str =
    r#"CONDUCTOR|{"value":3}|{"action":"triple","params":{"value":3},"state":{"step":1}}
CONDUCTOR|{"value":9,"step":1}|{"action":"increment","params":{"value":9},"state":{"step":2}}
CONDUCTOR|{"step":2,"value":10}|{"params":{"value":10}}
CONDUCTOR|{"step":"2"}|{"action":"triple","params":{"value":null},"state":{"step":1}}
ECHO|{}|{}
ECHO|{"b":1,"a":{"$":"b"},"c":{"$all":0}}|{"a":{"$":"b"},"b":1,"c":{"$all":0}}
{"cases":[{"when":{},"give":{"$":"a"}}]}|{"a":{"$":"a"}}|{"$":"a"}
{"cases":[{"when":{},"give":[{"$":"a"},{"x":[{"$":"b"}],"y":{"$all":0}},{"$":1},{"$":"a","z":{"$":"z"}}]}]}|{"a":{"$":"b"},"b":[1]}|[{"$":"b"},{"x":[[1]],"y":{"a":{"$":"b"},"b":[1]}},{"$":1},{"$":"a","z":null}]
{"cases":[{"when":{},"give":{"$all":{"$":"a"}}}]}|{"a":1}|{"a":1}
{"cases":[{"when":{"a":1},"give":"one"},{"when":{"a":1,"b":null},"give":"two"}]}|{"a":1,"b":null}|"one"
{"cases":[{"when":{"a":1,"b":null},"give":"two"},{"when":{"a":1},"give":"one"}]}|{"a":1}|"one"
{"cases":[{"when":{"a":{"b":[1,true]}},"give":-5}]}|{"a":{"b":[1,true]},"c":2}|-5
{"cases":[{"when":{"a":{"b":[1,true]}},"give":-5}]}|{"a":{"b":[1,false]}}|{"error":"No case fits."}
{"cases":[]}|{"a":1}|{"error":"No case fits."}
"#;

fn code_of(word: &str) -> &str {
    if word == "CONDUCTOR" {
        CONDUCTOR
    } else if word == "ECHO" {
        ECHO
    } else {
        word
    }
}

fn params_of(alloc: Global, text: &str) -> Result<Params, Fail> {
    match read_val(alloc, text.as_bytes())? {
        Val::Object(params) => Ok(params),
        _ => Err("no object")?,
    }
}

// Whether the reply is an answer with this text, and without logs.
fn is_answer(reply: &RunReply, expected: &str) -> bool {
    match reply {
        RunReply::Answer { text, logs } => text.as_str() == expected && logs.is_empty(),
        _ => false,
    }
}

// Whether the container is ready for a code that is not its last one, and answers so.
fn answers(
    alloc: Global,
    runner: &mut PlainRunner,
    container: &mut PlainContainer,
    code: &Str,
    params: &Params,
    expected: &str,
) -> Result<bool, Fail> {
    let reply = runner.run(alloc, container, Kind::Plain, code, params)?;
    Ok(is_answer(&reply, expected))
}

fn holds(
    alloc: Global,
    runner: &mut PlainRunner,
    container: &mut PlainContainer,
    row: &str,
) -> Result<bool, Fail> {
    let mut parts = row.split('|');
    let (Some(code), Some(params), Some(expected)) = (parts.next(), parts.next(), parts.next())
    else {
        return Ok(false);
    };
    let params = params_of(alloc, params)?;
    let code = Str::of(alloc, code_of(code))?;
    answers(alloc, runner, container, &code, &params, expected)
}

fn all_hold(
    alloc: Global,
    runner: &mut PlainRunner,
    container: &mut PlainContainer,
) -> Result<bool, Fail> {
    for row in ROWS.lines() {
        if !holds(alloc, runner, container, row)? {
            return Ok(false);
        }
    }
    Ok(true)
}

// Whether the container is ready for the code of an echo, and each row of the table is answered so in it.
fn is_plain(
    alloc: Global,
    runner: &mut PlainRunner,
    container: &mut PlainContainer,
) -> Result<bool, Fail> {
    let code = Str::of(alloc, ECHO)?;
    let ready = runner.init(alloc, container, Kind::Plain, &code)?.is_none();
    Ok(ready && all_hold(alloc, runner, container)?)
}

#[test]
fn the_plain_runner_answers_by_its_code(rt: HostRuntime) -> Result<(), Fail> {
    let alloc = rt.alloc();
    let mut runner = PlainRunner::new();
    let Started::Up(mut container) = runner.start(alloc, Kind::Plain, 256)? else {
        return Err("no container")?;
    };
    let plain = is_plain(alloc, &mut runner, &mut container);
    runner.stop(container);
    assert!(rt; plain?);
    assert_eq!(rt; runner.faults(), 0);
    Ok(())
}

// Whether nothing started, since no program runs here.
fn is_refused(started: &Started<PlainContainer>) -> bool {
    match started {
        Started::Down(RunReply::NoStart { text }) => text.as_str() == "no program runner",
        _ => false,
    }
}

#[test]
fn the_plain_runner_starts_no_program(rt: HostRuntime) -> Result<(), Fail> {
    let mut runner = PlainRunner::new();
    let started = runner.start(rt.alloc(), Kind::Program, 256)?;
    let refused = is_refused(&started);
    drop(started);
    assert!(rt; refused);
    Ok(())
}

// An answer, then a fault.
fn script(alloc: Global) -> Result<Items<RunReply>, Fail> {
    let mut script = Vec::with_capacity(alloc, 2)?;
    script.push(RunReply::Answer {
        text: Str::of(alloc, "{}")?,
        logs: Lines::new(),
    })?;
    script.push(RunReply::Fault)?;
    Ok(Items::from_vec(script)?)
}

// Whether a run of nothing in particular has this reply.
fn replies(
    alloc: Global,
    runner: &mut ScriptRunner,
    container: &mut u64,
    expected: &RunReply,
) -> Result<bool, Fail> {
    let code = Str::empty();
    let params = Params::new();
    let reply = runner.run(alloc, container, Kind::Program, &code, &params)?;
    Ok(reply.same(expected))
}

// Whether the runs have the replies of the script, and then faults.
fn follows_script(
    alloc: Global,
    runner: &mut ScriptRunner,
    script: &Items<RunReply>,
) -> Result<bool, Fail> {
    let mut container = 0;
    for reply in script.as_slice() {
        if !replies(alloc, runner, &mut container, reply)? {
            return Ok(false);
        }
    }
    Ok(replies(alloc, runner, &mut container, &RunReply::Fault)? && runner.faults() == 2)
}

fn is_fault(started: &Started<u64>) -> bool {
    matches!(started, Started::Down(RunReply::Fault))
}

// Whether a start fails.
fn faults(alloc: Global, runner: &mut ScriptRunner) -> Result<bool, Fail> {
    let started = runner.start(alloc, Kind::Program, 256)?;
    Ok(is_fault(&started))
}

// Whether a container is initialised.
fn is_ready(alloc: Global, runner: &mut ScriptRunner) -> Result<bool, Fail> {
    let code = Str::empty();
    let mut container = 0;
    Ok(
        runner
            .init(alloc, &mut container, Kind::Program, &code)?
            .is_none(),
    )
}

// Whether the first start fails, and the next start and an initialisation don't.
fn fails_once(alloc: Global, runner: &mut ScriptRunner) -> Result<bool, Fail> {
    let starts = (faults(alloc, runner)?, faults(alloc, runner)?);
    let ready = is_ready(alloc, runner)?;
    runner.stop(0);
    Ok(starts == (true, false) && ready && runner.faults() == 1)
}

#[test]
fn a_script_is_replied_in_order(rt: HostRuntime) -> Result<(), Fail> {
    let alloc = rt.alloc();
    let script = script(alloc)?;
    let mut runner = ScriptRunner::new(script.copy(alloc)?, Vec::new(alloc));
    assert!(rt; follows_script(alloc, &mut runner, &script)?);
    Ok(())
}

#[test]
fn the_first_start_of_a_script_fails(rt: HostRuntime) -> Result<(), Fail> {
    let alloc = rt.alloc();
    let mut runner = ScriptRunner::new(Items::new(), vec![in alloc; 0]?);
    assert!(rt; fails_once(alloc, &mut runner)?);
    Ok(())
}
