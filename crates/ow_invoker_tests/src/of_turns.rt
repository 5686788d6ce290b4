// Turns over one book, by tables.
use ow_floor::{Happened, Happening, Order, RunOrder};
use ow_hall::Hall;
use ow_http::read_request;
use ow_invoker::{PlainRunner, Shelf, TurnStep, Turned, day_turn};
use ow_names::{FullName, read_name, resolve};
use ow_slots::Start;
use ow_tenant::Tenants;
use ow_traits::{MemoryKeeper, MemorySource, RunReply, Runner, ScriptRunner};
use ow_value::{Items, Lines, Params, Str};
use std::alloc::Global;
use std::fmt::Debug;
use std::test::Fail;

type Office = Hall<MemoryKeeper>;

const TABLE: &str = "namespace,1,guest,,,\nkey,k1,anna,guest,,\n";

// A run finds the container of the one before.
const WARM: &str = "call /whisk.system/utils/echo
run 1 at 0:1 cold; recorded 0
call /whisk.system/utils/echo
run 2 at 0:1 warm; recorded 0
nothing";

// One that others ran doesn't lie on the shelf.
const ELSEWHERE: &str = "call /whisk.system/utils/echo
next
answer 1
call /whisk.system/utils/echo
run 2 at 0:1 warm; lost 2
run 3 at 1:1 cold; recorded 0
nothing";

// Eight containers hold all memory, and two of them make room for one of 512 MB.
const ROOM: &str = "put
call /whisk.system/utils/echo
run 1 at 0:1 cold; recorded 0
call /whisk.system/utils/echo
call /whisk.system/utils/echo
call /whisk.system/utils/echo
call /whisk.system/utils/echo
call /whisk.system/utils/echo
call /whisk.system/utils/echo
call /whisk.system/utils/echo
call /whisk.system/utils/echo
next
next
next
next
next
next
next
next
answer 2
answer 3
answer 4
answer 5
answer 6
answer 7
answer 8
answer 9
call /guest/large
remove 0:1 1:1; gone 0:1; gone 1:1
run 10 at 0:2 cold; recorded 1
nothing";

// A container whose run exits is gone.
const EXITS: &str = "call /whisk.system/utils/echo
run 1 at 0:1 cold; recorded 2; gone 0:1
call /whisk.system/utils/echo
run 2 at 0:2 cold; recorded 0
call /whisk.system/utils/echo
run 3 at 0:2 warm; recorded 3; gone 0:2
nothing";

// A container that doesn't start is gone too.
const FAILS: &str = "call /whisk.system/utils/echo
run 1 at 0:1 cold; recorded 3; gone 0:1
nothing";

// The first start, initialisation or run fails, and the next run is in a container of its own.
const FIRST_FAILS: &str = "call /whisk.system/utils/echo
run 1 at 0:1 cold; recorded 3; gone 0:1
call /whisk.system/utils/echo
run 2 at 0:2 cold; recorded 0
nothing";

// The run in a container that answered before fails.
const SECOND_FAILS: &str = "call /whisk.system/utils/echo
run 1 at 0:1 cold; recorded 0
call /whisk.system/utils/echo
run 2 at 0:1 warm; recorded 3; gone 0:1
nothing";

// Which call of the runner fails: the start is 0, the initialisation 1, and the runs come then.
const FAILING: [(u64, &str); 4] = [
    (0, FIRST_FAILS),
    (1, FIRST_FAILS),
    (2, FIRST_FAILS),
    (3, SECOND_FAILS),
];

const PUT: &str =
    "PUT /api/v1/namespaces/guest/actions/large HTTP/1.1\r\nHost: localhost\r\nX-Whisk-Key: k1\r\nContent-Length: 75\r\n\r\n{\"exec\":{\"kind\":\"plain:1\",\"code\":\"{\\\"cases\\\":[]}\"},\"limits\":{\"memory\":512}}";

// The value, in a box, since each return path of a function drops what it holds.
fn boxed<T: Drop, E: Debug + Drop>(alloc: Global, made: Result<T, E>) -> Result<Box<T>, Fail> {
    match Box::new(alloc, made?) {
        Ok(held) => Ok(held),
        Err(_) => Err("no memory")?,
    }
}

fn office(alloc: Global) -> Result<Box<Office>, Fail> {
    let mut source = MemorySource::new(TABLE.as_bytes().to_vec(alloc)?, Vec::new(alloc));
    let tenants = Tenants::read(alloc, &mut source)?;
    let opened = Hall::start(alloc, MemoryKeeper::new(alloc), tenants, 0);
    boxed(alloc, opened.ok().ok_or("not opened"))
}

fn name_of(alloc: Global, path: &str) -> Result<Box<FullName>, Fail> {
    let guest = boxed(alloc, read_name(alloc, b"guest"))?;
    boxed(alloc, resolve(alloc, path, &guest))
}

fn call(alloc: Global, hall: &mut Office, path: &str) -> Result<(), Fail> {
    let name = name_of(alloc, path)?;
    let _ = hall.call(alloc, 3, &name, Params::new())?;
    Ok(())
}

fn put(alloc: Global, hall: &mut Office) -> Result<(), Fail> {
    let read = boxed(alloc, read_request(alloc, PUT.as_bytes()))?;
    let _ = hall.ask(alloc, 3, &read.request)?;
    Ok(())
}

// A runner of its own answers a run.
fn answer(alloc: Global, hall: &mut Office, run: u64) -> Result<(), Fail> {
    let text = Str::of(alloc, "{}")?;
    let reply = RunReply::Answer {
        text,
        logs: Lines::new(),
    };
    match hall.answered(alloc, 4, run, reply) {
        Ok(_) => Ok(()),
        Err(_) => Err("no such run")?,
    }
}

fn start_text(start: Start) -> &'static str {
    match start {
        Start::Warm => "warm",
        Start::Prewarmed => "prewarmed",
        Start::Cold => "cold",
    }
}

fn run_text(alloc: Global, order: &RunOrder) -> Result<String, Fail> {
    let RunOrder {
        run,
        slot,
        generation,
        ..
    } = order;
    let start = start_text(order.start);
    Ok(format!(in alloc; "run {run} at {slot}:{generation} {start}")?)
}

fn order_text(alloc: Global, order: &Order) -> Result<String, Fail> {
    match order {
        Order::Run(order) => run_text(alloc, order),
        Order::Prewarm(order) => {
            let run = order.run;
            Ok(format!(in alloc; "prewarm {run}")?)
        }
        Order::Remove(containers) => {
            let mut text = format!(in alloc; "remove")?;
            for container in containers.as_slice() {
                let slot = container.slot;
                let generation = container.generation;
                text.push_str(&format!(in alloc; " {slot}:{generation}")?)?;
            }
            Ok(text)
        }
        Order::Nothing(_) => Ok(format!(in alloc; "nothing")?),
    }
}

// The code that is recorded, where this is one end.
fn recorded(happened: &Happened) -> Option<u8> {
    match happened.items() {
        [Happening::Recorded { code, .. }] => Some(*code),
        _ => None,
    }
}

fn step_text(alloc: Global, step: &TurnStep) -> Result<String, Fail> {
    match step {
        TurnStep::Lost { run } => Ok(format!(in alloc; "; lost {run}")?),
        TurnStep::Gone { slot, generation } => Ok(format!(in alloc; "; gone {slot}:{generation}")?),
        TurnStep::Happened(happened) => match recorded(happened) {
            Some(code) => Ok(format!(in alloc; "; recorded {code}")?),
            None => Ok(format!(in alloc; "; other ends")?),
        },
        TurnStep::StoreFault => Ok(format!(in alloc; "; store fault")?),
    }
}

fn text_of(alloc: Global, turned: &Turned) -> Result<String, Fail> {
    let mut text = order_text(alloc, &turned.order)?;
    for step in turned.steps.as_slice() {
        text.push_str(&step_text(alloc, step)?)?;
    }
    Ok(text)
}

// Whether a turn reports this.
fn tells<R: Runner>(
    alloc: Global,
    hall: &mut Office,
    shelf: &mut Shelf<R::Container>,
    runner: &mut R,
    expected: &str,
) -> Result<bool, Fail> {
    let turned = boxed(alloc, day_turn(alloc, hall, shelf, runner, 5))?;
    let text = text_of(alloc, &turned)?;
    Ok(text.as_str() == expected)
}

// Whether a row of a table holds.
fn holds<R: Runner>(
    alloc: Global,
    hall: &mut Office,
    shelf: &mut Shelf<R::Container>,
    runner: &mut R,
    row: &str,
) -> Result<bool, Fail> {
    if let Some(path) = row.strip_prefix("call ") {
        call(alloc, hall, path)?;
        return Ok(true);
    }
    if let Some(run) = row.strip_prefix("answer ") {
        let Ok(run) = run.parse::<u64>() else {
            return Ok(false);
        };
        answer(alloc, hall, run)?;
        return Ok(true);
    }
    if row == "put" {
        put(alloc, hall)?;
        return Ok(true);
    }
    if row == "next" {
        let order = boxed(alloc, hall.next(alloc, 4))?;
        return Ok(!order.is_nothing());
    }
    tells(alloc, hall, shelf, runner, row)
}

// Whether each row holds.
fn all_hold<R: Runner>(
    alloc: Global,
    hall: &mut Office,
    shelf: &mut Shelf<R::Container>,
    runner: &mut R,
    rows: &str,
) -> Result<bool, Fail> {
    for row in rows.lines() {
        if !holds(alloc, hall, shelf, runner, row)? {
            return Ok(false);
        }
    }
    Ok(true)
}

// Whether each row holds in an office of its own.
fn table_holds<R: Runner>(alloc: Global, runner: &mut R, rows: &str) -> Result<bool, Fail> {
    let mut hall = office(alloc)?;
    let mut shelf = boxed(alloc, Shelf::new(alloc))?;
    all_hold(alloc, &mut hall, &mut shelf, runner, rows)
}

#[test]
fn turns_of_plain_code_tell_what_came_of_them(rt: HostRuntime) -> Result<(), Fail> {
    let alloc = rt.alloc();
    let mut runner = PlainRunner::new();
    assert!(rt; table_holds(alloc, &mut runner, WARM)?);
    assert!(rt; table_holds(alloc, &mut runner, ELSEWHERE)?);
    assert!(rt; table_holds(alloc, &mut runner, ROOM)?);
    Ok(())
}

// An exit, an answer, then faults.
fn script(alloc: Global) -> Result<Items<RunReply>, Fail> {
    let mut script = Vec::with_capacity(alloc, 2)?;
    script.push(RunReply::Exit {
        code: 3,
        logs: Lines::new(),
    })?;
    script.push(RunReply::Answer {
        text: Str::of(alloc, "{}")?,
        logs: Lines::new(),
    })?;
    Ok(Items::from_vec(script)?)
}

#[test]
fn a_container_whose_run_exits_or_fails_is_gone(rt: HostRuntime) -> Result<(), Fail> {
    let alloc = rt.alloc();
    let mut runner = ScriptRunner::new(script(alloc)?, Vec::new(alloc));
    assert!(rt; table_holds(alloc, &mut runner, EXITS)?);
    let mut runner = ScriptRunner::new(Items::new(), vec![in alloc; 0]?);
    assert!(rt; table_holds(alloc, &mut runner, FAILS)?);
    Ok(())
}

// Two answers.
fn answers(alloc: Global) -> Result<Items<RunReply>, Fail> {
    let mut script = Vec::with_capacity(alloc, 2)?;
    for _ in 0..2 {
        script.push(RunReply::Answer {
            text: Str::of(alloc, "{}")?,
            logs: Lines::new(),
        })?;
    }
    Ok(Items::from_vec(script)?)
}

#[test]
fn a_runner_fails_at_each_call(rt: HostRuntime) -> Result<(), Fail> {
    let alloc = rt.alloc();
    for (number, rows) in &FAILING {
        let mut runner = ScriptRunner::new(answers(alloc)?, vec![in alloc; *number]?);
        assert!(rt; table_holds(alloc, &mut runner, rows)?, "call {number}");
    }
    Ok(())
}
