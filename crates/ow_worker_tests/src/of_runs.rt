// Runs, and what becomes of their containers.
use crate::cases::{Opening, Part, check, check_two};
use crate::gates::{Act, Between};
use crate::office::TABLE;
use ow_invoker::PlainRunner;
use ow_threads::Stage;
use ow_traits::{RunReply, ScriptRunner};
use ow_value::{Items, Lines};
use std::alloc::Global;
use std::test::Fail;

const CALLED: Opening = Opening {
    table: TABLE,
    calls: 1,
};

// Another one sweeps when the first run has its reply. The container is taken back.
const SWEEP: Between = Between {
    stage: Stage::AfterRun(1),
    act: Act::Sweep,
    at: 60_001,
};

const LATE: Part = Part {
    steps: "turn 0: ran
look 0: 0
",
    notes: "2 at 0: run 1 of 0/1 in 0:1 cold
3 at 0: begun 1
5 at 60001: answered 1, late 1 60001
6 at 60001: gone 0:1
",
};

const SWEPT: Part = Part {
    steps: "",
    notes: "4 at 60001: swept 1\n",
};

#[test]
fn the_container_of_a_late_run_is_taken_back(rt: HostRuntime) -> Result<(), Fail> {
    let runners = (PlainRunner::new(), PlainRunner::new());
    check_two(&rt, rt.alloc(), CALLED, runners, Some(SWEEP), (LATE, SWEPT))
}

// Another container lies in the slot.
const TAKEN: Part = Part {
    steps: "put 0 7 0: put
turn 0: ran
look 0: 30
",
    notes: "2 at 0: run 1 of 0/1 in 0:1 cold
3 at 0: begun 1
4 at 0: gone 0:1
5 at 0: answered 1, recorded 0/1 0
",
};

#[test]
fn a_container_whose_slot_is_taken_is_gone(rt: HostRuntime) -> Result<(), Fail> {
    check(&rt, rt.alloc(), CALLED, PlainRunner::new(), TAKEN)
}

// A run exits, and then there is nothing to do.
const EXITS: Part = Part {
    steps: "turn 0: ran
look 0: 0
turn 0: idle
turn 0: idle
",
    notes: "2 at 0: run 1 of 0/1 in 0:1 cold
3 at 0: begun 1
4 at 0: answered 1, recorded 0/1 2
5 at 0: gone 0:1
6 at 0: nothing
quiet 1
",
};

// An exit.
fn script(alloc: Global) -> Result<Items<RunReply>, Fail> {
    let mut script = Vec::with_capacity(alloc, 1)?;
    script.push(RunReply::Exit {
        code: 3,
        logs: Lines::new(),
    })?;
    Ok(Items::from_vec(script)?)
}

#[test]
fn a_container_whose_run_exits_is_gone(rt: HostRuntime) -> Result<(), Fail> {
    let alloc = rt.alloc();
    let runner = ScriptRunner::new(script(alloc)?, Vec::new(alloc));
    check(&rt, alloc, CALLED, runner, EXITS)
}
