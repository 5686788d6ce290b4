// What is reaped, and when.
use crate::cases::{Opening, Part, check, check_two};
use crate::gates::{Act, Between};
use crate::office::TABLE;
use ow_invoker::PlainRunner;
use ow_threads::Stage;
use std::test::Fail;

const LEFT: Part = Part {
    steps: "turn 0: ran\n",
    notes: "2 at 0: run 1 of 0/1 in 0:1 cold
3 at 0: begun 1
4 at 0: answered 1, recorded 0/1 0
",
};

// What was left at second 0, and is idle.
const OLD: Part = Part {
    steps: "look 0: 6
reap 599999: 0
look 0: 6
reap 600000: 1
look 0: 0
",
    notes: "5 at 600000: gone 0:1\n",
};

#[test]
fn a_container_is_reaped_after_600_seconds(rt: HostRuntime) -> Result<(), Fail> {
    let opening = Opening {
        table: TABLE,
        calls: 1,
    };
    let runners = (PlainRunner::new(), PlainRunner::new());
    check_two(&rt, rt.alloc(), opening, runners, None, (LEFT, OLD))
}

// What is prewarmed stays.
const PREWARMED: Part = Part {
    steps: "put 0 1 4294967295: put
look 0: 18446744069414584326
reap 253402300799999: 0
look 0: 18446744069414584326
",
    notes: "",
};

#[test]
fn a_prewarmed_container_is_not_reaped(rt: HostRuntime) -> Result<(), Fail> {
    let opening = Opening {
        table: TABLE,
        calls: 0,
    };
    check(&rt, rt.alloc(), opening, PlainRunner::new(), PREWARMED)
}

// The container of a warm run is reaped before its worker takes it.
const REAPING: Between = Between {
    stage: Stage::BeforeTake(0),
    act: Act::Reap,
    at: 600_000,
};

const LOST: Part = Part {
    steps: "turn 0: ran
turn 0: lost at 0
turn 0: ran
",
    notes: "3 at 0: run 1 of 0/1 in 0:1 cold
4 at 0: begun 1
5 at 0: answered 1, recorded 0/1 0
6 at 0: run 2 of 0/2 in 0:1 warm
8 at 600000: lost 2
9 at 600000: run 3 of 0/2 in 0:2 cold
10 at 600000: begun 3
11 at 600000: answered 3, recorded 0/2 0
",
};

const REAPED: Part = Part {
    steps: "",
    notes: "7 at 600000: gone 0:1\n",
};

#[test]
fn a_run_whose_container_is_reaped_is_lost(rt: HostRuntime) -> Result<(), Fail> {
    let opening = Opening {
        table: TABLE,
        calls: 2,
    };
    let runners = (PlainRunner::new(), PlainRunner::new());
    check_two(
        &rt,
        rt.alloc(),
        opening,
        runners,
        Some(REAPING),
        (LOST, REAPED),
    )
}
