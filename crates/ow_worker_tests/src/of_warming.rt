// Containers that are started ahead, and containers that make room.
use crate::cases::{Opening, Part, check};
use ow_invoker::PlainRunner;
use ow_traits::ScriptRunner;
use ow_value::Items;
use std::test::Fail;

// One container of 256 MB is wanted ahead.
const AHEAD: Opening = Opening {
    table: "namespace,1,guest,,,
key,k1,anna,guest,,
prewarm,plain:1,256,1,,
",
    calls: 1,
};

const WARMED: Part = Part {
    steps: "turn 0: ran
turn 0: warmed
look 1: 18446744069414584326
PUT guest/actions/small: asked
POST guest/actions/small: asked
turn 0: ran
",
    notes: "2 at 0: run 1 of 0/1 in 0:1 cold
3 at 0: begun 1
4 at 0: answered 1, recorded 0/1 0
5 at 0: prewarm 2 in 1:1 of 256 MB
6 at 0: begun 2
9 at 0: run 3 of 1/1 in 1:1 prewarmed
10 at 0: begun 3
11 at 0: answered 3, recorded 1/1 0
",
};

#[test]
fn a_run_takes_a_container_that_was_started_ahead(rt: HostRuntime) -> Result<(), Fail> {
    check(&rt, rt.alloc(), AHEAD, PlainRunner::new(), WARMED)
}

// The slot of one is taken.
const CROWDED: Part = Part {
    steps: "put 1 7 0: put
turn 0: ran
turn 0: warmed
look 1: 30
",
    notes: "2 at 0: run 1 of 0/1 in 0:1 cold
3 at 0: begun 1
4 at 0: answered 1, recorded 0/1 0
5 at 0: prewarm 2 in 1:1 of 256 MB
6 at 0: lost 2
7 at 0: gone 1:1
",
};

#[test]
fn a_container_ahead_whose_slot_is_taken_is_gone(rt: HostRuntime) -> Result<(), Fail> {
    check(&rt, rt.alloc(), AHEAD, PlainRunner::new(), CROWDED)
}

// No container starts.
const FAILED: Part = Part {
    steps: "turn 0: ran
turn 0: warmed
look 0: 0
",
    notes: "2 at 0: run 1 of 0/1 in 0:1 cold
3 at 0: answered 1, recorded 0/1 3
4 at 0: gone 0:1
5 at 0: prewarm 2 in 0:2 of 256 MB
6 at 0: lost 2
7 at 0: gone 0:2
",
};

#[test]
fn a_container_ahead_that_does_not_start_is_gone(rt: HostRuntime) -> Result<(), Fail> {
    let runner = ScriptRunner::new(Items::new(), vec![in rt.alloc(); 0, 1]?);
    check(&rt, rt.alloc(), AHEAD, runner, FAILED)
}

// A pool of 512 MB.
const TIGHT: Opening = Opening {
    table: "namespace,1,guest,,,
key,k1,anna,guest,,
pool,512,,,,
",
    calls: 1,
};

const MADE_ROOM: Part = Part {
    steps: "PUT guest/actions/small: asked
PUT guest/actions/large: asked
POST guest/actions/small: asked
turn 0: ran
turn 1: ran
POST guest/actions/large: asked
turn 1: removed
look 0: 0
look 1: 0
turn 1: ran
turn 1: idle
turn 1: idle
",
    notes: "5 at 0: run 1 of 0/1 in 0:1 cold
6 at 0: begun 1
7 at 0: answered 1, recorded 0/1 0
8 at 1: run 2 of 1/1 in 1:1 cold
9 at 1: begun 2
10 at 1: answered 2, recorded 1/1 0
12 at 1: remove 0:1 1:1
13 at 1: gone 0:1
14 at 1: gone 1:1
15 at 1: run 3 of 1/2 in 0:2 cold
16 at 1: begun 3
17 at 1: answered 3, recorded 1/2 1
18 at 1: nothing
quiet 1
",
};

#[test]
fn containers_make_room(rt: HostRuntime) -> Result<(), Fail> {
    check(&rt, rt.alloc(), TIGHT, PlainRunner::new(), MADE_ROOM)
}
