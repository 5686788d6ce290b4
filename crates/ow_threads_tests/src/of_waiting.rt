// The clock that doesn't move, and the gate that holds nobody.
use ow_threads::{Bell, Clock, FixedClock, Gate, OpenGate, Stage};

const HOUR: u64 = 3_600_000;

// The moment after a pause for each bell, and after its ring.
fn moment_behind<C: Clock + Send + Sync>(clock: &C, ms: u64) -> u64 {
    for bell in [Bell::Work, Bell::End(1), Bell::Close] {
        clock.pause(bell, ms);
        clock.ring(bell);
    }
    clock.now()
}

// Whether each stage is passed. A gate that holds somebody never answers.
fn all_pass<G: Gate + Send + Sync>(gate: &G) -> bool {
    for stage in [
        Stage::BeforeRun(0),
        Stage::AfterRun(u64::MAX),
        Stage::BeforeTake(0),
        Stage::BeforeReap(u32::MAX),
    ] {
        gate.pass(stage);
    }
    true
}

#[test]
fn a_fixed_clock_stands_still(rt: HostRuntime) {
    for at in [0, 1_500, u64::MAX] {
        let clock = FixedClock::new(at);
        assert_eq!(rt; clock.now(), at);
        assert_eq!(rt; moment_behind(&clock, HOUR), at);
    }
}

#[test]
fn an_open_gate_holds_nobody(rt: HostRuntime) {
    assert!(rt; all_pass(&OpenGate::new()));
    assert_ne!(rt; Stage::BeforeRun(1), Stage::AfterRun(1));
    assert_ne!(rt; Stage::BeforeTake(1), Stage::BeforeTake(2));
}
