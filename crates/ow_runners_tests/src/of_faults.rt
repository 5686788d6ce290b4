// The runner over a system that starts no program.
use crate::runs::{programs, reply_of};
use ow_runners::ProgramRunner;
use ow_traits::{Kind, RunReply, Runner};
use ow_value::Params;
use std::alloc::{Allocator, Global};
use std::io;
use std::process::{Child, Command, Processes, Stdio, SystemProcess};
use std::test::Fail;
use std::thread::Threads;

// What came of a run, and how many faults there were then: the number of the system's error at each start, and both.
const ROWS: [(i32, &str, u64); 5] = [
    (24, "fault", 1),
    (23, "fault", 1),
    (12, "no memory", 0),
    (2, "no start", 0),
    (11, "no start", 0),
];

// Threads, and no programs: each start fails with this number.
#[derive(Drop)]
struct Failing<R: Threads + Drop> {
    rt: R,
    code: i32,
}

impl<R: Threads + Drop> Threads for Failing<R> {}

impl<R: Threads + Drop> Processes for Failing<R> {
    type Started = SystemProcess;

    fn spawn<B: Allocator + Clone>(
        &self,
        _command: &Command<B>,
        _stdin: &Stdio,
        _stdout: &Stdio,
        _stderr: &Stdio,
    ) -> io::Result<Child<SystemProcess>> {
        Err(io::Error::from_raw_os_error(self.code))
    }
}

// What comes of a run of a program that has a row.
fn told<R: Runner>(alloc: Global, runner: &mut R) -> &'static str {
    match reply_of(alloc, runner, Kind::Program, "cat", &Params::new()) {
        Ok(RunReply::Fault) => "fault",
        Ok(RunReply::NoStart { .. }) => "no start",
        Ok(_) => "another",
        Err(_) => "no memory",
    }
}

#[test]
fn a_fault_is_counted(rt: HostRuntime) -> Result<(), Fail> {
    let alloc = rt.alloc();
    for (code, expected, faults) in ROWS {
        let failing = Failing { rt: &rt, code };
        let mut runner = ProgramRunner::new(failing, programs(alloc)?);
        assert_eq!(rt; told(alloc, &mut runner), expected);
        assert_eq!(rt; runner.faults(), faults);
    }
    Ok(())
}
