// Programs that are started, fed and waited for.
use ow_value::NoMemory;
use std::alloc::Global;
use std::io::{ErrorKind, Write};
use std::process::{Child, ChildStdin, Command, Output, Processes, Stdio, SystemProcess};
use std::thread::Threads;
use std::{io, thread};

// The system's number of an error: this process has no descriptor left, and so no pipe.
const NO_DESCRIPTOR: i32 = 24;

// The same of the whole system.
const NO_FILE: i32 = 23;

/// What came of a program.
#[derive(Drop)]
pub(crate) enum ProgramEnd {
    /// It ended.
    Ended(Output),
    /// It did not start.
    Unstarted,
    /// A pipe to it failed, or there was no thread to feed it. It doesn't run any more.
    Failed,
}

/// Starts the program at the path, without arguments, writes the input to its standard input and closes that, and waits for its end.
/// A path without a slash is looked for in the directories of `PATH`. All that it writes is held in memory. It may leave input
/// unread.
pub(crate) fn run_program<R: Processes<Started = SystemProcess> + Threads>(
    rt: &R,
    alloc: Global,
    path: &str,
    input: Vec<u8>,
) -> Result<ProgramEnd, NoMemory> {
    match start(rt, alloc, path) {
        Ok(child) => follow(rt, alloc, child, input),
        Err(error) => unstarted(error),
    }
}

// All three streams are pipes.
fn start<R: Processes<Started = SystemProcess>>(
    rt: &R,
    alloc: Global,
    path: &str,
) -> io::Result<Child> {
    let mut command = Command::new(alloc, path)?;
    command.stdin(Stdio::piped());
    command.stdout(Stdio::piped());
    command.stderr(Stdio::piped());
    command.spawn(rt)
}

fn unstarted(error: io::Error) -> Result<ProgramEnd, NoMemory> {
    if error.kind() == ErrorKind::OutOfMemory {
        return Err(NoMemory);
    }
    if lacks_pipe(error) {
        Ok(ProgramEnd::Failed)
    } else {
        Ok(ProgramEnd::Unstarted)
    }
}

// Whether there was no room for a pipe.
fn lacks_pipe(error: io::Error) -> bool {
    match error.raw_os_error() {
        Some(code) => code == NO_DESCRIPTOR || code == NO_FILE,
        None => false,
    }
}

// A thread feeds the program while this one reads both of its pipes: it may write much before it reads.
fn follow<R: Threads>(
    rt: &R,
    alloc: Global,
    mut child: Child,
    input: Vec<u8>,
) -> Result<ProgramEnd, NoMemory> {
    let Some(stdin) = child.stdin.take() else {
        end(child);
        return Ok(ProgramEnd::Failed);
    };
    let Ok(feeder) = thread::spawn(rt, move || feed(stdin, input)) else {
        end(child);
        return Ok(ProgramEnd::Failed);
    };
    let output = child.wait_with_output(alloc);
    feeder.join(rt);
    ended(output)
}

// Writes the input and closes it. That the program doesn't read it is no fault.
fn feed(mut stdin: ChildStdin, input: Vec<u8>) {
    let _ = stdin.write_all(&input);
}

// Kills the program and waits for its end.
fn end(mut child: Child) {
    let _ = child.kill();
    let _ = child.wait();
}

// Where its output can't be read the program was killed and waited for.
fn ended(output: io::Result<Output>) -> Result<ProgramEnd, NoMemory> {
    match output {
        Ok(output) => Ok(ProgramEnd::Ended(output)),
        Err(error) if error.kind() == ErrorKind::OutOfMemory => Err(NoMemory),
        Err(_) => Ok(ProgramEnd::Failed),
    }
}
