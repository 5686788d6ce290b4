// Cases: what workers do at an office, and what their receipts hold then. What was made is dropped by one call each, and not where a
// function ends, since there each of its fields is dropped.
ghost use Rattle.ow_board.specs.Board.{IsPassOf};

use crate::gates::{ActingGate, Between};
use crate::office::{Office, open_office};
use crate::steps::played;
use crate::worker::Worker;
use ow_board::Pass;
use ow_threads::{Gate, OpenGate};
use ow_traits::Runner;
use std::alloc::Global;
use std::process::Abort;
use std::sync::{Mutex, Wait};
use std::test::Fail;

/// An office over the table of these rows, which has called the built-in action `calls` times.
#[derive(Clone, Copy)]
pub(crate) struct Opening<'a> {
    pub(crate) table: &'a str,
    pub(crate) calls: u32,
}

/// A worker's steps, each with its result, and the text of its receipts after them.
#[derive(Clone, Copy)]
pub(crate) struct Part<'a> {
    pub(crate) steps: &'a str,
    pub(crate) notes: &'a str,
}

/// Checks the text of a worker's receipts.
pub(crate) fn check_notes<H: Abort, R: Runner + Drop>(
    rt: &H,
    alloc: Global,
    worker: &Worker<R>,
    notes: &str,
) -> Result<(), Fail> {
    let noted = worker.noted(alloc)?;
    assert_eq!(rt; noted.as_str(), notes);
    Ok(())
}

fn check_part<H: Wait + Abort, R: Runner + Drop, G: Gate>(
    rt: &H,
    alloc: Global,
    worker: &mut Worker<R>,
    gate: &G,
    part: Part,
) -> Result<(), Fail> {
    let steps = played(rt, alloc, worker, gate, part.steps)?;
    assert_eq!(rt; steps.as_str(), part.steps);
    check_notes(rt, alloc, worker, part.notes)
}

fn check_at<H: Wait + Abort, R: Runner + Drop>(
    rt: &H,
    alloc: Global,
    office: &Office<R::Container>,
    pass: Pass<R::Container>,
    runner: R,
    part: Part,
) -> Result<(), Fail>
    requires { IsPassOf office.now.board pass }
{
    let mut worker = Worker::of(alloc, office, pass, runner)?;
    let checked = check_part(rt, alloc, &mut worker, &OpenGate::new(), part);
    drop(worker);
    checked
}

/// Checks what a worker with this runner does.
pub(crate) fn check<H: Wait + Abort, R: Runner + Drop>(
    rt: &H,
    alloc: Global,
    opening: Opening,
    runner: R,
    part: Part,
) -> Result<(), Fail> {
    let (office, pass) = open_office(alloc, opening.table, &[], opening.calls)?;
    let checked = check_at(rt, alloc, &office, pass, runner, part);
    drop(office);
    checked
}

// The steps of the one, and then those of the other.
fn check_both<H: Wait + Abort, R: Runner + Drop>(
    rt: &H,
    alloc: Global,
    worker: &mut Worker<R>,
    gate: &ActingGate<H, R>,
    parts: (Part, Part),
) -> Result<(), Fail> {
    check_part(rt, alloc, worker, gate, parts.0)?;
    let other = &mut *gate.other.lock(rt);
    check_part(rt, alloc, other, &OpenGate::new(), parts.1)
}

fn check_gated<H: Wait + Abort, R: Runner + Drop>(
    rt: &H,
    alloc: Global,
    worker: Worker<R>,
    other: R,
    between: Option<Between>,
    parts: (Part, Part),
) -> Result<(), Fail> {
    let mut worker = worker;
    match worker.other(alloc, other) {
        Ok(other) => {
            let gate = ActingGate {
                rt,
                alloc,
                between,
                other: Mutex::new(other),
            };
            let checked = check_both(rt, alloc, &mut worker, &gate, parts);
            drop((worker, gate));
            checked
        }
        Err(fail) => {
            drop(worker);
            Err(fail)
        }
    }
}

fn check_two_at<H: Wait + Abort, R: Runner + Drop>(
    rt: &H,
    alloc: Global,
    office: &Office<R::Container>,
    pass: Pass<R::Container>,
    runners: (R, R),
    between: Option<Between>,
    parts: (Part, Part),
) -> Result<(), Fail>
    requires { IsPassOf office.now.board pass }
{
    let worker = Worker::of(alloc, office, pass, runners.0)?;
    check_gated(rt, alloc, worker, runners.1, between, parts)
}

/// Checks what a worker does, and then another one, which may act earlier, while the first waits at its gate.
pub(crate) fn check_two<H: Wait + Abort, R: Runner + Drop>(
    rt: &H,
    alloc: Global,
    opening: Opening,
    runners: (R, R),
    between: Option<Between>,
    parts: (Part, Part),
) -> Result<(), Fail> {
    let (office, pass) = open_office(alloc, opening.table, &[], opening.calls)?;
    let checked = check_two_at(rt, alloc, &office, pass, runners, between, parts);
    drop(office);
    checked
}
