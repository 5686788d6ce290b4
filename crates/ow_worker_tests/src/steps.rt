// Tables of steps, each with its result.
ghost use Rattle.std.specs.Prelude.{◌<◌};

use crate::worker::{Worker, word_of};
use ow_threads::Gate;
use ow_traits::Runner;
use ow_value::decimal_of;
use std::alloc::Global;
use std::process::Abort;
use std::sync::Wait;
use std::test::Fail;

// The number of a text, or 0.
fn number_of(text: &str) -> u64 {
    decimal_of(text.as_bytes()).unwrap_or(0)
}

// The number of a slot, or 0.
fn slot_of(text: &str) -> u32
    ensures { result < 512 }
{
    (number_of(text) % 512) as u32
}

fn text_of(alloc: Global, word: &str) -> Result<String, Fail> {
    Ok(format!(in alloc; "{word}")?)
}

fn number_text(alloc: Global, number: u64) -> Result<String, Fail> {
    Ok(format!(in alloc; "{number}")?)
}

// The result of a put of a container, whose slot, generation and second are given.
fn put_text<R: Runner + Drop>(
    alloc: Global,
    worker: &mut Worker<R>,
    parts: &str,
) -> Result<String, Fail> {
    let mut parts = parts.split(' ');
    let slot = slot_of(parts.next().unwrap_or(""));
    let generation = slot_of(parts.next().unwrap_or(""));
    let second = u32::try_from(number_of(parts.next().unwrap_or(""))).unwrap_or(0);
    if worker.put(alloc, slot, generation, second)? {
        text_of(alloc, "put")
    } else {
        text_of(alloc, "not put")
    }
}

fn ask_text<H: Wait, R: Runner + Drop>(
    rt: &H,
    alloc: Global,
    worker: &mut Worker<R>,
    method: &str,
    path: &str,
) -> Result<String, Fail> {
    worker.office.ask(rt, alloc, method, path)?;
    text_of(alloc, "asked")
}

// The result of a step. A word other than these is the method of a request.
fn told<H: Wait + Abort, R: Runner + Drop, G: Gate>(
    rt: &H,
    alloc: Global,
    worker: &mut Worker<R>,
    gate: &G,
    word: &str,
    rest: &str,
) -> Result<String, Fail> {
    match word {
        "turn" => {
            let turned = worker.turn(rt, alloc, gate, number_of(rest));
            text_of(alloc, word_of(rt, turned))
        }
        "reap" => {
            let count = worker.reap(rt, alloc, number_of(rest))?;
            number_text(alloc, u64::from(count))
        }
        "sweep" => text_of(alloc, worker.sweep(rt, alloc, number_of(rest))),
        "look" => number_text(alloc, worker.look(slot_of(rest))),
        "put" => put_text(alloc, worker, rest),
        _ => ask_text(rt, alloc, worker, word, rest),
    }
}

// The row with the result that its step has now.
fn row_text<H: Wait + Abort, R: Runner + Drop, G: Gate>(
    rt: &H,
    alloc: Global,
    worker: &mut Worker<R>,
    gate: &G,
    row: &str,
) -> Result<String, Fail> {
    let (step, _) = row.split_once(": ").unwrap_or((row, ""));
    let (word, rest) = step.split_once(' ').unwrap_or((step, ""));
    let told = told(rt, alloc, worker, gate, word, rest)?;
    Ok(format!(in alloc; "{step}: {told}\n")?)
}

/// The table of these steps, where each row has the result that its step has when the worker makes these steps.
pub(crate) fn played<H: Wait + Abort, R: Runner + Drop, G: Gate>(
    rt: &H,
    alloc: Global,
    worker: &mut Worker<R>,
    gate: &G,
    rows: &str,
) -> Result<String, Fail> {
    let mut text = String::new(alloc);
    for row in rows.lines() {
        text.push_str(&row_text(rt, alloc, worker, gate, row)?)?;
    }
    Ok(text)
}
