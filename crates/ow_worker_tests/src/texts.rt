// Receipts as a text.
use ow_decide::{Event, Told};
use ow_desk::{Denial, Mark, Placed, Receipts};
use ow_floor::{Answered, Container, Happened, Happening, Order, PrewarmOrder, RunOrder};
use ow_slots::Start;
use ow_traits::Keeper;
use std::alloc::Global;
use std::test::Fail;

fn start_text(start: Start) -> &'static str {
    match start {
        Start::Warm => "warm",
        Start::Prewarmed => "prewarmed",
        Start::Cold => "cold",
    }
}

fn run_text(alloc: Global, order: &RunOrder) -> Result<String, Fail> {
    let RunOrder {
        run,
        slot,
        generation,
        ..
    } = order;
    let namespace = order.id.namespace;
    let count = order.id.count;
    let start = start_text(order.start);
    Ok(format!(in alloc; "run {run} of {namespace}/{count} in {slot}:{generation} {start}")?)
}

fn prewarm_text(alloc: Global, order: PrewarmOrder) -> Result<String, Fail> {
    let PrewarmOrder {
        run,
        slot,
        generation,
        memory,
        ..
    } = order;
    Ok(format!(in alloc; "prewarm {run} in {slot}:{generation} of {memory} MB")?)
}

fn removal_text(alloc: Global, containers: &[Container]) -> Result<String, Fail> {
    let mut text = format!(in alloc; "remove")?;
    for container in containers {
        let slot = container.slot;
        let generation = container.generation;
        text.push_str(&format!(in alloc; " {slot}:{generation}")?)?;
    }
    Ok(text)
}

fn order_text(alloc: Global, order: &Order) -> Result<String, Fail> {
    match order {
        Order::Run(order) => run_text(alloc, order),
        Order::Prewarm(order) => prewarm_text(alloc, *order),
        Order::Remove(containers) => removal_text(alloc, containers.as_slice()),
        Order::Nothing(_) => Ok(format!(in alloc; "nothing")?),
    }
}

fn happened_text(alloc: Global, happened: &Happened) -> Result<String, Fail> {
    match happened.items() {
        [Happening::Recorded { id, code }] => {
            let namespace = id.namespace;
            let count = id.count;
            Ok(format!(in alloc; "recorded {namespace}/{count} {code}")?)
        }
        _ => Ok(format!(in alloc; "other ends")?),
    }
}

fn answered_text(alloc: Global, run: u64, answered: &Answered) -> Result<String, Fail> {
    match answered {
        Answered::Recorded(happened) => {
            let ends = happened_text(alloc, happened)?;
            Ok(format!(in alloc; "answered {run}, {ends}")?)
        }
        Answered::Late { run: late, at } => {
            Ok(format!(in alloc; "answered {run}, late {late} {at}")?)
        }
    }
}

// The text of an event that was accepted.
fn event_text(alloc: Global, event: &Event) -> Result<String, Fail> {
    match event {
        Event::Begun { run } => Ok(format!(in alloc; "begun {run}")?),
        Event::Lost { run } => Ok(format!(in alloc; "lost {run}")?),
        Event::Gone { slot, generation } => Ok(format!(in alloc; "gone {slot}:{generation}")?),
        _ => Ok(format!(in alloc; "other")?),
    }
}

fn told_text(alloc: Global, event: &Event, told: &Told) -> Result<String, Fail> {
    match (event, told) {
        (Event::Next, Told::Next(order)) => order_text(alloc, order),
        (Event::Answered { run, .. }, Told::Answered(answered)) => {
            answered_text(alloc, *run, answered)
        }
        (_, Told::Done) => event_text(alloc, event),
        (Event::Sweep, Told::Swept(swept)) => {
            let late = swept.late;
            Ok(format!(in alloc; "swept {late}")?)
        }
        _ => Ok(format!(in alloc; "other")?),
    }
}

fn entry_text(alloc: Global, placed: &Placed) -> Result<String, Fail> {
    let entry = &placed.entry;
    let told = told_text(alloc, &entry.event, &entry.answer)?;
    let place = placed.place;
    let at = entry.at;
    Ok(format!(in alloc; "{place} at {at}: {told}\n")?)
}

fn mark_text(alloc: Global, mark: Mark) -> Result<String, Fail> {
    match mark {
        Mark::Stored => Ok(format!(in alloc; "stored\n")?),
        Mark::Full { .. } => Ok(format!(in alloc; "full\n")?),
        Mark::Denied(Denial::Begun { run }) => Ok(format!(in alloc; "denied begun {run}\n")?),
        Mark::Denied(Denial::Answered { run }) => Ok(format!(in alloc; "denied answered {run}\n")?),
        Mark::Denied(Denial::Lost { run }) => Ok(format!(in alloc; "denied lost {run}\n")?),
        Mark::Denied(Denial::Gone { slot, generation }) => {
            Ok(format!(in alloc; "denied gone {slot}:{generation}\n")?)
        }
    }
}

/// A line for each entry, with its place and its moment; one for each mark; and how many calls of `next` weren't booked, where there is
/// any.
pub(crate) fn notes_text<P: Keeper + Drop>(
    alloc: Global,
    notes: &Receipts<P>,
) -> Result<String, Fail> {
    let mut text = String::new(alloc);
    for placed in notes.entries().as_slice() {
        text.push_str(&entry_text(alloc, placed)?)?;
    }
    for mark in notes.marks().as_slice() {
        text.push_str(&mark_text(alloc, *mark)?)?;
    }
    let quiet = notes.quiet();
    if quiet > 0 {
        text.push_str(&format!(in alloc; "quiet {quiet}\n")?)?;
    }
    Ok(text)
}
