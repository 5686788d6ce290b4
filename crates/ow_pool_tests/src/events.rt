// Slots by what happened to them, and as texts.
use ow_entity::{Exec, PlainCode};
use ow_names::{FullName, read_name};
use ow_slots::{Key, Slot, SlotRefusal, Slots, Start, State, Work};
use ow_traits::Kind;
use std::alloc::{AllocError, Global};
use std::test::Fail;

/// What happens to slots.
#[derive(Clone, Copy, Drop)]
pub(crate) enum Event {
    /// A run of an action starts in a new container: slot, run, action, memory.
    Cold(u32, u64, char, u32),
    /// The same, in a container that ran it before.
    Warm(u32, u64, char, u32),
    /// The same, in a container that was started ahead.
    Ready(u32, u64, char, u32),
    /// A container starts ahead: slot, run, memory.
    Open(u32, u64, u32),
    Begun(u64),
    /// Answered, and the container can run again.
    Answered(u64),
    /// Answered, and the container can't run again.
    Ended(u64),
    Lost(u64),
    /// Slot and generation.
    Gone(u32, u32),
    Overran(u64),
    Removed(u32),
}

/// The answer of the slots to what happens at the moment.
pub(crate) fn happen(
    alloc: Global,
    slots: &mut Slots,
    at: u64,
    event: Event,
) -> Result<Result<Option<u64>, SlotRefusal>, Fail> {
    match event {
        Event::Cold(slot, run, action, memory) => {
            start(alloc, slots, (slot, run, at), Start::Cold, action, memory)?;
            Ok(Ok(None))
        }
        Event::Warm(slot, run, action, memory) => {
            start(alloc, slots, (slot, run, at), Start::Warm, action, memory)?;
            Ok(Ok(None))
        }
        Event::Ready(slot, run, action, memory) => {
            start(
                alloc,
                slots,
                (slot, run, at),
                Start::Prewarmed,
                action,
                memory,
            )?;
            Ok(Ok(None))
        }
        Event::Open(slot, run, memory) => {
            if !slots.fits(slot, Start::Cold) {
                return Err(Fail::from("the slot isn't vacant"));
            }
            slots.preopen(slot, run, Kind::Plain, memory);
            Ok(Ok(None))
        }
        other => told(slots, at, other),
    }
}

fn told(
    slots: &mut Slots,
    at: u64,
    event: Event,
) -> Result<Result<Option<u64>, SlotRefusal>, Fail> {
    match event {
        Event::Begun(run) => Ok(slots.begun(run, at).map(|_| None)),
        Event::Answered(run) => Ok(slots.answered(run, true, at)),
        Event::Ended(run) => Ok(slots.answered(run, false, at)),
        Event::Lost(run) => Ok(slots.lost(run)),
        Event::Gone(slot, generation) => Ok(slots.gone(slot, generation).map(|_| None)),
        Event::Overran(run) => {
            if !slots.is_unrecorded(run) {
                return Err(Fail::from("the run is recorded"));
            }
            slots.overrun(run, at);
            Ok(Ok(None))
        }
        Event::Removed(slot) => {
            if !slots.can_remove(slot) {
                return Err(Fail::from("the container is needed"));
            }
            slots.remove(slot);
            Ok(Ok(None))
        }
        _ => Err(Fail::from("a start")),
    }
}

fn start(
    alloc: Global,
    slots: &mut Slots,
    place: (u32, u64, u64),
    start: Start,
    action: char,
    memory: u32,
) -> Result<(), Fail> {
    let (slot, run, at) = place;
    if !slots.fits(slot, start) {
        return Err(Fail::from("the start doesn't fit"));
    }
    let key = key_of(alloc, "guest", action, 1, memory)?;
    slots.assign(slot, run, key, start, at);
    Ok(())
}

/// The value, in a box, which a return path drops by one call.
pub(crate) fn boxed<T: Drop>(alloc: Global, value: T) -> Result<Box<T>, Fail> {
    match Box::new(alloc, value) {
        Ok(held) => Ok(held),
        Err(_) => Err("no memory")?,
    }
}

/// The key of a version of guest's action, which the namespace runs.
pub(crate) fn key_of(
    alloc: Global,
    namespace: &str,
    action: char,
    version: u32,
    memory: u32,
) -> Result<Key, Fail> {
    let code = PlainCode::read(alloc, "{\"cases\":[]}")?;
    let namespace = read_name(alloc, namespace.as_bytes())?;
    let action = name_of(alloc, action)?;
    Ok(Key {
        namespace,
        action,
        version,
        exec: Exec::Plain { code },
        memory,
    })
}

fn name_of(alloc: Global, action: char) -> Result<FullName, Fail> {
    let mut text = String::with_capacity(alloc, 4)?;
    text.push(action)?;
    let name = read_name(alloc, text.as_bytes())?;
    let namespace = read_name(alloc, b"guest")?;
    Ok(FullName {
        namespace,
        package: None,
        name,
    })
}

/// The generation and the state, as a text.
pub(crate) fn shown(alloc: Global, slot: &Slot) -> Result<String, AllocError> {
    let generation = slot.generation;
    match &slot.state {
        State::Vacant => format!(in alloc; "{generation} vacant"),
        State::Opening { run, memory, .. } => {
            format!(in alloc; "{generation} opening {run} {memory}")
        }
        State::Prewarmed { memory, .. } => format!(in alloc; "{generation} prewarmed {memory}"),
        State::Busy(work) => shown_work(alloc, generation, work),
        State::Idle { last_used, .. } => format!(in alloc; "{generation} idle {last_used}"),
        State::Closing { memory } => format!(in alloc; "{generation} closing {memory}"),
    }
}

fn shown_work(alloc: Global, generation: u32, work: &Work) -> Result<String, AllocError> {
    let run = work.run;
    let begun = work.begun.unwrap_or(0);
    let recorded = work.recorded.unwrap_or(0);
    let gone = if work.gone { " gone" } else { "" };
    format!(in alloc; "{generation} busy {run} {begun} {recorded}{gone}")
}
