// Where runs go.
use crate::events::{Event, boxed, happen, key_of};
use ow_pool::{Head, Place, Removal, Unplaced, can_place, place};
use ow_slots::{Slots, Start};
use ow_traits::{Kind, Prewarm};
use std::alloc::{AllocError, Global};
use std::test::Fail;

const NONE: &[Prewarm] = &[];

const ONE: &[Prewarm] = &[Prewarm {
    kind: Kind::Plain,
    memory: 256,
    count: 1,
}];

const TWO: &[Prewarm] = &[
    Prewarm {
        kind: Kind::Program,
        memory: 512,
        count: 1,
    },
    Prewarm {
        kind: Kind::Plain,
        memory: 256,
        count: 2,
    },
];

// Two idle containers of 256 MB: a's, used at 1, and b's, used at 3.
const A_AND_B: &[Event] = &[
    Event::Cold(0, 1, 'a', 256),
    Event::Answered(1),
    Event::Cold(1, 2, 'b', 256),
    Event::Answered(2),
];

// Two idle containers of a, of 256 MB, of which slot 0 is filled later.
const BOTH_OF_A: &[Event] = &[
    Event::Cold(1, 1, 'a', 256),
    Event::Answered(1),
    Event::Cold(0, 2, 'a', 256),
    Event::Answered(2),
];

// The same, used in the other order.
const USED_AGAIN: &[Event] = &[
    Event::Cold(0, 1, 'a', 256),
    Event::Answered(1),
    Event::Cold(1, 2, 'a', 256),
    Event::Answered(2),
];

const NOTHING: &[Event] = &[];

const OPENS: &[Event] = &[Event::Open(0, 1, 256)];

const REMOVED: &[Event] = &[Event::Removed(0), Event::Removed(1)];

const FIRST_GONE: &[Event] = &[Event::Gone(0, 1)];

const SECOND_GONE: &[Event] = &[Event::Gone(1, 1)];

const STARTED: &[Event] = &[Event::Cold(0, 3, 'c', 512)];

// A prewarmed container of 256 MB, and an idle one.
const READY: &[Event] = &[
    Event::Open(0, 1, 256),
    Event::Begun(1),
    Event::Cold(1, 2, 'b', 256),
    Event::Answered(2),
];

// The slots after these events, each `step` milliseconds after the one before it.
fn after(alloc: Global, count: u32, events: &[Event], step: u64) -> Result<Slots, Fail> {
    let mut slots = Slots::new(alloc, count)?;
    take(alloc, &mut slots, events, step)?;
    Ok(slots)
}

fn take(alloc: Global, slots: &mut Slots, events: &[Event], step: u64) -> Result<(), Fail> {
    let mut at: u64 = 0;
    for event in events {
        happen(alloc, slots, at, *event)?.map_err(|_| "refused")?;
        at = at.saturating_add(step);
    }
    Ok(())
}

// The answer, as a text.
fn shown(alloc: Global, place: &Place) -> Result<String, AllocError> {
    match place {
        Place::Run { slot, start } => {
            let from = match start {
                Start::Warm => "warm",
                Start::Prewarmed => "prewarmed",
                Start::Cold => "cold",
            };
            format!(in alloc; "run {slot} {from}")
        }
        Place::Remove(removal) => shown_removal(alloc, removal),
        Place::Prewarm { slot, kind, memory } => {
            let kind = match kind {
                Kind::Plain => "plain",
                Kind::Program => "program",
            };
            format!(in alloc; "prewarm {slot} {kind} {memory}")
        }
        Place::Nothing(Unplaced::Empty) => format!(in alloc; "empty"),
        Place::Nothing(Unplaced::NoRoom) => format!(in alloc; "no room"),
    }
}

fn shown_removal(alloc: Global, removal: &Removal) -> Result<String, AllocError> {
    let mut text = String::with_capacity(alloc, 16)?;
    text.push_str("remove")?;
    for slot in removal.as_slice() {
        let word = format!(in alloc; " {slot}")?;
        text.push_str(word.as_str())?;
    }
    Ok(text)
}

// The namespace, the action, its version and its memory.
type Waits = Option<(&'static str, char, u32, u32)>;

// What is done next.
fn next(
    alloc: Global,
    slots: &Slots,
    waits: Waits,
    wants: &[Prewarm],
    pool: u32,
) -> Result<String, Fail> {
    match waits {
        Some((namespace, action, version, memory)) => {
            let head = head_of(alloc, namespace, action, version, memory)?;
            answer(alloc, slots, Some(&*head), wants, pool)
        }
        None => answer(alloc, slots, None, wants, pool),
    }
}

fn answer(
    alloc: Global,
    slots: &Slots,
    head: Option<&Head>,
    wants: &[Prewarm],
    pool: u32,
) -> Result<String, Fail> {
    if !can_place(slots, head, wants, pool) {
        return Err(Fail::from("the pool is too small"));
    }
    Ok(shown(alloc, &place(slots, head, wants, pool))?)
}

// The same for three slots, after these events.
fn next_after(
    alloc: Global,
    events: &[Event],
    step: u64,
    waits: Waits,
    wants: &[Prewarm],
    pool: u32,
) -> Result<String, Fail> {
    let slots = after(alloc, 3, events, step)?;
    next(alloc, &slots, waits, wants, pool)
}

fn head_of(
    alloc: Global,
    namespace: &str,
    action: char,
    version: u32,
    memory: u32,
) -> Result<Box<Head>, Fail> {
    let key = key_of(alloc, namespace, action, version, memory)?;
    boxed(alloc, Head { key })
}

#[test]
fn where_runs_go(rt: HostRuntime) -> Result<(), Fail> {
    let alloc = rt.alloc();
    for (row, events, waits, pool, want) in [
        (1, NOTHING, ("guest", 'a', 1, 256), 256, "run 0 cold"),
        (2, NOTHING, ("guest", 'a', 1, 256), 255, "no room"),
        (3, A_AND_B, ("guest", 'b', 1, 256), 512, "run 1 warm"),
        (4, A_AND_B, ("guest", 'b', 2, 256), 768, "run 2 cold"),
        (5, A_AND_B, ("other", 'b', 1, 256), 768, "run 2 cold"),
        (6, A_AND_B, ("guest", 'b', 2, 256), 767, "remove 0"),
        (7, A_AND_B, ("guest", 'c', 1, 512), 512, "remove 0 1"),
        (8, A_AND_B, ("guest", 'c', 1, 512), 767, "remove 0 1"),
        (9, USED_AGAIN, ("guest", 'a', 1, 256), 512, "run 1 warm"),
        (13, BOTH_OF_A, ("guest", 'a', 1, 256), 512, "run 0 warm"),
        (14, BOTH_OF_A, ("guest", 'c', 1, 256), 512, "remove 1"),
        (10, READY, ("guest", 'a', 1, 256), 512, "run 0 prewarmed"),
        (11, READY, ("guest", 'a', 1, 128), 512, "remove 1"),
        (12, READY, ("guest", 'a', 1, 512), 512, "remove 1 0"),
    ] {
        let text = next_after(alloc, events, 1, Some(waits), ONE, pool)?;
        assert_eq!(rt; text.as_str(), want, "in row {row}");
    }
    Ok(())
}

// Of containers that were used at the same moment the lowest comes first.
#[test]
fn ties_go_to_the_lowest(rt: HostRuntime) -> Result<(), Fail> {
    let alloc = rt.alloc();
    for (events, action, want) in [
        (BOTH_OF_A, 'a', "run 0 warm"),
        (USED_AGAIN, 'a', "run 0 warm"),
        (BOTH_OF_A, 'c', "remove 0"),
        (USED_AGAIN, 'c', "remove 0"),
    ] {
        let waits = Some(("guest", action, 1, 256));
        let text = next_after(alloc, events, 0, waits, NONE, 512)?;
        assert_eq!(rt; text.as_str(), want);
    }
    Ok(())
}

#[test]
fn what_is_started_ahead(rt: HostRuntime) -> Result<(), Fail> {
    let alloc = rt.alloc();
    for (row, events, wants, pool, want) in [
        (1, NOTHING, NONE, 2048, "empty"),
        (2, NOTHING, ONE, 2048, "prewarm 0 plain 256"),
        (3, NOTHING, ONE, 255, "empty"),
        (4, OPENS, ONE, 2048, "empty"),
        (5, READY, ONE, 2048, "empty"),
        (6, READY, TWO, 2048, "prewarm 2 program 512"),
        (7, READY, TWO, 768, "prewarm 2 plain 256"),
        (8, READY, TWO, 512, "empty"),
    ] {
        let text = next_after(alloc, events, 1, None, wants, pool)?;
        assert_eq!(rt; text.as_str(), want, "in row {row}");
    }
    Ok(())
}

// Removed containers hold their memory until they are gone.
#[test]
fn room_is_made(rt: HostRuntime) -> Result<(), Fail> {
    let alloc = rt.alloc();
    let waits = Some(("guest", 'c', 1, 512));
    let mut slots = after(alloc, 8, A_AND_B, 1)?;
    for (events, want) in [
        (NOTHING, "remove 0 1"),
        (REMOVED, "no room"),
        (FIRST_GONE, "no room"),
        (SECOND_GONE, "run 0 cold"),
        (STARTED, "no room"),
    ] {
        take(alloc, &mut slots, events, 1)?;
        let text = next(alloc, &slots, waits, NONE, 512)?;
        assert_eq!(rt; text.as_str(), want);
    }
    Ok(())
}
