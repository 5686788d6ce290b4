// What happens to slots.
use crate::events::{Event, boxed, happen, key_of, shown};
use ow_slots::{Key, SlotRefusal, Slots};
use ow_value::PlainData;
use std::alloc::Global;
use std::test::Fail;

const NO_RUN_1: Result<Option<u64>, SlotRefusal> = Err(SlotRefusal::NoRun { run: 1 });

// The state of the slot, as a text.
fn shown_at(alloc: Global, slots: &Slots, slot: u32) -> Result<String, Fail> {
    match slots.get(slot) {
        Some(found) => Ok(shown(alloc, found)?),
        None => Err(Fail::from("no slot")),
    }
}

#[test]
fn what_happens_to_a_run(rt: HostRuntime) -> Result<(), Fail> {
    let alloc = rt.alloc();
    let mut slots = Slots::new(alloc, 2)?;
    for (at, event, answer, state) in [
        (1, Event::Gone(0, 0), no_slot(0, 0), "0 vacant"),
        (1, Event::Gone(7, 1), no_slot(7, 0), "0 vacant"),
        (1, Event::Begun(1), NO_RUN_1, "0 vacant"),
        (2, Event::Cold(0, 1, 'a', 256), Ok(None), "1 busy 1 0 0"),
        (3, Event::Begun(1), Ok(None), "1 busy 1 3 0"),
        (4, Event::Begun(1), NO_RUN_1, "1 busy 1 3 0"),
        (5, Event::Gone(0, 2), no_slot(0, 1), "1 busy 1 3 0"),
        (6, Event::Answered(1), Ok(None), "1 idle 6"),
        (7, Event::Answered(1), NO_RUN_1, "1 idle 6"),
        (8, Event::Warm(0, 2, 'a', 256), Ok(None), "1 busy 2 0 0"),
        (9, Event::Begun(2), no_run(2), "1 busy 2 0 0"),
        (10, Event::Overran(2), Ok(None), "1 busy 2 0 10"),
        (11, Event::Answered(2), Ok(Some(10)), "1 closing 256"),
        (12, Event::Gone(0, 1), Ok(None), "1 vacant"),
        (13, Event::Cold(0, 3, 'a', 512), Ok(None), "2 busy 3 0 0"),
        (14, Event::Gone(0, 2), Ok(None), "2 busy 3 0 0 gone"),
        (15, Event::Gone(0, 2), no_slot(0, 2), "2 busy 3 0 0 gone"),
        (16, Event::Begun(3), Ok(None), "2 busy 3 16 0 gone"),
        (17, Event::Lost(3), Ok(None), "2 vacant"),
        (18, Event::Cold(0, 4, 'a', 512), Ok(None), "3 busy 4 0 0"),
        (19, Event::Lost(4), Ok(None), "3 closing 512"),
        (20, Event::Gone(0, 3), Ok(None), "3 vacant"),
    ] {
        let (told, text) = told_at(alloc, &mut slots, at, event, 0)?;
        assert_eq!(rt; told, answer, "at {at}");
        assert_eq!(rt; text.as_str(), state, "at {at}");
    }
    Ok(())
}

#[test]
fn what_happens_to_a_prewarmed_container(rt: HostRuntime) -> Result<(), Fail> {
    let alloc = rt.alloc();
    let mut slots = Slots::new(alloc, 2)?;
    for (at, event, answer, state) in [
        (1, Event::Open(1, 4, 128), Ok(None), "1 opening 4 128"),
        (2, Event::Gone(1, 1), no_slot(1, 1), "1 opening 4 128"),
        (3, Event::Answered(4), no_run(4), "1 opening 4 128"),
        (4, Event::Begun(4), Ok(None), "1 prewarmed 128"),
        (5, Event::Lost(4), no_run(4), "1 prewarmed 128"),
        (6, Event::Ready(1, 5, 'b', 128), Ok(None), "1 busy 5 0 0"),
        (7, Event::Begun(5), Ok(None), "1 busy 5 7 0"),
        (8, Event::Ended(5), Ok(None), "1 closing 128"),
        (9, Event::Gone(1, 1), Ok(None), "1 vacant"),
        (10, Event::Open(1, 6, 256), Ok(None), "2 opening 6 256"),
        (11, Event::Lost(6), Ok(None), "2 closing 256"),
        (12, Event::Gone(1, 2), Ok(None), "2 vacant"),
        (13, Event::Open(1, 7, 256), Ok(None), "3 opening 7 256"),
        (14, Event::Begun(7), Ok(None), "3 prewarmed 256"),
        (15, Event::Removed(1), Ok(None), "3 closing 256"),
    ] {
        let (told, text) = told_at(alloc, &mut slots, at, event, 1)?;
        assert_eq!(rt; told, answer, "at {at}");
        assert_eq!(rt; text.as_str(), state, "at {at}");
    }
    Ok(())
}

// The answer to what happens at the moment, and what a slot is then.
fn told_at(
    alloc: Global,
    slots: &mut Slots,
    at: u64,
    event: Event,
    slot: u32,
) -> Result<(Result<Option<u64>, SlotRefusal>, String), Fail> {
    let told = happen(alloc, slots, at, event)?;
    let text = shown_at(alloc, slots, slot)?;
    Ok((told, text))
}

fn no_slot(slot: u32, generation: u32) -> Result<Option<u64>, SlotRefusal> {
    Err(SlotRefusal::NoSlot { slot, generation })
}

fn no_run(run: u64) -> Result<Option<u64>, SlotRefusal> {
    Err(SlotRefusal::NoRun { run })
}

// Whether a slot that is restored is as it was.
fn is_restored(alloc: Global) -> Result<bool, Fail> {
    let mut slots = Slots::new(alloc, 2)?;
    happen(alloc, &mut slots, 5, Event::Cold(0, 1, 'a', 256))?.map_err(|_| "refused")?;
    happen(alloc, &mut slots, 6, Event::Answered(1))?.map_err(|_| "refused")?;
    restore_copy(alloc, &mut slots)?;
    Ok(shown_at(alloc, &slots, 1)?.as_str() == "1 idle 6")
}

// Puts a copy of slot 0 into slot 1.
fn restore_copy(alloc: Global, slots: &mut Slots) -> Result<(), Fail> {
    if slots.as_slice().len() < 2 {
        return Err(Fail::from("no slot"));
    }
    let Some(slot) = slots.get(0) else {
        return Err(Fail::from("no slot"));
    };
    let old = slot.copy(alloc)?;
    slots.restore(1, old);
    Ok(())
}

#[test]
fn a_slot_is_restored(rt: HostRuntime) -> Result<(), Fail> {
    let alloc = rt.alloc();
    assert!(rt; is_restored(alloc)?);
    Ok(())
}

#[test]
fn keys_are_told_apart(rt: HostRuntime) -> Result<(), Fail> {
    let alloc = rt.alloc();
    for (namespace, action, version, memory, same) in [
        ("guest", 'a', 1, 256, true),
        ("other", 'a', 1, 256, false),
        ("guest", 'b', 1, 256, false),
        ("guest", 'a', 2, 256, false),
        ("guest", 'a', 1, 512, false),
    ] {
        let key = boxed_key(alloc, "guest", 'a', 1, 256)?;
        let other = boxed_key(alloc, namespace, action, version, memory)?;
        assert_eq!(rt;
            key.is_same(&other),
            same,
            "at {namespace} {version} {memory}"
        );
    }
    Ok(())
}

fn boxed_key(
    alloc: Global,
    namespace: &str,
    action: char,
    version: u32,
    memory: u32,
) -> Result<Box<Key>, Fail> {
    let key = key_of(alloc, namespace, action, version, memory)?;
    boxed(alloc, key)
}
