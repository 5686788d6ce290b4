// Orders: what is done next.
ghost use Rattle.std.specs.Prelude.{◌≡◌, ◌+◌, ◌<◌, length, slice_get, None, Some, IfOk, IfSome, OnErr};
ghost use Rattle.std.specs.List.{find};
ghost use Rattle.ow_slots.specs.Slots.{IsThere};
ghost use Rattle.ow_slots.specs.State.{IsMemory, StartFits};
ghost use Rattle.ow_pool.specs.Keeping.{IsPrewarming, IsRemoval, IsRun};
ghost use Rattle.ow_pool.specs.declared.answers.Place.TheVariants as places;
ghost use Rattle.ow_floor.specs.View.{containers_of, generation_after, key_of, waits};
ghost use Rattle.ow_floor.specs.Calls.{HasWork, head_by, idle_of, place_on};
ghost use Rattle.ow_floor.specs.Ends.{IsOrdered};
ghost use Rattle.ow_floor.specs.Store.{IsGood, IsSpot, opens, show};

use crate::lists::Lists;
use crate::runs::generation_in;
use crate::{Container, Idle, Order, PrewarmOrder, Run, RunOrder};
use ow_pool::{Head, Place, Removal, Unplaced};
use ow_records::Activation;
use ow_slots::{Key, Slots, Start};
use ow_traits::Kind;
use ow_value::{Items, NoMemory, PlainData, copied3};
use std::alloc::Global;

/// Carries out what is placed for the first activation that waits, or ahead of any, and returns the order.
pub(crate) fn next_order(alloc: Global, lists: &mut Lists, at: u64) -> Result<Order, NoMemory>
    requires { IsGood lists.old.now }
    ensures lists_fit { IsGood lists.new.now }
    ensures made { IfOk result (λ order. IsOrdered at lists.old.now lists.new.now order) }
    ensures wanted { OnErr result (HasWork (show lists.old.now)) }
    ensures held { lists.new.past ≡ lists.old.past }
{
    match lists.waiting_place() {
        Some(spot) => order_head(alloc, lists, at, spot),
        None => order_ahead(alloc, lists, at),
    }
}

// What is placed for what waits at this place.
fn order_head(alloc: Global, lists: &mut Lists, at: u64, spot: usize) -> Result<Order, NoMemory>
    requires lists_fit { IsGood lists.old.now }
    requires spot { IsSpot waits lists.old.now.spots lists.old.now.tasks spot }
    ensures lists_fit { IsGood lists.new.now }
    ensures made { IfOk result (λ order. IsOrdered at lists.old.now lists.new.now order) }
    ensures held { lists.new.past ≡ lists.old.past }
{
    let head = head_at(alloc, lists, spot)?;
    match lists.place(Some(&head)) {
        Place::Run { slot, start } => order_run(alloc, lists, at, spot, head.key, slot, start),
        Place::Remove(removal) => {
            drop(head);
            order_removal(alloc, lists, at, removal)
        }
        Place::Prewarm { slot, kind, memory } => {
            drop(head);
            order_prewarm(alloc, lists, at, slot, kind, memory)
        }
        Place::Nothing(reason) => {
            drop(head);
            Ok(Order::Nothing(idle_of(reason)))
        }
    }
}

// What is placed where nothing waits.
fn order_ahead(alloc: Global, lists: &mut Lists, at: u64) -> Result<Order, NoMemory>
    requires lists_fit { IsGood lists.old.now }
    requires none { find waits (opens lists.old.now.spots lists.old.now.tasks) ≡ None }
    ensures lists_fit { IsGood lists.new.now }
    ensures made { IfOk result (λ order. IsOrdered at lists.old.now lists.new.now order) }
    ensures wanted { OnErr result (HasWork (show lists.old.now)) }
    ensures held { lists.new.past ≡ lists.old.past }
{
    match lists.place(None) {
        Place::Run { .. } => Ok(Order::Nothing(Idle::Empty)),
        Place::Remove(removal) => order_removal(alloc, lists, at, removal),
        Place::Prewarm { slot, kind, memory } => {
            order_prewarm(alloc, lists, at, slot, kind, memory)
        }
        Place::Nothing(reason) => Ok(Order::Nothing(idle_of(reason))),
    }
}

// What waits at this place runs in the slot.
fn order_run(
    alloc: Global,
    lists: &mut Lists,
    at: u64,
    spot: usize,
    key: Key,
    slot: u32,
    start: Start,
) -> Result<Order, NoMemory>
    requires lists_fit { IsGood lists.old.now }
    requires spot { IsSpot waits lists.old.now.spots lists.old.now.tasks spot }
    requires key { head_by (find waits (opens lists.old.now.spots lists.old.now.tasks)) ≡ Some (record { key = key }) }
    requires placed { place_on (show lists.old.now) ≡ places.Run slot start }
    requires fits { IsRun lists.old.now.slots key lists.old.now.pool slot start }
    ensures lists_fit { IsGood lists.new.now }
    ensures made { IfOk result (λ order. IsOrdered at lists.old.now lists.new.now order) }
    ensures held { lists.new.past ≡ lists.old.past }
{
    let Some(number) = next_number(lists) else {
        drop(key);
        return Err(NoMemory);
    };
    let Some(task) = &lists.tasks()[spot] else {
        drop(key);
        return Err(NoMemory);
    };
    let task = task.get();
    let generation = generation_after(lists.slots(), slot, start);
    let run = Run {
        number,
        slot,
        generation,
        start,
        at,
        id: task.id,
        begun: None,
    };
    let Ok(order) = RunOrder::of(alloc, run, task) else {
        drop(key);
        return Err(NoMemory);
    };
    if lists.order(alloc, spot, run, key).is_err() {
        drop(order);
        return Err(NoMemory);
    }
    Ok(Order::Run(order))
}

// A container starts ahead in the slot.
fn order_prewarm(
    alloc: Global,
    lists: &mut Lists,
    at: u64,
    slot: u32,
    kind: Kind,
    memory: u32,
) -> Result<Order, NoMemory>
    requires lists_fit { IsGood lists.old.now }
    requires placed { place_on (show lists.old.now) ≡ places.Prewarm slot kind memory }
    requires fits { IsPrewarming lists.old.now.slots lists.old.now.pool slot kind memory }
    ensures lists_fit { IsGood lists.new.now }
    ensures made { IfOk result (λ order. IsOrdered at lists.old.now lists.new.now order) }
    ensures held { lists.new.past ≡ lists.old.past }
{
    let Some(run) = next_number(lists) else {
        return Err(NoMemory);
    };
    let order = PrewarmOrder {
        run,
        slot,
        generation: generation_after(lists.slots(), slot, Start::Cold),
        kind,
        memory,
    };
    lists.prewarm(alloc, at, order)?;
    Ok(Order::Prewarm(order))
}

// Containers are removed.
fn order_removal(
    alloc: Global,
    lists: &mut Lists,
    at: u64,
    removal: Removal,
) -> Result<Order, NoMemory>
    requires lists_fit { IsGood lists.old.now }
    requires placed { place_on (show lists.old.now) ≡ places.Remove removal }
    requires fits { IsRemoval lists.old.now.slots lists.old.now.pool removal }
    ensures lists_fit { IsGood lists.new.now }
    ensures made { IfOk result (λ order. IsOrdered at lists.old.now lists.new.now order) }
    ensures held { lists.new.past ≡ lists.old.past }
{
    let containers = containers_of(alloc, lists.slots(), removal.as_slice())?;
    if lists.remove(alloc, at, removal.as_slice()).is_err() {
        drop(containers);
        return Err(NoMemory);
    }
    Ok(Order::Remove(containers))
}

// What is placed for: the activation at this place.
fn head_at(alloc: Global, lists: &Lists, spot: usize) -> Result<Head, NoMemory>
    requires lists_fit { IsGood lists.now.now }
    requires spot { IsSpot waits lists.now.now.spots lists.now.now.tasks spot }
    ensures value { IfOk result (λ head. head_by (find waits (opens lists.now.now.spots lists.now.now.tasks)) ≡ Some head) }
    ensures sized { IfOk result (λ head. IsMemory head.key.memory) }
{
    let Some(task) = &lists.tasks()[spot] else {
        return Err(NoMemory);
    };
    let key = key_of(alloc, task.get())?;
    Ok(Head { key })
}

// What a container has to have run to be warm for the activation.
fn key_of(alloc: Global, task: &Activation) -> Result<Key, NoMemory>
    ensures value { IfOk result (λ key. key ≡ key_of task.now) }
    ensures sized { IfOk result (λ key. IsMemory key.memory) }
{
    let action = task.action.get();
    let memory = action.limits.memory.get();
    let (namespace, name, exec) = copied3(alloc, &task.namespace, &action.name, &action.exec)?;
    Ok(Key {
        namespace,
        action: name,
        version: action.version,
        exec,
        memory,
    })
}

// The number of the next run, where there is one.
fn next_number(lists: &Lists) -> Option<u64>
    ensures { IfSome result (λ n. n ≡ length lists.now.now.runs + 1) }
{
    (lists.runs().len() as u64).checked_add(1)
}

// The generation of the slot once a run has started in it so.
fn generation_after(slots: &Slots, slot: u32, start: Start) -> u32
    requires { IsThere (StartFits start) (slice_get slots.now slot) }
    ensures { result ≡ generation_after slot start slots.now }
{
    let generation = generation_in(slots, slot);
    match start {
        Start::Cold => generation + 1,
        _ => generation,
    }
}

// The containers of these slots.
fn containers_of(
    alloc: Global,
    slots: &Slots,
    numbers: &[u32],
) -> Result<Items<Container>, NoMemory>
    ensures { IfOk result (λ cs. cs ≡ containers_of numbers.now slots.now) }
{
    let mut containers = Vec::new(alloc);
    for slot in numbers {
        containers.push(Container {
            slot: *slot,
            generation: generation_in(slots, *slot),
        })?;
    }
    Items::from_vec(containers)
}

fn idle_of(reason: Unplaced) -> Idle
    ensures { result ≡ idle_of reason }
{
    match reason {
        Unplaced::Empty => Idle::Empty,
        Unplaced::NoRoom => Idle::NoRoom,
    }
}
