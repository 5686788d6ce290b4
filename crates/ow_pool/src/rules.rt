// The five rules by which a slot is chosen.
ghost use Rattle.std.specs.Prelude.{◌≡◌, ◌<◌, ◌&&◌, ◌||◌, nat_le, false, ◌≤◌, ◌+◌, ◌^◌, length, position, find, fold, max, sum_by, count_by};
ghost use Rattle.std.specs.List.{list_any};
ghost use Rattle.std.specs.Option.{option_copied};
ghost use Rattle.ow_slots.specs.Slots.{memory_held};
ghost use Rattle.ow_slots.specs.State.{IsMemory, can_open, state_memory};
ghost use Rattle.ow_pool.specs.Candidates.{is_closing};
ghost use Rattle.ow_pool.specs.Keeping.{IsCarriedOut};
ghost use Rattle.ow_traits.specs.Prewarms.{AreWantsSized};
ghost use Rattle.ow_pool.specs.Rules.{IsHeadSized, IsWithinPool, fresh, is_kept_for, is_ready, is_used_at, is_wanted, kept_share, last_in, last_uses, place_of, placed, prewarmed, prewarming, removal, warmest};

use crate::answers::{Head, Place, Unplaced};
use crate::four::{first_four, freeing};
use ow_slots::{Key, Slot, Slots, Start, State, same_keys_are_equal, same_kinds};
use ow_traits::{Kind, Prewarm};

/// What is to be done next, by the head that waits and by what is wanted ahead, of at most `pool` MB.
pub fn place(slots: &Slots, head: Option<&Head>, wants: &[Prewarm], pool: u32) -> Place
    requires within { IsWithinPool slots.now pool }
    requires head { IsHeadSized (option_copied head) }
    requires wants { AreWantsSized wants.now }
    ensures place { result ≡ place_of slots.now (option_copied head.entry) wants.now pool }
    ensures kept { IsCarriedOut slots.now (option_copied head.entry) pool result }
{
    same_keys_are_equal();
    choose(slots.as_slice(), head, wants, pool)
}

fn choose(slots: &[Slot], head: Option<&Head>, wants: &[Prewarm], pool: u32) -> Place
    requires within { IsWithinPool slots.now pool }
    requires bounded { length slots.now < 2 ^ 32 }
    requires head { IsHeadSized (option_copied head) }
    ensures { result ≡ place_of slots.now (option_copied head.entry) wants.now pool }
{
    match head {
        Some(head) => place_head(slots, &head.key, pool),
        None => place_wanted(slots, wants, pool),
    }
}

fn place_head(slots: &[Slot], key: &Key, pool: u32) -> Place
    requires within { IsWithinPool slots.now pool }
    requires bounded { length slots.now < 2 ^ 32 }
    requires head { IsMemory key.now.memory }
    ensures { result ≡ placed slots.now key.now pool }
{
    if let Some(slot) = warmest(key, slots) {
        return Place::Run {
            slot: slot as u32,
            start: Start::Warm,
        };
    }
    if let Some(slot) = prewarmed(key, slots) {
        return Place::Run {
            slot: slot as u32,
            start: Start::Prewarmed,
        };
    }
    if let Some(slot) = fresh(key, slots, pool) {
        return Place::Run {
            slot: slot as u32,
            start: Start::Cold,
        };
    }
    removal(slots, key.memory, pool)
}

fn place_wanted(slots: &[Slot], wants: &[Prewarm], pool: u32) -> Place
    requires within { IsWithinPool slots.now pool }
    requires bounded { length slots.now < 2 ^ 32 }
    ensures { result ≡ prewarming slots.now wants.now pool }
{
    match vacant(slots) {
        Some(slot) => match wanted(slots, held(slots), pool, wants) {
            Some(want) => Place::Prewarm {
                slot: slot as u32,
                kind: want.kind,
                memory: want.memory,
            },
            None => Place::Nothing(Unplaced::Empty),
        },
        None => Place::Nothing(Unplaced::Empty),
    }
}

// The most recently used of the idle slots with this key.
fn warmest(key: &Key, slots: &[Slot]) -> Option<usize>
    ensures { result ≡ warmest key.now slots.now }
{
    let at = last_use(key, slots);
    slots
        .iter()
        .position(|slot| is_used_at(key, at, &slot.state))
}

fn last_use(key: &Key, slots: &[Slot]) -> u64
    ensures { result ≡ fold max 0 (last_uses key.now slots.now) }
{
    slots
        .iter()
        .filter_map(|slot| last_in(key, &slot.state))
        .fold(0, |a, b| a.max(b))
}

fn last_in(key: &Key, state: &State) -> Option<u64>
    ensures { result ≡ last_in key.now state.now }
{
    match state {
        State::Idle {
            key: own,
            last_used,
        } => {
            if own.is_same(key) {
                Some(*last_used)
            } else {
                None
            }
        }
        _ => None,
    }
}

fn is_used_at(key: &Key, at: u64, state: &State) -> bool
    ensures { result ≡ is_used_at key.now at state.now }
{
    match state {
        State::Idle {
            key: own,
            last_used,
        } => own.is_same(key) && *last_used == at,
        _ => false,
    }
}

// The lowest prewarmed slot of the kind and memory.
fn prewarmed(key: &Key, slots: &[Slot]) -> Option<usize>
    ensures { result ≡ prewarmed key.now slots.now }
{
    let kind = key.kind();
    let memory = key.memory;
    slots
        .iter()
        .position(|slot| is_ready(kind, memory, &slot.state))
}

fn is_ready(kind: Kind, memory: u32, state: &State) -> bool
    ensures { result ≡ is_ready kind memory state.now }
{
    match state {
        State::Prewarmed {
            kind: own,
            memory: held,
        } => same_kinds(*own, kind) && *held == memory,
        _ => false,
    }
}

// The lowest vacant slot, where the pool has the memory.
fn fresh(key: &Key, slots: &[Slot], pool: u32) -> Option<usize>
    requires { IsWithinPool slots.now pool }
    ensures { result ≡ fresh key.now slots.now pool }
{
    if held(slots) + u64::from(key.memory) <= u64::from(pool) {
        vacant(slots)
    } else {
        None
    }
}

fn vacant(slots: &[Slot]) -> Option<usize>
    ensures { result ≡ position can_open slots.now }
{
    slots.iter().position(|slot| slot.can_open())
}

pub(crate) fn held(slots: &[Slot]) -> u64
    requires { memory_held slots.now < 2 ^ 64 }
    ensures { result ≡ memory_held slots.now }
{
    let mut sum = 0;
    for i in 0..slots.len() {
        sum += memory_of(&slots[i]);
    }
    sum
}

fn memory_of(slot: &Slot) -> u64
    ensures { result ≡ state_memory slot.now.state }
{
    u64::from(slot.state.memory())
}

// Nothing where the closing slots make room; else the containers that make room.
fn removal(slots: &[Slot], memory: u32, pool: u32) -> Place
    requires within { IsWithinPool slots.now pool }
    requires bounded { length slots.now < 2 ^ 32 }
    requires head { IsMemory memory }
    ensures { result ≡ removal slots.now memory pool }
{
    let rest = kept(slots);
    let memory = u64::from(memory);
    let pool = u64::from(pool);
    if at_once(slots, rest, memory, pool) {
        return Place::Nothing(Unplaced::NoRoom);
    }
    let four = first_four(slots);
    match freeing(&four, rest, memory, pool) {
        Some(slots) => Place::Remove(slots),
        None => Place::Nothing(Unplaced::NoRoom),
    }
}

// Whether the closing slots make room.
fn at_once(slots: &[Slot], rest: u64, memory: u64, pool: u64) -> bool
    requires { rest + memory < 2 ^ 64 }
    ensures { result ≡ (nat_le (rest + memory) pool && (list_any can_open slots.now || (list_any (λ s. is_closing s.state) slots.now || false))) }
{
    rest + memory <= pool && (some_open(slots) || some_closing(slots))
}

fn some_open(slots: &[Slot]) -> bool
    ensures { result ≡ list_any can_open slots.now }
{
    slots.iter().any(|slot| slot.can_open())
}

fn some_closing(slots: &[Slot]) -> bool
    ensures { result ≡ list_any (λ s. is_closing s.state) slots.now }
{
    slots.iter().any(|slot| is_closing(&slot.state))
}

fn is_closing(state: &State) -> bool
    ensures { result ≡ is_closing state.now }
{
    matches!(state, State::Closing { .. })
}

// What the slots hold that aren't closing.
fn kept(slots: &[Slot]) -> u64
    requires { sum_by kept_share slots.now < 2 ^ 64 }
    ensures { result ≡ sum_by kept_share slots.now }
{
    let mut sum = 0;
    for i in 0..slots.len() {
        sum += kept_share(&slots[i]);
    }
    sum
}

fn kept_share(slot: &Slot) -> u64
    ensures small { result < 2 ^ 32 }
    ensures value { result ≡ kept_share slot.now }
{
    match slot.state {
        State::Closing { .. } => 0,
        _ => u64::from(slot.state.memory()),
    }
}

// The first of what is wanted ahead of which there is too little, and the memory.
fn wanted(slots: &[Slot], held: u64, pool: u32, wants: &[Prewarm]) -> Option<Prewarm>
    requires now { held ≡ memory_held slots.now }
    requires small { held < 2 ^ 33 }
    ensures { result ≡ find (is_wanted slots.now pool) wants.now }
{
    for want in wants {
        if is_wanted(slots, held, pool, want) {
            return Some(*want);
        }
    }
    None
}

fn is_wanted(slots: &[Slot], held: u64, pool: u32, want: &Prewarm) -> bool
    requires now { held ≡ memory_held slots.now }
    requires small { held < 2 ^ 33 }
    ensures { result ≡ is_wanted slots.now pool want.now }
{
    kept_for(want.kind, want.memory, slots) < want.count as usize
        && held + u64::from(want.memory) <= u64::from(pool)
}

// How many containers of the kind and memory are ready, or being started.
fn kept_for(kind: Kind, memory: u32, slots: &[Slot]) -> usize
    ensures { result ≡ count_by (λ s. is_kept_for kind memory s.state) slots.now }
{
    slots
        .iter()
        .filter(|slot| is_kept_for(kind, memory, &slot.state))
        .count()
}

fn is_kept_for(kind: Kind, memory: u32, state: &State) -> bool
    ensures { result ≡ is_kept_for kind memory state.now }
{
    match state {
        State::Prewarmed {
            kind: own,
            memory: held,
        } => same_kinds(*own, kind) && *held == memory,
        State::Opening {
            kind: own,
            memory: held,
            ..
        } => same_kinds(*own, kind) && *held == memory,
        _ => false,
    }
}
