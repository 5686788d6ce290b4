// Whether what placing relies on holds.
ghost use Rattle.std.specs.Prelude.{◌≡◌, ◌↔◌, ◌<◌, ◌^◌, IsTrue, length};
ghost use Rattle.std.specs.List.{list_all};
ghost use Rattle.std.specs.Option.{option_copied};
ghost use Rattle.ow_slots.specs.State.{IsMemory};
ghost use Rattle.ow_traits.specs.Prewarms.{AreWantsSized};
ghost use Rattle.ow_pool.specs.Rules.{IsHeadSized, IsWithinPool};
ghost use Rattle.ow_pool.specs.Within.{is_memory, is_sized};

use crate::answers::Head;
use crate::rules::held;
use ow_entity::{LEAST_MEMORY, MOST_MEMORY};
use ow_slots::{Slot, Slots, State};
use ow_traits::Prewarm;

/// Whether `place` can be asked: the slots hold at most the pool, and each memory is that of some action.
pub fn can_place(slots: &Slots, head: Option<&Head>, wants: &[Prewarm], pool: u32) -> bool
    ensures { IsTrue result ↔ (IsWithinPool slots.now pool × (IsHeadSized (option_copied head.entry) × AreWantsSized wants.now)) }
{
    is_within_pool(slots.as_slice(), pool) && is_head_sized(head) && are_wants_sized(wants)
}

fn is_within_pool(slots: &[Slot], pool: u32) -> bool
    requires { length slots.now < 2 ^ 32 }
    ensures { IsTrue result ↔ IsWithinPool slots.now pool }
{
    if !are_sized(slots) {
        return false;
    }
    held(slots) <= u64::from(pool)
}

fn are_sized(slots: &[Slot]) -> bool
    ensures { result ≡ list_all (λ s. is_sized s.state) slots.now }
{
    slots.iter().all(|slot| is_sized(&slot.state))
}

fn is_sized(state: &State) -> bool
    ensures { result ≡ is_sized state.now }
{
    match state {
        State::Vacant => true,
        State::Opening { memory, .. } => is_memory(*memory),
        State::Prewarmed { memory, .. } => is_memory(*memory),
        State::Busy(work) => is_memory(work.key.memory),
        State::Idle { key, .. } => is_memory(key.memory),
        State::Closing { memory } => is_memory(*memory),
    }
}

fn is_memory(memory: u32) -> bool
    ensures { result ≡ is_memory memory }
{
    LEAST_MEMORY <= memory && memory <= MOST_MEMORY
}

#[tactic(auto, using(crate::proofs::WithinLaws::memory_told))]
fn is_head_sized(head: Option<&Head>) -> bool
    ensures { IsTrue result ↔ IsHeadSized (option_copied head.entry) }
{
    match head {
        Some(head) => is_memory_of_action(head.key.memory),
        None => true,
    }
}

#[tactic(auto, using(crate::proofs::WithinLaws::memory_told))]
fn is_memory_of_action(memory: u32) -> bool
    ensures { IsTrue result ↔ IsMemory memory }
{
    is_memory(memory)
}

#[tactic(auto, using(crate::proofs::WithinLaws::wants_told))]
fn are_wants_sized(wants: &[Prewarm]) -> bool
    ensures { IsTrue result ↔ AreWantsSized wants.now }
{
    all_wants_sized(wants)
}

fn all_wants_sized(wants: &[Prewarm]) -> bool
    ensures { result ≡ list_all (λ w. is_memory w.memory) wants.now }
{
    wants.iter().all(|want| is_memory(want.memory))
}
