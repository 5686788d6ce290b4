// Places of slots that have a run.
ghost use Rattle.std.specs.Prelude.{◌≡◌, position};
ghost use Rattle.ow_slots.specs.Slots.{PlaceOf, has};
ghost use Rattle.ow_slots.specs.State.{awaits, holds, runs};

use crate::states::Slot;

// The first slot with the run, which may still begin.
#[tactic(auto, using(crate::proofs::Changes::place_of))]
pub(crate) fn awaiting(slots: &[Slot], run: u64) -> Option<usize>
    ensures { PlaceOf (has (awaits run)) slots.now result }
{
    awaiting_position(slots, run)
}

// The first slot that is busy with the run.
#[tactic(auto, using(crate::proofs::Changes::place_of))]
pub(crate) fn running(slots: &[Slot], run: u64) -> Option<usize>
    ensures { PlaceOf (has (runs run)) slots.now result }
{
    running_position(slots, run)
}

// The first slot with the run, busy or opening.
#[tactic(auto, using(crate::proofs::Changes::place_of))]
pub(crate) fn holding(slots: &[Slot], run: u64) -> Option<usize>
    ensures { PlaceOf (has (holds run)) slots.now result }
{
    holding_position(slots, run)
}

fn awaiting_position(slots: &[Slot], run: u64) -> Option<usize>
    ensures { result ≡ position (has (awaits run)) slots.now }
{
    slots.iter().position(|slot| slot.state.awaits(run))
}

fn running_position(slots: &[Slot], run: u64) -> Option<usize>
    ensures { result ≡ position (has (runs run)) slots.now }
{
    slots.iter().position(|slot| slot.state.runs(run))
}

fn holding_position(slots: &[Slot], run: u64) -> Option<usize>
    ensures { result ≡ position (has (holds run)) slots.now }
{
    slots.iter().position(|slot| slot.state.holds(run))
}
