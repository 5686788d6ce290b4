// Runs, and the slots that they are in.
ghost use Rattle.std.specs.Prelude.{◌≡◌, None, Some};
ghost use Rattle.ow_slots.specs.Slots.{first_with};
ghost use Rattle.ow_slots.specs.State.{recorded_of, runs};
ghost use Rattle.ow_floor.specs.View.{begun, generation_in};
ghost use Rattle.ow_floor.specs.Ends.{IsRunBegun, IsRunLost};
ghost use Rattle.ow_floor.specs.Places.{recorded_there};
ghost use Rattle.ow_floor.specs.Store.{IsGood};

use crate::ends::free_run;
use crate::kept_slots::running_position;
use crate::lists::{Berth, Lists};
use ow_records::Id;
use ow_slots::{Slots, Start, State};

/// A run that was ordered.
#[derive(Clone, Copy, Debug, PartialEq, Eq)]
pub struct Run {
    /// Its number, from 1.
    pub number: u64,
    /// The number of its slot.
    pub slot: u32,
    /// The generation of the slot, from 1.
    pub generation: u32,
    /// From which container it starts.
    pub start: Start,
    /// The moment of its order, in milliseconds.
    pub at: u64,
    /// The activation that it carries.
    pub id: Id,
    /// The moment at which it began, in milliseconds.
    pub begun: Option<u64>,
}

/// The live run of this number has begun at this moment, where there is one. Nothing is held.
pub(crate) fn begin_run(lists: &mut Lists, at: u64, run: u64)
    requires lists_fit { IsGood lists.old.now }
    requires free { lists.old.past ≡ None }
    ensures lists_fit { IsGood lists.new.now }
    ensures made { IsRunBegun at run lists.old.now lists.new.now }
    ensures held { lists.new.past ≡ None }
{
    let place = match lists.run_place(run) {
        Some(place) => place,
        None => return,
    };
    let Some(berth) = lists.runs()[place] else {
        return;
    };
    lists.put_run(place, Some(begun(at, berth)));
}

/// The live run of this number is no more, where there is one, and what it carries waits again, where it is open. Nothing is held.
pub(crate) fn lose_run(lists: &mut Lists, run: u64)
    requires lists_fit { IsGood lists.old.now }
    requires free { lists.old.past ≡ None }
    ensures lists_fit { IsGood lists.new.now }
    ensures made { IsRunLost run lists.old.now lists.new.now }
    ensures held { lists.new.past ≡ None }
{
    let place = match lists.run_place(run) {
        Some(place) => place,
        None => return,
    };
    let Some(berth) = lists.runs()[place] else {
        return;
    };
    free_run(lists, berth.run);
    lists.put_run(place, None);
}

// The run has begun at this moment.
fn begun(at: u64, berth: Berth) -> Berth
    ensures { result ≡ record { run = begun at berth.run; place = berth.place } }
{
    Berth {
        run: Run {
            begun: Some(at),
            ..berth.run
        },
        place: berth.place,
    }
}

/// The generation of the slot, 0 where it isn't there.
pub(crate) fn generation_in(slots: &Slots, slot: u32) -> u32
    ensures { result ≡ generation_in slot slots.now }
{
    match slots.get(slot) {
        Some(found) => found.generation,
        None => 0,
    }
}

/// The moment at which a sweep recorded what the run carries, if one did, by the slot that is busy with the run, where one is.
pub(crate) fn recorded_in(slots: &Slots, run: u64) -> Option<Option<u64>>
    ensures { result ≡ recorded_there (first_with (runs run) slots.now) }
{
    let all = slots.as_slice();
    match running_position(all, run) {
        Some(place) => Some(recorded(&all[place].state)),
        None => None,
    }
}

fn recorded(state: &State) -> Option<u64>
    ensures { result ≡ recorded_of state.now }
{
    match state {
        State::Busy(work) => work.recorded,
        _ => None,
    }
}
