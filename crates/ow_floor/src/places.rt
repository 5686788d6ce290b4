// Places in lists.
ghost use Rattle.std.specs.Prelude.{◌≡◌, length, position};
ghost use Rattle.ow_floor.specs.View.{is_in, last_of, is_number, is_of, is_waiting, wait_in, waits};
ghost use Rattle.ow_floor.specs.Store.{AreGone, CellOf, SpotOf, run_in};
ghost use Rattle.ow_floor.specs.Places.{PlaceOf, has, has_id, has_open};

use crate::State;
use crate::lists::{Berth, Blocking, Spot};
use ow_records::{Activation, Id};
use ow_value::Shared;

/// The place of the first id of the namespace.
pub(crate) fn namespace_place(ids: &[Id], namespace: u64) -> Option<usize>
    ensures { PlaceOf (is_in namespace) ids.now result }
{
    namespace_position(ids, namespace)
}

fn namespace_position(ids: &[Id], namespace: u64) -> Option<usize>
    ensures { result ≡ position (is_in namespace) ids.now }
{
    ids.iter().position(|id| id.namespace == namespace)
}

/// The place of the live run of this number. The first `from` places hold no run.
pub(crate) fn run_place(runs: &[Option<Berth>], from: usize, run: u64) -> Option<usize>
    requires { AreGone from runs.now }
    ensures { CellOf run_in (is_number run) runs.now result }
{
    for i in from..runs.len() {
        if is_run(&runs[i], run) {
            return Some(i);
        }
    }
    None
}

// Whether this place holds the run of this number.
fn is_run(cell: &Option<Berth>, run: u64) -> bool
    ensures { result ≡ has run_in (is_number run) cell.now }
{
    match cell {
        Some(berth) => berth.run.number == run,
        None => false,
    }
}

/// The place of the first activation that waits. The first `from` places hold nothing.
pub(crate) fn waiting_place(
    spots: &[Spot],
    tasks: &[Option<Shared<Activation>>],
    from: usize,
) -> Option<usize>
    requires paired { length tasks.now ≡ length spots.now }
    requires gone { AreGone from tasks.now }
    ensures { SpotOf waits spots.now tasks.now result }
{
    for i in from..spots.len() {
        if waits_at(spots[i], &tasks[i]) {
            return Some(i);
        }
    }
    None
}

/// The place of the open activation of this id. The first `from` places hold nothing.
pub(crate) fn open_place(
    spots: &[Spot],
    tasks: &[Option<Shared<Activation>>],
    from: usize,
    id: Id,
) -> Option<usize>
    requires paired { length tasks.now ≡ length spots.now }
    requires gone { AreGone from tasks.now }
    ensures { SpotOf (is_of id) spots.now tasks.now result }
{
    for i in from..spots.len() {
        if is_at(&tasks[i], id) {
            return Some(i);
        }
    }
    None
}

// Whether this place holds an activation that waits.
fn waits_at(spot: Spot, task: &Option<Shared<Activation>>) -> bool
    ensures { result ≡ has_open waits spot task.now }
{
    match task {
        Some(task) => is_waiting(spot.state) && !task.get().form.is_composite(),
        None => false,
    }
}

fn is_waiting(state: State) -> bool
    ensures { result ≡ is_waiting state }
{
    match state {
        State::Waiting => true,
        State::Running(_) => false,
    }
}

// Whether this place holds the activation of this id.
fn is_at(task: &Option<Shared<Activation>>, id: Id) -> bool
    ensures { result ≡ has_id id task.now }
{
    match task {
        Some(task) => task.get().id == id,
        None => false,
    }
}

/// The moment until which the request that made this activation waits, by the newest item of its id.
pub(crate) fn until(blocking: &[Blocking], id: Id) -> Option<u64>
    ensures { result ≡ wait_in id blocking.now }
{
    for i in (0..blocking.len()).rev() {
        if blocking[i].id == id {
            return Some(blocking[i].until);
        }
    }
    None
}

/// The last count of the namespace, 0 where it has none.
pub(crate) fn last_of(ids: &[Id], namespace: u64) -> u64
    ensures { result ≡ last_of ids.now namespace }
{
    match namespace_place(ids, namespace) {
        Some(place) => ids[place].count,
        None => 0,
    }
}
