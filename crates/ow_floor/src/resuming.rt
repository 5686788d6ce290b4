// What is taken over from an earlier run, and what the next one takes over.
ghost use Rattle.std.specs.Prelude.{◌≡◌, ◌++◌, ◌∷◌, [], find, option_copied, IfOk, OnOk};
ghost use Rattle.ow_floor.specs.View.{is_of};
ghost use Rattle.ow_floor.specs.Calls.{unrecorded_by};
ghost use Rattle.ow_floor.specs.Trace.{task_by};
ghost use Rattle.ow_floor.specs.Store.{IsGood, opens};

use crate::lists::Lists;
use ow_records::{Activation, Id, ReadyRecord, Record, Records, Unrecorded};
use ow_value::NoMemory;
use std::alloc::Global;

/// These records, by the order in which they come.
pub(crate) fn records_of(alloc: Global, records: Vec<Record>) -> Result<Records, NoMemory>
    ensures { IfOk result (λ all. all.items ≡ records.items) }
{
    let mut all = Records::new(alloc);
    for ended in records {
        add(alloc, &mut all, ended)?;
    }
    Ok(all)
}

// Adds one more after the others.
fn add(alloc: Global, all: &mut Records, ended: Record) -> Result<(), NoMemory>
    ensures { OnOk result (all.new.items ≡ all.old.items ++ ended ∷ []) }
{
    let ready = ReadyRecord::new(alloc, ended)?;
    if all.reserve().is_err() {
        drop(ready);
        return Err(NoMemory);
    }
    all.add(ready);
    Ok(())
}

/// The activation of this id, where it is open.
pub(crate) fn open_task(lists: &Lists, id: Id) -> Option<&Activation>
    requires { IsGood lists.now.now }
    ensures { option_copied result ≡ task_by (find (is_of id) (opens lists.now.now.spots lists.now.now.tasks)) }
{
    let Some(place) = lists.open_place(id) else {
        return None;
    };
    match &lists.tasks()[place] {
        Some(task) => Some(task.get()),
        None => None,
    }
}

/// What is kept of the activation of this id, where it is open.
pub(crate) fn unrecorded(
    alloc: Global,
    lists: &Lists,
    id: Id,
) -> Result<Option<Unrecorded>, NoMemory>
    requires { IsGood lists.now.now }
    ensures { IfOk result (λ u. u ≡ unrecorded_by (find (is_of id) (opens lists.now.now.spots lists.now.now.tasks))) }
{
    let Some(place) = lists.open_place(id) else {
        return Ok(None);
    };
    let Some(task) = &lists.tasks()[place] else {
        return Ok(None);
    };
    Ok(Some(Unrecorded::of(alloc, task.get())?))
}
