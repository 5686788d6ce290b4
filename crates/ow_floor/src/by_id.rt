// What is open, by its ids.
ghost use Rattle.std.specs.Prelude.{◌≡◌, IfOk};
ghost use Rattle.ow_value.specs.Value.{text_cmp};
ghost use Rattle.ow_records.specs.Records.{id_numbers};
ghost use Rattle.ow_floor.specs.Ends.{IsByIds, placed};

use ow_records::{Activation, Id};
use ow_value::{NoMemory, Shared};
use std::alloc::Global;
use std::cmp::Ordering;

/// The id of an open activation, and its place.
#[derive(Clone, Copy)]
pub(crate) struct OpenPlace {
    pub(crate) id: Id,
    pub(crate) place: usize,
}

/// What is open of these, with its places, in the order of the ids.
pub(crate) fn places_by_id(
    alloc: Global,
    tasks: &[Option<Shared<Activation>>],
) -> Result<Vec<OpenPlace>, NoMemory>
    ensures { IfOk result (λ places. IsByIds tasks.now places.items) }
{
    let mut places = open_places(alloc, tasks)?;
    places.sort_by(|a, b| id_order(a.id, b.id))?;
    Ok(places)
}

// What is open of these, with its places.
fn open_places(
    alloc: Global,
    tasks: &[Option<Shared<Activation>>],
) -> Result<Vec<OpenPlace>, NoMemory>
    ensures { IfOk result (λ places. places.items ≡ placed 0 tasks.now) }
{
    let mut places = Vec::new(alloc);
    for place in 0..tasks.len() {
        if let Some(task) = &tasks[place] {
            let id = task.get().id;
            places.push(OpenPlace { id, place })?;
        }
    }
    Ok(places)
}

// By the numbers of the namespaces, and then by the counts.
fn id_order(a: Id, b: Id) -> Ordering
    ensures { result ≡ text_cmp (id_numbers a) (id_numbers b) }
{
    a.namespace.cmp(&b.namespace).then(a.count.cmp(&b.count))
}
