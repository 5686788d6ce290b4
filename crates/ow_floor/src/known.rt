// What the types of a floor's parts guarantee of them. These functions do nothing but look.
ghost use Rattle.std.specs.Prelude.{IfSome};
ghost use Rattle.std.specs.List.{AllByRecursion};
ghost use Rattle.ow_records.specs.Known.{IsKnownUnrecorded};
ghost use Rattle.ow_records.specs.Unrecorded.{unrecorded_of};

use ow_records::{Activation, known_activation};
use ow_value::Shared;

/// Makes known what their types guarantee of the activations in these places.
pub(crate) fn known_tasks(tasks: &[Option<Shared<Activation>>])
    ensures { AllByRecursion (λ t. IfSome t (λ a. IsKnownUnrecorded (unrecorded_of a))) tasks.now }
{
    let mut rest = tasks;
    while let [task, after @ ..] = rest {
        known_task(task);
        rest = after;
    }
}

fn known_task(task: &Option<Shared<Activation>>)
    ensures { IfSome task.now (λ a. IsKnownUnrecorded (unrecorded_of a)) }
{
    match task {
        Some(task) => known_activation(task.get()),
        None => {}
    }
}
