// Containers that make room for others.
ghost use Rattle.std.specs.Prelude.{◌≡◌, ◌<◌, ◌≤◌, ◌+◌, ◌++◌, vec_capacity, vec_len};
ghost use Rattle.ow_traits.specs.Runner.{Idles};
ghost use Rattle.ow_floor.specs.declared.answers.Order.TheVariants as orders;
ghost use Rattle.ow_invoker.specs.Parts.{Carries, listed};

use crate::reports::clear;
use crate::shelf::Shelf;
use crate::turn::{TurnStep, TurnSteps};
use ow_floor::Container;
use ow_hall::Hall;
use ow_traits::{Keeper, Runner};
use ow_value::{Items, NoMemory};
use std::alloc::Global;

/// Stops the containers, and reports of each that it is gone.
pub(crate) fn remove<P: Keeper + Drop, R: Runner>(
    alloc: Global,
    hall: &mut Hall<P>,
    shelf: &mut Shelf<R::Container>,
    runner: &mut R,
    at: u64,
    containers: &Items<Container>,
) -> Result<TurnSteps, NoMemory>
    ensures turns { Carries P.telling (R.gives runner.old) (R.tally runner.old) (R.tally runner.new) hall.old hall.new at shelf.old shelf.new (orders.Remove containers.now) result }
    ensures runner { Idles (R.gives runner.old) (R.gives runner.new) (R.tally runner.old) (R.tally runner.new) }
{
    let Ok(mut steps) = Vec::with_capacity(alloc, containers.len()) else {
        return Err(NoMemory);
    };
    for container in containers.as_slice() {
        let step = clear(
            hall,
            shelf,
            runner,
            at,
            container.slot,
            container.generation,
        );
        note(&mut steps, step);
    }
    TurnSteps::from_vec(steps)
}

fn note(steps: &mut Vec<TurnStep>, step: Option<TurnStep>)
    requires { vec_len steps.old < vec_capacity steps.old }
    ensures steps { steps.new.items ≡ steps.old.items ++ listed step }
    ensures bounded { vec_len steps.new ≤ vec_len steps.old + 1 }
    ensures room { vec_capacity steps.new ≡ vec_capacity steps.old }
{
    if let Some(step) = step {
        steps.push_reserved(step);
    }
}
