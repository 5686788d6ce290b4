// Containers that are started ahead of any run.
ghost use Rattle.ow_traits.specs.Runner.{Idles};
ghost use Rattle.ow_floor.specs.declared.answers.Order.TheVariants as orders;
ghost use Rattle.ow_invoker.specs.Parts.{Carries, Warms, in_order};

use crate::living::{Living, stop};
use crate::reports::{TwoSteps, give_up};
use crate::shelf::Shelf;
use ow_floor::PrewarmOrder;
use ow_hall::Hall;
use ow_traits::{Keeper, Runner, Started};
use ow_value::NoMemory;
use std::alloc::Global;

/// The outcome of a prewarming.
#[derive(Clone, Copy, Debug, PartialEq, Eq)]
pub(crate) enum Warming {
    // The container is up, and laid down.
    Warmed,
    // The runner refused its start.
    Down,
    // There was no memory, and no container is held.
    Unheld,
}

/// Starts a container ahead.
pub(crate) fn prewarm<P: Keeper + Drop, R: Runner>(
    alloc: Global,
    hall: &mut Hall<P>,
    shelf: &mut Shelf<R::Container>,
    runner: &mut R,
    at: u64,
    order: &PrewarmOrder,
) -> Result<TwoSteps, NoMemory>
    ensures turns { Carries P.telling (R.gives runner.old) (R.tally runner.old) (R.tally runner.new) hall.old hall.new at shelf.old shelf.new (orders.Prewarm order.now) (in_order result) }
    ensures runner { Idles (R.gives runner.old) (R.gives runner.new) (R.tally runner.old) (R.tally runner.new) }
{
    match warm(alloc, shelf, runner, order) {
        Warming::Warmed => {
            let _ = hall.begun(at, order.run);
            Ok((None, None))
        }
        Warming::Down => Ok(give_up(hall, at, order.run, order.slot, order.generation)),
        Warming::Unheld => {
            drop(give_up(hall, at, order.run, order.slot, order.generation));
            Err(NoMemory)
        }
    }
}

fn warm<R: Runner>(
    alloc: Global,
    shelf: &mut Shelf<R::Container>,
    runner: &mut R,
    order: &PrewarmOrder,
) -> Warming
    ensures warms { Warms (R.gives runner.old) (R.tally runner.old) (R.tally runner.new) order.now shelf.old shelf.new result }
    ensures runner { Idles (R.gives runner.old) (R.gives runner.new) (R.tally runner.old) (R.tally runner.new) }
{
    match runner.start(alloc, order.kind, order.memory) {
        Ok(Started::Up(container)) => {
            match shelf.lay(order.slot, order.generation, Living { container }) {
                Ok(()) => Warming::Warmed,
                Err(living) => {
                    stop(runner, living);
                    Warming::Unheld
                }
            }
        }
        Ok(Started::Down(_)) => Warming::Down,
        Err(_) => Warming::Unheld,
    }
}
