// How the container of a run comes up.
ghost use Rattle.ow_traits.specs.Runner.{Idles};
ghost use Rattle.ow_invoker.specs.Readiness.{Initialised, UpStarts};
ghost use Rattle.ow_invoker.specs.Parts.{Readied};

use crate::living::{Living, init, stop};
use crate::shelf::Shelf;
use ow_floor::RunOrder;
use ow_slots::Start;
use ow_traits::{RunReply, Runner, Started};
use std::alloc::Global;

/// How a run came to its container. What is seen where it should lie is an `S`.
pub enum Readiness<B: Drop, S> {
    /// It is up and initialised.
    Up(Living<B>),
    /// It replied before any parameters, and may live.
    Early(Option<Living<B>>, RunReply),
    /// It isn't available. This was seen in its place.
    NotHad(S),
    /// There was no memory, and the container in hand is stopped.
    NoMemory,
}

/// Starts the container of a run, or takes it from the shelf, and initialises it where that is due.
pub(crate) fn make_ready<R: Runner>(
    alloc: Global,
    shelf: &mut Shelf<R::Container>,
    runner: &mut R,
    order: &RunOrder,
) -> Readiness<R::Container, ()>
    ensures runner { Idles (R.gives runner.old) (R.gives runner.new) (R.tally runner.old) (R.tally runner.new) }
    ensures ready { Readied (R.gives runner.old) (R.tally runner.old) (R.tally runner.new) order.now shelf.old shelf.new result }
{
    match order.start {
        Start::Cold => open(alloc, runner, order),
        Start::Prewarmed => match shelf.take(order.slot, order.generation) {
            Some(living) => initialise(alloc, runner, living, order),
            None => Readiness::NotHad(()),
        },
        Start::Warm => match shelf.take(order.slot, order.generation) {
            Some(living) => Readiness::Up(living),
            None => Readiness::NotHad(()),
        },
    }
}

/// Starts the container of a run, and initialises it. Out of memory, no container is left.
pub fn open<R: Runner, S>(
    alloc: Global,
    runner: &mut R,
    order: &RunOrder,
) -> Readiness<R::Container, S>
    ensures runner { Idles (R.gives runner.old) (R.gives runner.new) (R.tally runner.old) (R.tally runner.new) }
    ensures ready { Initialised (R.gives runner.old) (R.tally runner.old) (R.tally runner.new) order.now result }
    ensures started { UpStarts (R.gives runner.old) order.now result }
{
    match runner.start(alloc, order.kind, order.memory) {
        Ok(Started::Up(container)) => initialise(alloc, runner, Living { container }, order),
        Ok(Started::Down(reply)) => Readiness::Early(None, reply),
        Err(_) => Readiness::NoMemory,
    }
}

/// Initialises a container in hand. Out of memory, the container is stopped.
pub fn initialise<R: Runner, S>(
    alloc: Global,
    runner: &mut R,
    mut living: Living<R::Container>,
    order: &RunOrder,
) -> Readiness<R::Container, S>
    ensures runner { Idles (R.gives runner.old) (R.gives runner.new) (R.tally runner.old) (R.tally runner.new) }
    ensures ready { Initialised (R.gives runner.old) (R.tally runner.old) (R.tally runner.new) order.now result }
{
    match init(alloc, runner, &mut living, order) {
        Ok(None) => Readiness::Up(living),
        Ok(Some(reply)) => Readiness::Early(Some(living), reply),
        Err(_) => {
            stop(runner, living);
            Readiness::NoMemory
        }
    }
}
