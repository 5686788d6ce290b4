// A container in hand.
ghost use Rattle.std.specs.Prelude.{IfOk};
ghost use Rattle.ow_traits.specs.Runner.{Idles, Initialises, Replies, Runs};

use ow_floor::RunOrder;
use ow_traits::{RunReply, Runner};
use ow_value::NoMemory;
use std::alloc::Global;

/// A container that can't be dropped: it is laid down, on a shelf or a board, or stopped.
pub struct Living<B: Drop> {
    /// What the runner started.
    pub container: B,
}

/// Ends the container.
pub fn stop<R: Runner>(runner: &mut R, living: Living<R::Container>)
    ensures { Idles (R.gives runner.old) (R.gives runner.new) (R.tally runner.old) (R.tally runner.new) }
{
    let Living { container } = living;
    runner.stop(container);
}

/// Makes the container ready for the order's code, or returns the reply that came instead. Out of memory, the container is still
/// in hand.
pub fn init<R: Runner>(
    alloc: Global,
    runner: &mut R,
    living: &mut Living<R::Container>,
    order: &RunOrder,
) -> Result<Option<RunReply>, NoMemory>
    ensures idles { Idles (R.gives runner.old) (R.gives runner.new) (R.tally runner.old) (R.tally runner.new) }
    ensures ready { IfOk result (Initialises (R.gives runner.old) (R.tally runner.old) (R.tally runner.new) order.now.kind order.now.code) }
{
    runner.init(alloc, &mut living.container, order.kind, &order.code)
}

/// Runs the order once in the container. Out of memory, the container is still in hand.
pub fn run<R: Runner>(
    alloc: Global,
    runner: &mut R,
    living: &mut Living<R::Container>,
    order: &RunOrder,
) -> Result<RunReply, NoMemory>
    ensures runs { Runs (R.gives runner.old) (R.gives runner.new) (R.tally runner.old) (R.tally runner.new) }
    ensures reply { IfOk result (Replies (R.gives runner.old) (R.tally runner.old) (R.tally runner.new) order.now.kind order.now.code order.now.params) }
{
    runner.run(
        alloc,
        &mut living.container,
        order.kind,
        &order.code,
        &order.params,
    )
}
