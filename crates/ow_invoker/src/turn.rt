// A turn of a day: one order, carried out.
ghost use Rattle.ow_traits.specs.Runner.{Steady};
ghost use Rattle.ow_invoker.specs.Parts.{Carries, TellsOf};
ghost use Rattle.ow_invoker.specs.Turns.{Turns};

use crate::removal::remove;
use crate::reports::list;
use crate::run::run;
use crate::shelf::Shelf;
use crate::warming::prewarm;
use ow_floor::{Happened, Order};
use ow_hall::Hall;
use ow_traits::{Keeper, Runner};
use ow_value::{Items, NoMemory};
use std::alloc::Global;

/// One thing that a turn reports after its order.
#[derive(Drop)]
pub enum TurnStep {
    /// The run is lost: its container wasn't available.
    Lost { run: u64 },
    /// The container of the slot's generation is gone.
    Gone { slot: u32, generation: u32 },
    /// This happened.
    Happened(Happened),
    /// The store failed at the runner's reply. Nothing else is reported after the order, and the run stays live.
    StoreFault,
}

/// What a turn reports after its order, the earliest first.
pub type TurnSteps = Items<TurnStep>;

/// What a turn did.
#[derive(Drop)]
pub struct Turned {
    /// What was to be done.
    pub order: Order,
    /// What followed from it.
    pub steps: TurnSteps,
}

/// Asks the hall what to do, and carries it out at once. Afterwards the containers that live lie on the shelf, under their slot and
/// its generation. Where the store fails at the runner's reply, what was booked before stays booked. The same holds out of memory:
/// the shelf is then as what was booked left it, with the container of an answer that was to be booked.
pub fn day_turn<P: Keeper + Drop, R: Runner>(
    alloc: Global,
    hall: &mut Hall<P>,
    shelf: &mut Shelf<R::Container>,
    runner: &mut R,
    at: u64,
) -> Result<Turned, NoMemory>
    ensures turns { Turns P.telling (R.gives runner.old) (R.tally runner.old) (R.tally runner.new) hall.old hall.new at shelf.old shelf.new result }
    ensures runner { Steady (R.gives runner.old) (R.gives runner.new) (R.tally runner.old) (R.tally runner.new) }
{
    let Ok(()) = shelf.make_room() else {
        return Err(NoMemory);
    };
    match hall.next(alloc, at) {
        Ok(order) => follow(alloc, hall, shelf, runner, at, order),
        Err(_) => Err(NoMemory),
    }
}

// Carries out an order, and returns its steps.
fn follow<P: Keeper + Drop, R: Runner>(
    alloc: Global,
    hall: &mut Hall<P>,
    shelf: &mut Shelf<R::Container>,
    runner: &mut R,
    at: u64,
    order: Order,
) -> Result<Turned, NoMemory>
    ensures turns { TellsOf P.telling (R.gives runner.old) (R.tally runner.old) (R.tally runner.new) hall.old hall.new at shelf.old shelf.new order result }
    ensures runner { Steady (R.gives runner.old) (R.gives runner.new) (R.tally runner.old) (R.tally runner.new) }
{
    match carry(alloc, hall, shelf, runner, at, &order) {
        Ok(steps) => Ok(Turned { order, steps }),
        Err(_) => Err(NoMemory),
    }
}

fn carry<P: Keeper + Drop, R: Runner>(
    alloc: Global,
    hall: &mut Hall<P>,
    shelf: &mut Shelf<R::Container>,
    runner: &mut R,
    at: u64,
    order: &Order,
) -> Result<TurnSteps, NoMemory>
    ensures turns { Carries P.telling (R.gives runner.old) (R.tally runner.old) (R.tally runner.new) hall.old hall.new at shelf.old shelf.new order.now result }
    ensures runner { Steady (R.gives runner.old) (R.gives runner.new) (R.tally runner.old) (R.tally runner.new) }
{
    match order {
        Order::Run(order) => list(alloc, run(alloc, hall, shelf, runner, at, order)),
        Order::Prewarm(order) => list(alloc, prewarm(alloc, hall, shelf, runner, at, order)),
        Order::Remove(containers) => remove(alloc, hall, shelf, runner, at, containers),
        Order::Nothing(_) => Ok(TurnSteps::new()),
    }
}
