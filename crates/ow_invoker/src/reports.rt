// Reports to the hall on containers and runs, and the steps that a turn returns for them.
ghost use Rattle.std.specs.Prelude.{◌≡◌, List, IfOk};
ghost use Rattle.ow_traits.specs.Runner.{Idles};
ghost use Rattle.ow_decide.specs.declared.events.Event.TheVariants as events;
ghost use Rattle.ow_slots.specs.State.{is_warm};
ghost use Rattle.ow_invoker.specs.Parts.{Lists, Tells, both};
ghost use Rattle.ow_invoker.specs.Shelf.{without};
ghost use Rattle.ow_invoker.specs.Turns.{AreBoth, Chain, Exchange, OpensBy, steps_in};

use crate::living::stop;
use crate::shelf::Shelf;
use crate::turn::{TurnStep, TurnSteps};
use ow_floor::RunOrder;
use ow_hall::Hall;
use ow_slots::Start;
use ow_traits::{Keeper, Runner};
use ow_value::NoMemory;
use std::alloc::Global;

/// The report on one order: at most two steps.
pub(crate) type TwoSteps = (Option<TurnStep>, Option<TurnStep>);

/// The run is lost.
pub(crate) fn lose<P: Keeper + Drop>(hall: &mut Hall<P>, at: u64, run: u64) -> Option<TurnStep>
    ensures { Tells P.telling hall.old hall.new at (events.Lost run) result }
{
    match hall.lost(at, run) {
        Ok(()) => Some(TurnStep::Lost { run }),
        Err(_) => None,
    }
}

/// The container of the slot's generation is gone.
pub(crate) fn report_gone<P: Keeper + Drop>(
    hall: &mut Hall<P>,
    at: u64,
    slot: u32,
    generation: u32,
) -> Option<TurnStep>
    ensures { Tells P.telling hall.old hall.new at (events.Gone slot generation) result }
{
    match hall.gone(at, slot, generation) {
        Ok(()) => Some(TurnStep::Gone { slot, generation }),
        Err(_) => None,
    }
}

/// The run is lost, and so is its container.
pub(crate) fn give_up<P: Keeper + Drop>(
    hall: &mut Hall<P>,
    at: u64,
    run: u64,
    slot: u32,
    generation: u32,
) -> TwoSteps
    ensures { (xs : List Exchange) × (AreBoth (events.Lost run) (events.Gone slot generation) xs
        × Chain P.telling hall.old hall.new at xs × (both result ≡ steps_in xs)) }
{
    let lost = lose(hall, at, run);
    let gone = report_gone(hall, at, slot, generation);
    (lost, gone)
}

/// Stops what lies there under the slot's generation. It is gone.
pub(crate) fn clear<P: Keeper + Drop, R: Runner>(
    hall: &mut Hall<P>,
    shelf: &mut Shelf<R::Container>,
    runner: &mut R,
    at: u64,
    slot: u32,
    generation: u32,
) -> Option<TurnStep>
    ensures tells { Tells P.telling hall.old hall.new at (events.Gone slot generation) result }
    ensures shelf { shelf.new ≡ without slot generation shelf.old }
    ensures runner { Idles (R.gives runner.old) (R.gives runner.new) (R.tally runner.old) (R.tally runner.new) }
{
    if let Some(living) = shelf.take(slot, generation) {
        stop(runner, living);
    }
    report_gone(hall, at, slot, generation)
}

/// The container of a start that isn't warm is up and initialised.
pub(crate) fn begin<P: Keeper + Drop>(hall: &mut Hall<P>, at: u64, order: &RunOrder)
    ensures { (xs : List Exchange) × (OpensBy (is_warm order.now.start) order.now xs
        × Chain P.telling hall.old hall.new at xs) }
{
    if is_warm(order.start) {
        return;
    }
    let _ = hall.begun(at, order.run);
}

fn is_warm(start: Start) -> bool
    ensures { result ≡ is_warm start }
{
    matches!(start, Start::Warm)
}

/// The steps of an order as a list.
pub(crate) fn list(
    alloc: Global,
    carried: Result<TwoSteps, NoMemory>,
) -> Result<TurnSteps, NoMemory>
    ensures { Lists carried result }
{
    match carried {
        Ok((first, second)) => steps_of(alloc, first, second),
        Err(_) => Err(NoMemory),
    }
}

fn steps_of(
    alloc: Global,
    first: Option<TurnStep>,
    second: Option<TurnStep>,
) -> Result<TurnSteps, NoMemory>
    ensures { IfOk result (λ steps. steps ≡ both (first, second)) }
{
    let mut steps = Vec::with_capacity(alloc, 2)?;
    if let Some(step) = first {
        steps.push_reserved(step);
    }
    if let Some(step) = second {
        steps.push_reserved(step);
    }
    TurnSteps::from_vec(steps)
}
