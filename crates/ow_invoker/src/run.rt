// A run, from its container to its end.
ghost use Rattle.std.specs.Prelude.{◌≡◌, List, None, false};
ghost use Rattle.ow_traits.specs.Runner.{Idles, Runs, Steady, is_answer};
ghost use Rattle.ow_floor.specs.declared.answers.Order.TheVariants as orders;
ghost use Rattle.ow_invoker.specs.Parts.{Books, Carries, EndsBy, LaysDown, Performs, Settles, TellsAll, in_order, listed};
ghost use Rattle.ow_invoker.specs.Turns.{Exchange, IsStarted};

use crate::living::{self, Living, stop};
use crate::readying::{Readiness, make_ready};
use crate::reports::{TwoSteps, begin, clear, give_up, lose, report_gone};
use crate::shelf::Shelf;
use crate::turn::TurnStep;
use ow_floor::{AnswerRefusal, Answered, RunOrder};
use ow_hall::Hall;
use ow_traits::{Keeper, RunReply, Runner};
use ow_value::NoMemory;
use std::alloc::Global;

/// Carries out a run, and returns its steps.
pub(crate) fn run<P: Keeper + Drop, R: Runner>(
    alloc: Global,
    hall: &mut Hall<P>,
    shelf: &mut Shelf<R::Container>,
    runner: &mut R,
    at: u64,
    order: &RunOrder,
) -> Result<TwoSteps, NoMemory>
    ensures turns { Carries P.telling (R.gives runner.old) (R.tally runner.old) (R.tally runner.new) hall.old hall.new at shelf.old shelf.new (orders.Run order.now) (in_order result) }
    ensures runner { Steady (R.gives runner.old) (R.gives runner.new) (R.tally runner.old) (R.tally runner.new) }
{
    match make_ready(alloc, shelf, runner, order) {
        Readiness::Up(living) => perform(alloc, hall, shelf, runner, at, order, living),
        Readiness::Early(held, reply) => settle(alloc, hall, shelf, runner, at, order, reply, held),
        Readiness::NotHad(()) => Ok((lose(hall, at, order.run), None)),
        Readiness::NoMemory => {
            drop(give_up(hall, at, order.run, order.slot, order.generation));
            Err(NoMemory)
        }
    }
}

// Runs the order in its container, which is up and initialised.
fn perform<P: Keeper + Drop, R: Runner>(
    alloc: Global,
    hall: &mut Hall<P>,
    shelf: &mut Shelf<R::Container>,
    runner: &mut R,
    at: u64,
    order: &RunOrder,
    mut living: Living<R::Container>,
) -> Result<TwoSteps, NoMemory>
    requires { IsStarted (R.gives runner.old) order.now }
    ensures performs { Performs P.telling (R.gives runner.old) (R.tally runner.old) (R.tally runner.new) hall.old hall.new at order.now shelf.old shelf.new result }
    ensures runner { Runs (R.gives runner.old) (R.gives runner.new) (R.tally runner.old) (R.tally runner.new) }
{
    begin(hall, at, order);
    match living::run(alloc, runner, &mut living, order) {
        Ok(reply) => settle(alloc, hall, shelf, runner, at, order, reply, Some(living)),
        Err(_) => {
            stop(runner, living);
            drop(give_up(hall, at, order.run, order.slot, order.generation));
            Err(NoMemory)
        }
    }
}

// Lays a living container down or stops it, and books the reply.
fn settle<P: Keeper + Drop, R: Runner>(
    alloc: Global,
    hall: &mut Hall<P>,
    shelf: &mut Shelf<R::Container>,
    runner: &mut R,
    at: u64,
    order: &RunOrder,
    reply: RunReply,
    held: Option<Living<R::Container>>,
) -> Result<TwoSteps, NoMemory>
    requires { held ≡ None → is_answer reply ≡ false }
    ensures settles { Settles P.telling hall.old hall.new at order.now reply shelf.old shelf.new result }
    ensures runner { Idles (R.gives runner.old) (R.gives runner.new) (R.tally runner.old) (R.tally runner.new) }
{
    match lay_down(shelf, runner, order, &reply, held) {
        Ok(()) => book(alloc, hall, shelf, runner, at, order, reply),
        Err(_) => Err(NoMemory),
    }
}

// A container that answered is laid down, and any other one is stopped.
fn lay_down<R: Runner>(
    shelf: &mut Shelf<R::Container>,
    runner: &mut R,
    order: &RunOrder,
    reply: &RunReply,
    held: Option<Living<R::Container>>,
) -> Result<(), NoMemory>
    requires { held ≡ None → is_answer reply.now ≡ false }
    ensures lays { LaysDown order.now reply.now shelf.old shelf.new result }
    ensures runner { Idles (R.gives runner.old) (R.gives runner.new) (R.tally runner.old) (R.tally runner.new) }
{
    let Some(living) = held else {
        return Ok(());
    };
    if !reply.is_answer() {
        stop(runner, living);
        return Ok(());
    }
    match shelf.lay(order.slot, order.generation, living) {
        Ok(()) => Ok(()),
        Err(living) => {
            stop(runner, living);
            Err(NoMemory)
        }
    }
}

// Books the reply, and returns what happened and what is gone.
fn book<P: Keeper + Drop, R: Runner>(
    alloc: Global,
    hall: &mut Hall<P>,
    shelf: &mut Shelf<R::Container>,
    runner: &mut R,
    at: u64,
    order: &RunOrder,
    reply: RunReply,
) -> Result<TwoSteps, NoMemory>
    ensures books { Books P.telling hall.old hall.new at order.now reply shelf.old shelf.new result }
    ensures runner { Idles (R.gives runner.old) (R.gives runner.new) (R.tally runner.old) (R.tally runner.new) }
{
    let answers = reply.is_answer();
    match hall.answered(alloc, at, order.run, reply) {
        Ok(Answered::Recorded(happened)) => {
            let gone = end(hall, shelf, runner, at, order, answers, false);
            Ok((Some(TurnStep::Happened(happened)), gone))
        }
        Ok(Answered::Late { .. }) => Ok((None, end(hall, shelf, runner, at, order, answers, true))),
        Err(AnswerRefusal::NoRun { .. }) => {
            Ok((None, end(hall, shelf, runner, at, order, answers, false)))
        }
        Err(AnswerRefusal::StoreFault(_)) => Ok((Some(TurnStep::StoreFault), None)),
        Err(AnswerRefusal::NoMemory(_)) => Err(NoMemory),
    }
}

// After a reply: a container that answered in time stays where it lies, and any other one is gone.
fn end<P: Keeper + Drop, R: Runner>(
    hall: &mut Hall<P>,
    shelf: &mut Shelf<R::Container>,
    runner: &mut R,
    at: u64,
    order: &RunOrder,
    answers: bool,
    late: bool,
) -> Option<TurnStep>
    ensures ends { (xs : List Exchange) × (EndsBy answers late order.now shelf.old xs shelf.new
        × TellsAll P.telling hall.old hall.new at xs (listed result)) }
    ensures runner { Idles (R.gives runner.old) (R.gives runner.new) (R.tally runner.old) (R.tally runner.new) }
{
    if answers {
        if late {
            return clear(hall, shelf, runner, at, order.slot, order.generation);
        }
        return None;
    }
    report_gone(hall, at, order.slot, order.generation)
}
