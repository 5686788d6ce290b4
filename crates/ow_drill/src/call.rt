// One call of a drill, and the turn that follows it.
ghost use Rattle.std.specs.Prelude.{◌≡◌, IfOk};
ghost use Rattle.std.specs.List.{count_by, sum_by};
ghost use Rattle.ow_day.specs.Session.{machine_of};
ghost use Rattle.ow_drill.specs.Counting.{Counts};
ghost use Rattle.ow_drill.specs.Drill.{Calls, Follows, has_happened, is_accepted, is_recorded, recorded_in, recorded_of};

use crate::tally::{Tally, added};
use crate::text::{ECHO, call_text};
use ow_day::{Session, StatementOutcome};
use ow_decide::Called;
use ow_floor::{Happened, Happening};
use ow_invoker::TurnStep;
use ow_traits::Keeper;
use ow_value::NoMemory;
use std::alloc::Global;

/// Makes the kth call at this moment, and a turn where it is accepted.
pub(crate) fn call<P: Keeper + Drop>(
    alloc: Global,
    session: &mut Session<P>,
    k: u64,
    moment: u64,
) -> Result<Tally, NoMemory>
    ensures { Counts P.telling session.old session.new (Calls k moment (machine_of session.old)) result }
{
    session.set_moment(moment);
    let text = call_text(alloc, k)?;
    let outcome = session.call(alloc, ECHO, text.as_str())?;
    let accepted = is_accepted(&outcome);
    drop(outcome);
    drop(text);
    follow(alloc, session, accepted)
}

// Makes a turn where the call before it was accepted, and counts the call.
fn follow<P: Keeper + Drop>(
    alloc: Global,
    session: &mut Session<P>,
    accepted: bool,
) -> Result<Tally, NoMemory>
    ensures { Counts P.telling session.old session.new (Follows accepted (machine_of session.old)) result }
{
    if !accepted {
        return Ok(Tally::REFUSED);
    }
    let outcome = session.turn(alloc)?;
    let recorded = recorded_of(&outcome)?;
    Ok(Tally {
        accepted: 1,
        refused: 0,
        recorded,
    })
}

// Whether a call was accepted.
fn is_accepted(outcome: &StatementOutcome) -> bool
    ensures { result ≡ is_accepted outcome.now }
{
    match outcome {
        StatementOutcome::Called(called) => happened(called),
        _ => false,
    }
}

fn happened(called: &Called) -> bool
    ensures { result ≡ has_happened called.now }
{
    match called {
        Called::Happened(_) => true,
        Called::Refused(_) => false,
    }
}

// How many activations a turn recorded.
fn recorded_of(outcome: &StatementOutcome) -> Result<u64, NoMemory>
    ensures { IfOk result (λ n. n ≡ recorded_of outcome.now) }
{
    match outcome {
        StatementOutcome::Turned(turned) => recorded_by(turned.steps.as_slice()),
        _ => Ok(0),
    }
}

fn recorded_by(steps: &[TurnStep]) -> Result<u64, NoMemory>
    ensures { IfOk result (λ n. n ≡ sum_by recorded_in steps.now) }
{
    let mut count = 0;
    for step in steps {
        count = added(count, recorded_in(step))?;
    }
    Ok(count)
}

fn recorded_in(step: &TurnStep) -> u64
    ensures { result ≡ recorded_in step.now }
{
    match step {
        TurnStep::Happened(happened) => recorded(happened),
        _ => 0,
    }
}

fn recorded(happened: &Happened) -> u64
    ensures { result ≡ count_by is_recorded happened.now }
{
    let count = happened.items().iter().filter(|h| is_recorded(**h)).count();
    count as u64
}

fn is_recorded(happening: Happening) -> bool
    ensures { result ≡ is_recorded happening }
{
    match happening {
        Happening::Accepted { .. } => false,
        Happening::Recorded { .. } => true,
    }
}
