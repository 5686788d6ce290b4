// The command `drill` over an office table and a store.
ghost use Rattle.std.specs.Prelude.{◌≡◌};
ghost use Rattle.ow_traits.specs.Prewarms.{AreWantsSized};
ghost use Rattle.ow_traits.specs.Streams.{Rose};
ghost use Rattle.ow_day.specs.Carried.{IsOpeningFault};
ghost use Rattle.ow_day.specs.Session.{machine_of};
ghost use Rattle.ow_drill.specs.Counting.{Counts, WritesLine, WritesMade};
ghost use Rattle.ow_drill.specs.Drill.{Drills, IsMade, gap, next_number};
ghost use Rattle.ow_drill.specs.Drilled.{EndsDrill, TellsDrill};

use crate::call::call;
use crate::tally::{Tally, added};
use crate::text::drill_text;
use ow_command_line::Status;
use ow_day::{Session, not_opened};
use ow_tenant::Tenants;
use ow_traits::{Keeper, Sink, write_all};
use ow_value::NoMemory;
use std::alloc::Global;

/// Opens the service over a store and an office table, makes `n` calls whose moments come from the seed, each followed by a turn where
/// it is accepted, and drains. Then one line is written, which counts them. A moment or a count that passes 64 bits is as out of memory;
/// no moment does where there are 1,000,000 calls at most. The store is handed back in each case.
pub fn run_drill<O: Sink, P: Keeper + Drop>(
    alloc: Global,
    tenants: Tenants,
    store: P,
    n: u64,
    seed: u64,
    out: &mut O,
) -> (Status, P)
    requires { AreWantsSized tenants.wants }
    ensures told { TellsDrill tenants n seed (P.telling store) (P.telling result.1) (O.taken out.old) (O.taken out.new) result.0 }
    ensures ends { EndsDrill result.0 }
    ensures write { result.0 ≡ Status.WriteFault → Rose (O.faults out.old) (O.faults out.new) }
    ensures unbegun { IsOpeningFault result.0 → out.new ≡ out.old }
{
    let mut session = match Session::new(alloc, tenants, store) {
        Ok(session) => session,
        Err(unopened) => return (not_opened(unopened.why), unopened.store),
    };
    let made = make(alloc, &mut session, n, seed);
    let status = tell(alloc, n, seed, made, out);
    (status, session.finish())
}

// Makes the calls of a drill, and drains.
fn make<P: Keeper + Drop>(
    alloc: Global,
    session: &mut Session<P>,
    n: u64,
    seed: u64,
) -> Result<Tally, NoMemory>
    ensures { Counts P.telling session.old session.new (IsMade n seed (machine_of session.old)) result }
{
    let tally = make_calls(alloc, session, n, seed)?;
    session.drain(alloc)?;
    Ok(tally)
}

// Makes the calls of a drill.
fn make_calls<P: Keeper + Drop>(
    alloc: Global,
    session: &mut Session<P>,
    n: u64,
    seed: u64,
) -> Result<Tally, NoMemory>
    ensures { Counts P.telling session.old session.new (Drills seed n (machine_of session.old)) result }
{
    let mut tally = Tally::NONE;
    let mut number = seed;
    let mut moment = 0;
    for k in 0..n {
        number = next_number(number);
        moment = added(moment, gap(number))?;
        let counted = call(alloc, session, k + 1, moment)?;
        tally = tally.plus(counted)?;
    }
    Ok(tally)
}

// The number after another.
fn next_number(x: u64) -> u64
    ensures { result ≡ next_number x }
{
    x.wrapping_mul(6_364_136_223_846_793_005)
        .wrapping_add(1_442_695_040_888_963_407)
}

// How much later a call is than the one before, in milliseconds.
fn gap(x: u64) -> u64
    ensures { result ≡ gap x }
{
    x / 8_589_934_592 % 1000
}

// Writes the line of a drill that was made, and nothing where there was no memory.
fn tell<O: Sink>(
    alloc: Global,
    n: u64,
    seed: u64,
    made: Result<Tally, NoMemory>,
    out: &mut O,
) -> Status
    ensures told { WritesMade n seed made (O.taken out.old) (O.taken out.new) result }
    ensures write { result ≡ Status.WriteFault → Rose (O.faults out.old) (O.faults out.new) }
{
    match made {
        Ok(tally) => write_line(alloc, n, seed, tally, out),
        Err(_) => Status::NoMemory,
    }
}

// Writes the line of a drill.
fn write_line<O: Sink>(alloc: Global, n: u64, seed: u64, tally: Tally, out: &mut O) -> Status
    ensures told { WritesLine n seed tally (O.taken out.old) (O.taken out.new) result }
    ensures write { result ≡ Status.WriteFault → Rose (O.faults out.old) (O.faults out.new) }
{
    let Ok(line) = drill_text(alloc, n, seed, tally) else {
        return Status::NoMemory;
    };
    match write_all(out, line.as_bytes()) {
        Ok(()) => Status::Ok,
        Err(_) => Status::WriteFault,
    }
}
