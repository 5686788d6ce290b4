// A service over peers in memory, and its result as a text.
ghost use Rattle.std.specs.Prelude.{◌≤◌, length, IfOk};
ghost use Rattle.ow_traits.specs.Prewarms.{AreWantsSized};
ghost use Rattle.ow_tenant.specs.Table.{IsPoolSized};

use crate::peers::{Heard, Peer, PeerListener, heard_text};
use ow_command_line::ServeWords;
use ow_peer::Ending;
use ow_runners::PlainRunner;
use ow_serve::{Served, ServedEnd, serve};
use ow_system::{Bells, RefusingLeave, SystemClock};
use ow_tenant::Tenants;
use ow_threads::Gate;
use ow_traits::{Keeper, MemoryKeeper, MemorySource};
use ow_value::NoMemory;
use std::alloc::Global;
use std::sync::{Arc, Wait};
use std::test::Fail;
use std::thread::Threads;
use std::time::Clock;

// One namespace, and one key in it.
const TABLE: &str = "namespace,1,guest,,,\nkey,k1,anna,guest,,\n";

/// What the service needs of the system.
pub(crate) trait System: Wait + Threads + Clock + Clone + Drop + Send + Sync + 'static {}

impl<H: Wait + Threads + Clock + Clone + Drop + Send + Sync + 'static> System for H {}

/// The peers, the calls of the listener that fail, and the duties that get no thread. The two workers have the numbers 0 and 1 there, the
/// sweeper 2, the reaper 3, and the peers those from 4 on.
#[derive(Clone, Copy)]
pub(crate) struct Case<'a> {
    pub(crate) peers: &'a [Peer<'a>],
    pub(crate) unheard: &'a [u64],
    pub(crate) refused: &'a [u64],
}

fn tenants(alloc: Global) -> Result<Tenants, Fail>
    ensures wants { IfOk result (λ t. AreWantsSized t.wants) }
    ensures pool { IfOk result (λ t. IsPoolSized t.pool) }
{
    let mut source = MemorySource::new(TABLE.as_bytes().to_vec(alloc)?, Vec::new(alloc));
    Ok(Tenants::read(alloc, &mut source)?)
}

// The value, in a box, since each return path of a function drops what it holds: a box is dropped by one call.
fn held<T: Drop>(alloc: Global, value: T) -> Result<Box<T>, Fail> {
    match Box::new(alloc, value) {
        Ok(held) => Ok(held),
        Err(_) => Err("no memory")?,
    }
}

// The runners of two workers, and the reaper's.
fn three_runners(alloc: Global) -> Result<Vec<PlainRunner>, NoMemory>
    ensures { IfOk result (λ runners. 2 ≤ length runners.items) }
{
    let mut runners = Vec::new(alloc);
    runners.push(PlainRunner::new())?;
    runners.push(PlainRunner::new())?;
    runners.push(PlainRunner::new())?;
    Ok(runners)
}

fn clock_of<H: System>(rt: &H, alloc: Global) -> Result<Arc<SystemClock<H>, Global>, Fail> {
    let rt = rt.clone()?;
    let bells = Arc::new(alloc, Bells::new())?;
    Ok(Arc::new(alloc, SystemClock::new(rt, bells))?)
}

fn words() -> ServeWords {
    ServeWords {
        port: 0,
        workers: 2,
        connections: None,
        table: None,
        store: None,
    }
}

fn end_word(end: &ServedEnd) -> &'static str {
    match end {
        ServedEnd::Closed => "closed",
        ServedEnd::ListenFault => "listen fault",
        ServedEnd::NoWorker => "no worker",
        ServedEnd::StoreFault => "store fault",
        ServedEnd::BadKept(_) => "bad kept row",
        ServedEnd::NoMemory => "no memory",
        ServedEnd::Unmatched(_) => "unmatched",
    }
}

fn push_endings(alloc: Global, text: &mut String, endings: &[Ending]) -> Result<(), Fail> {
    for ending in endings {
        text.push_str(&format!(in alloc; "{ending:?}\n")?)?;
    }
    Ok(())
}

fn push_heard<H: Wait>(
    rt: &H,
    alloc: Global,
    text: &mut String,
    all: &[Heard],
) -> Result<(), Fail> {
    for heard in all {
        text.push_str(&heard_text(rt, alloc, heard)?)?;
    }
    Ok(())
}

// The end, the faults of the listener and the duties without a thread; how each connection ended; and what each peer received.
fn text_of<H: Wait, P: Keeper + Drop>(
    rt: &H,
    alloc: Global,
    served: &Served<P>,
    all: &[Heard],
) -> Result<String, Fail> {
    let end = end_word(&served.end);
    let listener = served.listener_faults;
    let spawner = served.spawner_faults;
    let mut text = format!(in alloc; "{end}, {listener} and {spawner} faults\n")?;
    push_endings(alloc, &mut text, &served.endings)?;
    push_heard(rt, alloc, &mut text, all)?;
    Ok(text)
}

/// The result, as a text, of a service whose workers pass this gate. The callers drop nothing else of the service.
pub(crate) fn told<H: System, G: Gate + Drop + Send + Sync + 'static>(
    rt: &H,
    alloc: Global,
    case: Case,
    gate: Arc<G, Global>,
) -> Result<String, Fail> {
    let listener = PeerListener::of(rt, alloc, case.peers, case.unheard)?;
    let mut listener = held(alloc, listener)?;
    let clock = clock_of(rt, alloc)?;
    let leave = RefusingLeave::new(case.refused.to_vec(alloc)?);
    let runners = three_runners(alloc)?;
    let tenants = tenants(alloc)?;
    let store = MemoryKeeper::new(alloc);
    let served = serve(
        rt,
        alloc,
        words(),
        tenants,
        &mut *listener,
        runners,
        store,
        clock,
        gate,
        leave,
    );
    let ended = held(alloc, served)?;
    text_of(rt, alloc, &*ended, &listener.heard)
}
