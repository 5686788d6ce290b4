// The running service, over sockets, the system's clock, threads and programs.
ghost use Rattle.std.specs.Prelude.{◌≡◌, ◌≤◌, ◌<◌, length, IfOk};
ghost use Rattle.std.specs.Process.{exit_status};
ghost use Rattle.ow_traits.specs.Prewarms.{AreWantsSized};
ghost use Rattle.ow_tenant.specs.Table.{IsPoolSized};
ghost use Rattle.ow_whisk.specs.Served.{served_number};

use ow_command_line::ServeWords;
use ow_links::{Link, Listener};
use ow_runners::ProgramRunner;
use ow_serve::{Served, ServedEnd, serve};
use ow_system::{Always, Bells, SocketListener, SystemClock};
use ow_tenant::Tenants;
use ow_threads::OpenGate;
use ow_traits::Keeper;
use ow_value::{NoMemory, PlainData, joined3, kept_beside};
use std::alloc::Global;
use std::net::{Net, TcpListener, TcpStream};
use std::process::{ExitCode, Processes, SystemProcess};
use std::sync::{Arc, Wait};
use std::thread::Threads;
use std::time::Clock;

/// What the service needs of the system beside sockets and programs.
pub trait System: Wait + Threads + Clock + AllocGlobal + Clone + Drop + Send + Sync + 'static {}

impl<H: Wait + Threads + Clock + AllocGlobal + Clone + Drop + Send + Sync + 'static> System for H {}

// A runner for each worker, of which there is one at least, and one for the reaper.
fn runners_of<H: System + Processes<Started = SystemProcess>>(
    rt: &H,
    workers: u32,
    tenants: &Tenants,
) -> Result<Vec<ProgramRunner<H>>, NoMemory>
    ensures least { IfOk result (λ runners. 2 ≤ length runners.items) }
    ensures each { IfOk result (λ runners. workers < length runners.items) }
{
    let mut runners = Vec::new(rt.alloc());
    for _ in 0..workers.max(1) {
        runners.push(runner_of(rt, tenants)?)?;
    }
    runners.push(runner_of(rt, tenants)?)?;
    Ok(runners)
}

fn runner_of<H: System + Processes<Started = SystemProcess>>(
    rt: &H,
    tenants: &Tenants,
) -> Result<ProgramRunner<H>, NoMemory> {
    let programs = tenants.programs().copy(rt.alloc())?;
    Ok(ProgramRunner::new(rt.clone()?, programs))
}

// The exit status of a service.
fn code_of(end: &ServedEnd) -> ExitCode
    ensures { exit_status result ≡ served_number end.now }
{
    ExitCode::from(number_of(end))
}

// Its number: those of the other commands, and three of its own.
fn number_of(end: &ServedEnd) -> u8
    ensures { result ≡ served_number end.now }
{
    match end {
        ServedEnd::Closed => 0,
        ServedEnd::StoreFault => 5,
        ServedEnd::NoMemory => 7,
        ServedEnd::BadKept(_) => 9,
        ServedEnd::ListenFault => 10,
        ServedEnd::NoWorker => 11,
        ServedEnd::Unmatched(_) => 12,
    }
}

// Serves the peers of a listener.
fn serve_at<
    H: System + Processes<Started = SystemProcess>,
    K: Link + Drop + Send + 'static,
    L: Listener<Peer = K>,
    P: Keeper + Drop + Send + 'static,
>(
    rt: &H,
    words: ServeWords,
    tenants: Tenants,
    store: P,
    listener: &mut L,
) -> Result<Served<P>, NoMemory>
    requires wants { AreWantsSized tenants.wants }
    requires pool { IsPoolSized tenants.pool }
{
    let alloc = rt.alloc();
    let made = joined3(
        runners_of(rt, words.workers, &tenants),
        clock_of(rt),
        gate_of(rt),
    );
    let ((words, tenants, store), (runners, clock, gate)) = kept_beside(
        (words, tenants, store),
        made,
    )?;
    Ok(serve(
        rt,
        alloc,
        words,
        tenants,
        listener,
        runners,
        store,
        clock,
        gate,
        Always::new(),
    ))
}

// The system's clock, with bells that end its pauses.
fn clock_of<H: System>(rt: &H) -> Result<Arc<SystemClock<H>, Global>, NoMemory> {
    let alloc = rt.alloc();
    let bells = Arc::new(alloc, Bells::new())?;
    let (bells, rt) = kept_beside(bells, rt.clone())?;
    Ok(Arc::new(alloc, SystemClock::new(rt, bells))?)
}

// A gate that holds nobody.
fn gate_of<H: System>(rt: &H) -> Result<Arc<OpenGate, Global>, NoMemory> {
    Ok(Arc::new(rt.alloc(), OpenGate::new())?)
}

// Listens on the port of all addresses of the machine. Where it can't, the listener's first accept fails.
fn listener_on<
    H: System
        + Net<Listener = TcpListener, Stream = TcpStream>
        + Processes<Started = SystemProcess>,
>(rt: &H, port: u16) -> Result<SocketListener<TcpListener, H>, NoMemory> {
    let own = rt.clone()?;
    let address = format!(in rt.alloc(); "0.0.0.0:{port}")?;
    Ok(SocketListener::new(TcpListener::bind(rt, address.as_str()), own))
}

fn serve_port<
    H: System
        + Net<Listener = TcpListener, Stream = TcpStream>
        + Processes<Started = SystemProcess>,
    P: Keeper + Drop + Send + 'static,
>(rt: &H, words: ServeWords, tenants: Tenants, store: P) -> Result<Served<P>, NoMemory>
    requires wants { AreWantsSized tenants.wants }
    requires pool { IsPoolSized tenants.pool }
{
    let listener = listener_on(rt, words.port);
    let ((words, tenants, store), mut listener) = kept_beside((words, tenants, store), listener)?;
    serve_at(rt, words, tenants, store, &mut listener)
}

/// Serves over the store and the office table, and gives the exit status, and the store where it came back.
pub fn served<
    H: System
        + Net<Listener = TcpListener, Stream = TcpStream>
        + Processes<Started = SystemProcess>,
    P: Keeper + Drop + Send + 'static,
>(rt: &H, words: ServeWords, tenants: Tenants, store: P) -> (ExitCode, Option<P>)
    requires wants { AreWantsSized tenants.wants }
    requires pool { IsPoolSized tenants.pool }
{
    match serve_port(rt, words, tenants, store) {
        Ok(served) => ended(served),
        Err(_) => (code_of(&ServedEnd::NoMemory), None),
    }
}

// The exit status of a service that has ended, and its store.
fn ended<P: Keeper + Drop>(served: Served<P>) -> (ExitCode, Option<P>)
    ensures code { exit_status result.0 ≡ served_number served.end }
    ensures store { result.1 ≡ served.store }
{
    let Served {
        end,
        store,
        book,
        receipts,
        endings,
        ..
    } = served;
    let code = code_of(&end);
    drop((end, book, receipts, endings));
    (code, store)
}
