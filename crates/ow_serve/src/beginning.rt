// The threads that the service begins before it accepts a peer.
ghost use Rattle.std.specs.Prelude.{◌≡◌, ◌⊎◌, ◌<◌, ◌≤◌, ◌∷◌, [], length, map, IfErr, OnOk};
ghost use Rattle.ow_board.specs.Board.{view_of};
ghost use Rattle.ow_desk.specs.Notes.{no_notes};
ghost use Rattle.ow_serve.specs.Duties.{AllStarted, BeginsAll};
ghost use Rattle.ow_serve.specs.Working.{fresh_outset, outset};
ghost use Rattle.ow_serve.specs.declared.duty.Work.TheVariants.{Turns};

use crate::duty::{Duty, Work};
use crate::served::ServedEnd;
use crate::service_context::ServiceContext;
use ow_links::Link;
use ow_system::{Crew, Leave};
use ow_threads::{Begun, Clock, Gate};
use ow_traits::{Keeper, Runner};
use std::alloc::Global;
use std::sync::Wait;
use std::thread::Threads;

/// Begins the workers, the sweeper and the reaper. The last runner is the reaper's, each other one has a worker.
pub(crate) fn begin_all<
    H: Wait + Threads + Clone + Drop + Send + 'static,
    K: Link + Drop + Send + 'static,
    R: Runner + Drop + Send + 'static,
    P: Keeper + Drop + Send + 'static,
    C: Clock + Drop + Send + Sync + 'static,
    G: Gate + Drop + Send + Sync + 'static,
    V: Leave + Drop,
>(
    rt: &H,
    alloc: Global,
    runners: Vec<R>,
    service: &mut ServiceContext<P, R, C, G>,
    crew: &mut Crew<V, Duty<H, K, R, P, C, G>>,
) -> Result<(), ServedEnd>
where
    R::Container: Send + 'static,
    requires runners { 2 ≤ length runners.items }
    ensures begins { OnOk result (BeginsAll (λ t w. (t.work ≡ w) × (t.notes.notes ≡ no_notes) × (outset (C.tells t.clock.value) t.opened (view_of t.pass) ≡ fresh_outset (C.tells service.old.clock.value) service.old.opened)) runners.items crew.old.tasks crew.new.tasks) }
    ensures worker { IfErr result (λ e. (e ≡ ServedEnd.NoMemory) ⊎ ((e ≡ ServedEnd.NoWorker) × (0 < crew.new.faults))) }
    ensures notes { service.new.notes.notes ≡ service.old.notes.notes }
    ensures clock { (service.new.clock ≡ service.old.clock) × (service.new.opened ≡ service.old.opened) }
{
    let mut runners = runners;
    let last = runners.pop();
    begin_workers(rt, alloc, runners, service, crew)?;
    begin(rt, alloc, Work::Sweeps, service, crew)?;
    match last {
        Some(runner) => begin(rt, alloc, Work::Reaps { runner }, service, crew),
        None => Ok(()),
    }
}

// Begins a worker for each of these.
fn begin_workers<
    H: Wait + Threads + Clone + Drop + Send + 'static,
    K: Link + Drop + Send + 'static,
    R: Runner + Drop + Send + 'static,
    P: Keeper + Drop + Send + 'static,
    C: Clock + Drop + Send + Sync + 'static,
    G: Gate + Drop + Send + Sync + 'static,
    V: Leave + Drop,
>(
    rt: &H,
    alloc: Global,
    runners: Vec<R>,
    service: &mut ServiceContext<P, R, C, G>,
    crew: &mut Crew<V, Duty<H, K, R, P, C, G>>,
) -> Result<(), ServedEnd>
where
    R::Container: Send + 'static,
    ensures begins { OnOk result (AllStarted (λ t w. (t.work ≡ w) × (t.notes.notes ≡ no_notes) × (outset (C.tells t.clock.value) t.opened (view_of t.pass) ≡ fresh_outset (C.tells service.old.clock.value) service.old.opened)) (map (λ r. Turns r) runners.items) crew.old.tasks crew.new.tasks) }
    ensures worker { IfErr result (λ e. (e ≡ ServedEnd.NoMemory) ⊎ ((e ≡ ServedEnd.NoWorker) × (0 < crew.new.faults))) }
    ensures notes { service.new.notes.notes ≡ service.old.notes.notes }
    ensures clock { (service.new.clock ≡ service.old.clock) × (service.new.opened ≡ service.old.opened) }
{
    for runner in runners {
        begin(rt, alloc, Work::Turns { runner }, service, crew)?;
    }
    Ok(())
}

// Begins a thread for this.
fn begin<
    H: Wait + Threads + Clone + Drop + Send + 'static,
    K: Link + Drop + Send + 'static,
    R: Runner + Drop + Send + 'static,
    P: Keeper + Drop + Send + 'static,
    C: Clock + Drop + Send + Sync + 'static,
    G: Gate + Drop + Send + Sync + 'static,
    V: Leave + Drop,
>(
    rt: &H,
    alloc: Global,
    work: Work<K, R>,
    service: &mut ServiceContext<P, R, C, G>,
    crew: &mut Crew<V, Duty<H, K, R, P, C, G>>,
) -> Result<(), ServedEnd>
where
    R::Container: Send + 'static,
    ensures begins { OnOk result (AllStarted (λ t w. (t.work ≡ w) × (t.notes.notes ≡ no_notes) × (outset (C.tells t.clock.value) t.opened (view_of t.pass) ≡ fresh_outset (C.tells service.old.clock.value) service.old.opened)) (work ∷ []) crew.old.tasks crew.new.tasks) }
    ensures worker { IfErr result (λ e. (e ≡ ServedEnd.NoMemory) ⊎ ((e ≡ ServedEnd.NoWorker) × (0 < crew.new.faults))) }
    ensures notes { service.new.notes.notes ≡ service.old.notes.notes }
    ensures clock { (service.new.clock ≡ service.old.clock) × (service.new.opened ≡ service.old.opened) }
{
    let Ok(duty) = service.duty(rt, alloc, work) else {
        return Err(ServedEnd::NoMemory);
    };
    match crew.begin(rt, duty, false) {
        Begun::Started => Ok(()),
        Begun::Ran(_) | Begun::Refused => Err(ServedEnd::NoWorker),
    }
}
