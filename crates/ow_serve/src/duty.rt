// What one thread does.
ghost use Rattle.std.specs.Prelude.{◌≡◌, Some, None, IsSomeAnd};
ghost use Rattle.ow_traits.specs.Runner.{RanNone};
ghost use Rattle.ow_board.specs.Board.{IsPassOf, view_of};
ghost use Rattle.ow_peer.specs.declared.ending.Ending.{Ending};
ghost use Rattle.ow_serve.specs.Duties.{Ends, TalksFrom};
ghost use Rattle.ow_serve.specs.Working.{MakesReapings, MakesSweeps, MakesTurns, outset};

use crate::shared_state::SharedState;
use crate::working::{reap_on, sweep_on, work_on};
use ow_board::Pass;
use ow_desk::Receipts;
use ow_links::Link;
use ow_peer::{Ending, connection_over};
use ow_threads::{Clock, Gate, Task};
use ow_traits::{Keeper, Runner};
use std::alloc::Global;
use std::sync::{Arc, Wait};

/// What a thread does.
#[derive(Drop)]
pub(crate) enum Work<K: Drop, R: Drop> {
    /// It makes turns.
    Turns { runner: R },
    /// It ends what late runs carry.
    Sweeps,
    /// It takes containers that have lain on the board for long.
    Reaps { runner: R },
    /// It serves a peer.
    Serves { link: K },
}

/// What a thread is to do, with its receipts.
#[derive(Drop)]
pub struct Duty<
    H: Wait + Drop,
    K: Link + Drop,
    R: Runner + Drop,
    P: Keeper + Drop,
    C: Clock + Drop,
    G: Gate + Drop,
> {
    pub(crate) rt: H,
    pub(crate) alloc: Global,
    pub(crate) work: Work<K, R>,
    pub(crate) pass: Pass<R::Container>,
    pub(crate) shared: Arc<SharedState<P, R::Container>, Global>,
    pub(crate) clock: Arc<C, Global>,
    pub(crate) gate: Arc<G, Global>,
    pub(crate) opened: u64,
    pub(crate) notes: Receipts<P>,
    ghost own: { IsPassOf shared.value.board pass },
}

/// What a thread leaves.
#[derive(Drop)]
pub struct Done<R: Runner + Drop, P: Keeper + Drop> {
    /// What it did at the desk.
    pub notes: Receipts<P>,
    /// How its connection ended, where it served a peer.
    pub ending: Option<Ending>,
    /// Its runner, where it made turns or reaped.
    pub runner: Option<R>,
}

impl<
    H: Wait + Drop + Send + 'static,
    K: Link + Drop + Send + 'static,
    R: Runner + Drop + Send + 'static,
    P: Keeper + Drop + Send + 'static,
    C: Clock + Drop + Send + Sync + 'static,
    G: Gate + Drop + Send + Sync + 'static,
> Task for Duty<H, K, R, P, C, G>
where
    R::Container: Send + 'static,
{
    type Done = Done<R, P>;

    ghost ends = { λ t d. Ends K.left K.taken R.gives R.tally (outset (C.tells t.clock.value) t.opened (view_of t.pass)) t.work t.notes.notes d.notes.notes d.ending d.runner };

    fn run(self) -> Done<R, P> {
        let Duty {
            rt,
            alloc,
            work,
            pass,
            shared,
            clock,
            gate,
            opened,
            notes,
        } = self;
        let context = ThreadContext {
            rt,
            alloc,
            pass,
            shared,
            clock,
            gate,
            opened,
            notes,
        };
        match work {
            Work::Turns { runner } => work_with(context, runner),
            Work::Sweeps => sweep_with(context),
            Work::Reaps { runner } => reap_with(context, runner),
            Work::Serves { link } => serve_with(context, link),
        }
    }
}

// What a thread works with, whatever it does.
#[derive(Drop)]
struct ThreadContext<H: Wait + Drop, B: Drop, P: Keeper + Drop, C: Clock + Drop, G: Gate + Drop> {
    rt: H,
    alloc: Global,
    pass: Pass<B>,
    shared: Arc<SharedState<P, B>, Global>,
    clock: Arc<C, Global>,
    gate: Arc<G, Global>,
    opened: u64,
    notes: Receipts<P>,
    ghost own: { IsPassOf shared.value.board pass },
}

fn work_with<H: Wait + Drop, R: Runner + Drop, P: Keeper + Drop, C: Clock + Drop, G: Gate + Drop>(
    context: ThreadContext<H, R::Container, P, C, G>,
    runner: R,
) -> Done<R, P>
    ensures ending { result.ending ≡ None }
    ensures turns { IsSomeAnd result.runner (λ r. MakesTurns (R.gives runner) (R.tally runner) (R.tally r) (outset (C.tells context.clock.value) context.opened (view_of context.pass)) context.notes.notes result.notes.notes) }
{
    let (mut context, mut runner) = (context, runner);
    let (alloc, opened) = (context.alloc, context.opened);
    let own = &mut context;
    work_on(
        &own.rt,
        alloc,
        &own.shared,
        &mut own.pass,
        &mut runner,
        &*own.clock,
        &*own.gate,
        opened,
        &mut own.notes,
    );
    Done {
        notes: context.notes,
        ending: None,
        runner: Some(runner),
    }
}

fn sweep_with<H: Wait + Drop, R: Runner + Drop, P: Keeper + Drop, C: Clock + Drop, G: Gate + Drop>(
    context: ThreadContext<H, R::Container, P, C, G>,
) -> Done<R, P>
    ensures ending { result.ending ≡ None }
    ensures sweeps { MakesSweeps (C.tells context.clock.value) context.notes.notes result.notes.notes }
{
    let mut context = context;
    let alloc = context.alloc;
    let own = &mut context;
    sweep_on(&own.rt, alloc, &own.shared, &*own.clock, &mut own.notes);
    Done {
        notes: context.notes,
        ending: None,
        runner: None,
    }
}

fn reap_with<H: Wait + Drop, R: Runner + Drop, P: Keeper + Drop, C: Clock + Drop, G: Gate + Drop>(
    context: ThreadContext<H, R::Container, P, C, G>,
    runner: R,
) -> Done<R, P>
    ensures ending { result.ending ≡ None }
    ensures ran { IsSomeAnd result.runner (λ r. RanNone (R.tally runner) (R.tally r)) }
    ensures reapings { MakesReapings (outset (C.tells context.clock.value) context.opened (view_of context.pass)) context.notes.notes result.notes.notes }
{
    let (mut context, mut runner) = (context, runner);
    let (alloc, opened) = (context.alloc, context.opened);
    let own = &mut context;
    reap_on(
        &own.rt,
        alloc,
        &own.shared,
        &mut own.pass,
        &mut runner,
        &*own.clock,
        &*own.gate,
        opened,
        &mut own.notes,
    );
    Done {
        notes: context.notes,
        ending: None,
        runner: Some(runner),
    }
}

fn serve_with<
    H: Wait + Drop,
    K: Link + Drop,
    R: Runner + Drop,
    P: Keeper + Drop,
    C: Clock + Drop,
    G: Gate + Drop,
>(context: ThreadContext<H, R::Container, P, C, G>, link: K) -> Done<R, P>
    ensures served { (e : Ending) × (result.ending ≡ Some e) × TalksFrom K.left K.taken (C.tells context.clock.value) link context.notes.notes result.notes.notes e }
{
    let (mut context, mut link) = (context, link);
    let alloc = context.alloc;
    let own = &mut context;
    let ending = connection_over(
        &own.rt,
        alloc,
        &own.shared.routes,
        &mut link,
        &own.shared.desk,
        &*own.clock,
        &mut own.notes,
    );
    Done {
        notes: context.notes,
        ending: Some(ending),
        runner: None,
    }
}
