// The steps for what runners request and report, for sweeps, for the drain and for a reopening.
ghost use Rattle.std.specs.Prelude.{◌≡◌, ◌≢◌, ◌++◌, ℕ, None, List, [], false, IfOk};
ghost use Rattle.ow_entity.specs.declared.rows.Row.{Row};
ghost use Rattle.ow_tenant.specs.Table.{Table};
ghost use Rattle.ow_counts.specs.View.{CountsView};
ghost use Rattle.ow_floor.specs.Calls.{answered_by, archive_items, due_in, happened_of};
ghost use Rattle.ow_floor.specs.Growth.{AreRight};
ghost use Rattle.ow_floor.specs.Laws.{IsSound, Stands};
ghost use Rattle.ow_floor.specs.Trace.{Trace, shown};
ghost use Rattle.ow_commits.specs.Archiving.{archive_changes, archive_with, others_with};
ghost use Rattle.ow_commits.specs.Keeping.{AreOwn, KeepingView, StandsForKept};
ghost use Rattle.ow_decide.specs.Decision.{adds, held, items_changes};
ghost use Rattle.ow_decide.specs.Decisions.{archived_until, decide, sweep_decision, sweep_with, taken_told, wants_memory};
ghost use Rattle.ow_decide.specs.Making.{Carries, IsCommit, IsFollowingOf, IsReplyTold, IsSeen, IsTold, Makes, telling};
ghost use Rattle.ow_decide.specs.Sight.{Sight};
ghost use Rattle.ow_decide.specs.declared.events.Told.TheVariants as told;

use crate::commits::{Made, made_of};
use crate::events::{Event, Told};
use crate::step::{Now, OthersStep, RowChange, Step};
use crate::waits::Waits;
use ow_commits::{Following, Keeping, archive_with};
use ow_floor::{Answered, Floor, FloorRefusal, Happened, Moves, Swept};
use ow_records::Record;
use ow_row_text::Archive;
use ow_tables::Tables;
use ow_tenant::Tenants;
use ow_traits::RunReply;
use ow_value::{NoMemory, PlainData, kept_beside};
use std::alloc::Global;

// How many milliseconds a day has.
const DAY: u64 = 86_400_000;

/// Runs what has waited longest, if anything waits.
pub(crate) fn next(alloc: Global, floor: &mut Floor, now: Now) -> Result<Step, NoMemory>
    ensures ok { IfOk result (λ s. (t : Table) (rs : List Row) (k : CountsView) (b : KeepingView) → Makes t rs k b now floor.old.now floor.new.now (λ S. decide S Event.Next) s) }
    ensures change { IfOk result (λ s. s.change ≡ RowChange.Nothing) }
    ensures before { floor.new.before ≡ floor.old.before }
{
    let order = floor.next(alloc, now.at)?;
    Ok(Step::telling(alloc, Told::Next(order)))
}

/// Takes a runner's reply, with the steps that the end makes. A reply to a run that isn't live is handed back.
pub(crate) fn answered(
    alloc: Global,
    keeping: &Keeping,
    floor: &mut Floor,
    tables: &Tables,
    now: Now,
    run: u64,
    reply: &RunReply,
) -> Result<Step, NoMemory>
    ensures ok { IfOk result (λ s. (t : Table) (k : CountsView) → Makes t tables.now.rows k keeping.now now floor.old.now floor.new.now (λ S. decide S (Event.Answered run reply.now)) s) }
    ensures change { IfOk result (λ s. s.change ≡ RowChange.Nothing) }
    ensures before { floor.new.before ≡ floor.old.before }
{
    let mut moves = Moves::new(alloc);
    let Ok(recorded) = ow_trees::answered(alloc, tables, floor, now.at, run, reply, &mut moves)
    else {
        drop(moves);
        return Err(NoMemory);
    };
    answered_step(alloc, keeping, run, reply, recorded, moves)
}

// The step that answers a reply, after these moves. `recorded` is None where the run isn't live. Otherwise it has the moment at which a
// sweep recorded what the run carries, if one did.
fn answered_step(
    alloc: Global,
    keeping: &Keeping,
    run: u64,
    reply: &RunReply,
    recorded: Option<Option<u64>>,
    moves: Moves,
) -> Result<Step, NoMemory>
    ensures { IfOk result (λ s. IsReplyTold s run reply.now recorded moves keeping.now) }
{
    match recorded {
        Some(recorded) => recorded_step(alloc, keeping, run, recorded, moves),
        None => {
            drop(moves);
            unknown_step(alloc, run, reply)
        }
    }
}

// The step that answers a reply to a live run. The reply is late where a sweep recorded what the run carries; otherwise the answer says
// what moved.
fn recorded_step(
    alloc: Global,
    keeping: &Keeping,
    run: u64,
    recorded: Option<u64>,
    moves: Moves,
) -> Result<Step, NoMemory>
    ensures { IfOk result (λ s. IsTold s (told.Answered (answered_by run recorded (happened_of moves))) Waits.Keep moves keeping.now) }
{
    let Ok(happened) = Happened::of_moves(alloc, moves.items()) else {
        drop(moves);
        return Err(NoMemory);
    };
    let answered = answered_by(run, recorded, happened);
    told_step(alloc, keeping, Told::Answered(answered), Waits::Keep, moves)
}

// The answer to a reply to a live run.
fn answered_by(run: u64, recorded: Option<u64>, happened: Happened) -> Answered
    ensures { result ≡ answered_by run recorded happened }
{
    match recorded {
        Some(at) => Answered::Late { run, at },
        None => Answered::Recorded(happened),
    }
}

// The step that hands back a reply to a run that isn't live.
fn unknown_step(alloc: Global, run: u64, reply: &RunReply) -> Result<Step, NoMemory>
    ensures { IfOk result (λ s. s ≡ telling (told.NoRun run reply.now)) }
{
    let reply = reply.copy(alloc)?;
    Ok(Step::telling(alloc, Told::NoRun { run, reply }))
}

// A step with this answer and these moves, and with what is to be committed of them, if anything moved.
fn told_step(
    alloc: Global,
    keeping: &Keeping,
    told: Told,
    waits: Waits,
    moves: Moves,
) -> Result<Step, NoMemory>
    ensures { IfOk result (λ s. IsTold s told waits moves keeping.now) }
{
    if moves.items().is_empty() {
        return Ok(Step {
            told,
            change: RowChange::Nothing,
            waits,
            moves,
            commit: None,
            others: None,
        });
    }
    let Ok(Made { moves, commit }) = made_of(alloc, keeping, moves) else {
        drop(told);
        return Err(NoMemory);
    };
    Ok(Step {
        told,
        change: RowChange::Nothing,
        waits,
        moves,
        commit: Some(commit),
        others: None,
    })
}

/// Ends what late runs carry, with the steps that the ends make. The records that are due then are to be archived, over what was archived
/// before.
pub(crate) fn sweep(
    alloc: Global,
    tenants: &Tenants,
    keeping: &Keeping,
    floor: &mut Floor,
    tables: &Tables,
    archive: Archive,
    now: Now,
) -> Result<Step, NoMemory>
    ensures ok { IfOk result (λ s. (S : Sight) (k : CountsView) → IsSeen S tenants.now tables.now.rows k keeping.now floor.old.now now → S.others.archive ≡ archive
        → Carries s (sweep_decision S) S × Stands floor.new.now (held (sweep_decision S) ++ S.trace)) }
    ensures change { IfOk result (λ s. s.change ≡ RowChange.Nothing) }
    ensures before { floor.new.before ≡ floor.old.before }
{
    let mut moves = Moves::new(alloc);
    let Ok(late) = ow_trees::sweep(alloc, tables, floor, now.at, &mut moves) else {
        drop(moves);
        return Err(NoMemory);
    };
    let step = swept_step(alloc, keeping, late, moves)?;
    match archived_until(tenants.retain(), now.at) {
        Some(until) => with_due(alloc, keeping, floor, archive, until, step),
        None => Ok(step),
    }
}

// Up to which moment records are archived at this one.
#[tactic(auto, unfolding(crate::specs::Decisions::archived_until))]
fn archived_until(retain: Option<u32>, at: u64) -> Option<u64>
    ensures { result ≡ archived_until retain at }
{
    let Some(days) = retain else {
        return None;
    };
    at.checked_sub(days as u64 * DAY)
}

// The step of a sweep, with an archive of the records that are due up to this moment, if there is any.
fn with_due(
    alloc: Global,
    keeping: &Keeping,
    floor: &Floor,
    archive: Archive,
    until: u64,
    step: Step,
) -> Result<Step, NoMemory>
    ensures ok { IfOk result (λ s. (S : Sight) (t : Told) (items : Trace) → Carries step (adds t items) S → StandsForKept keeping.now S.others S.rows S.trace
        → IsSound S.trace → AreRight items (shown S.trace) → AreOwn items → Stands floor.now.now (items ++ S.trace) → S.others.archive ≡ archive
        → Carries s (sweep_with S t items until (due_in until (items ++ S.trace))) S) }
    ensures change { IfOk result (λ s. s.change ≡ step.change) }
{
    match floor.due(until) {
        Ok(due) => archiving(alloc, keeping, archive, until, &due, step),
        Err(e) => {
            drop(step);
            Err(e)
        }
    }
}

// The step of a sweep, with an archive of these records after it, if there are any.
fn archiving(
    alloc: Global,
    keeping: &Keeping,
    archive: Archive,
    until: u64,
    due: &[Record],
    step: Step,
) -> Result<Step, NoMemory>
    ensures ok { IfOk result (λ s. (S : Sight) (t : Told) (items : Trace) → Carries step (adds t items) S → StandsForKept keeping.now S.others S.rows S.trace
        → IsSound S.trace → AreRight items (shown S.trace) → AreOwn items → due.now ≡ due_in until (items ++ S.trace) → S.others.archive ≡ archive
        → Carries s (sweep_with S t items until (due_in until (items ++ S.trace))) S) }
    ensures change { IfOk result (λ s. s.change ≡ step.change) }
{
    if due.is_empty() {
        return Ok(step);
    }
    archiving_step(alloc, keeping, archive, until, due, step)
}

// The step of a sweep, with an archive of these records after it.
fn archiving_step(
    alloc: Global,
    keeping: &Keeping,
    archive: Archive,
    until: u64,
    due: &[Record],
    step: Step,
) -> Result<Step, NoMemory>
    ensures ok { IfOk result (λ s. (S : Sight) (t : Told) (items : Trace) → Carries step (adds t items) S → StandsForKept keeping.now S.others S.rows S.trace
        → IsSound S.trace → AreRight items (shown S.trace) → AreOwn items → due.now ≡ due_in until (items ++ S.trace) → S.others.archive ≡ archive
        → due.now ≢ [] → Carries s (sweep_with S t items until due.now) S) }
    ensures change { IfOk result (λ s. s.change ≡ step.change) }
{
    let Step {
        told,
        change,
        waits,
        moves,
        commit,
        ..
    } = step;
    let archived = archived_after(alloc, keeping, archive, due, commit);
    let ((told, change, moves), (commit, archive)) = kept_beside((told, change, moves), archived)?;
    Ok(Step {
        told,
        change,
        waits,
        moves,
        commit: Some(commit),
        others: Some(OthersStep::Archives { until, archive }),
    })
}

// What is committed with an archive of these records after it, and what was archived then.
fn archived_after(
    alloc: Global,
    keeping: &Keeping,
    archive: Archive,
    due: &[Record],
    commit: Option<Following>,
) -> Result<(Following, Archive), NoMemory>
    ensures archive { IfOk result (λ r. r.1 ≡ archive_with archive due.now) }
    ensures commit { IfOk result (λ r. (S : Sight) (t : Told) (items : Trace) (until : ℕ) → IsCommit commit (adds t items) S → StandsForKept keeping.now S.others S.rows S.trace
        → IsSound S.trace → AreRight items (shown S.trace) → AreOwn items → due.now ≡ due_in until (items ++ S.trace) → S.others.archive ≡ archive
        → IsFollowingOf r.0 (items_changes items ++ archive_changes archive due.now) (others_with S.others due.now) S.rows (archive_items until (items ++ S.trace) ++ (items ++ S.trace))) }
{
    let after = match archive_with(archive, due) {
        Ok(after) => after,
        Err(e) => {
            drop(commit);
            return Err(e);
        }
    };
    let base = following_of(alloc, keeping, commit)?;
    let whole = base.archiving(alloc, archive, due)?;
    Ok((whole, after))
}

// What is committed without an archive: where there is no commit, nothing.
fn following_of(
    alloc: Global,
    keeping: &Keeping,
    commit: Option<Following>,
) -> Result<Following, NoMemory>
    ensures { IfOk result (λ c. (S : Sight) (t : Told) (items : Trace) → IsCommit commit (adds t items) S → StandsForKept keeping.now S.others S.rows S.trace
        → IsSound S.trace → AreRight items (shown S.trace) → AreOwn items → IsFollowingOf c (items_changes items) S.others S.rows (items ++ S.trace)) }
{
    match commit {
        Some(following) => Ok(following),
        None => keeping.following(alloc, &[]),
    }
}

// The step that answers a sweep that found this many late runs, after these moves.
fn swept_step(alloc: Global, keeping: &Keeping, late: u64, moves: Moves) -> Result<Step, NoMemory>
    ensures { IfOk result (λ s. IsTold s (told.Swept (record { happened = happened_of moves; late = late })) Waits.Keep moves keeping.now) }
{
    let Ok(happened) = Happened::of_moves(alloc, moves.items()) else {
        drop(moves);
        return Err(NoMemory);
    };
    let swept = Told::Swept(Swept { happened, late });
    told_step(alloc, keeping, swept, Waits::Keep, moves)
}

/// Takes a beginning, a loss or a going. This takes no memory.
pub fn take(floor: &mut Floor, now: Now, event: &Event) -> Result<(), FloorRefusal>
    requires event { wants_memory event.now ≡ false }
    requires free { floor.old.before ≡ None }
    ensures ok { (t : Table) (rs : List Row) (k : CountsView) (b : KeepingView) → Makes t rs k b now floor.old.now floor.new.now (λ S. decide S event.now) (telling (taken_told result)) }
    ensures free { floor.new.before ≡ None }
{
    match event {
        Event::Begun { run } => floor.begun(now.at, *run),
        Event::Lost { run } => floor.lost(now.at, *run),
        Event::Gone { slot, generation } => floor.gone(now.at, *slot, *generation),
        _ => unreachable!(),
    }
}

/// The answer to a beginning, a loss or a going.
pub fn taken_told(taken: Result<(), FloorRefusal>) -> Told
    ensures { result ≡ taken_told taken }
{
    match taken {
        Ok(()) => Told::Done,
        Err(refusal) => Told::Refused(refusal),
    }
}

/// From now on the floor drains.
pub(crate) fn drain(alloc: Global, floor: &mut Floor, now: Now) -> Step
    ensures ok { (t : Table) (rs : List Row) (k : CountsView) (b : KeepingView) → Makes t rs k b now floor.old.now floor.new.now (λ S. decide S Event.Drain) result }
    ensures change { result.change ≡ RowChange.Nothing }
    ensures before { floor.new.before ≡ floor.old.before }
{
    Step::telling(alloc, Told::Drain(floor.drain(now.at)))
}

/// Ends every open activation as abandoned. Then no request waits for an end any more.
pub(crate) fn reopen(
    alloc: Global,
    keeping: &Keeping,
    floor: &mut Floor,
    now: Now,
) -> Result<Step, NoMemory>
    ensures ok { IfOk result (λ s. (t : Table) (rs : List Row) (k : CountsView) → Makes t rs k keeping.now now floor.old.now floor.new.now (λ S. decide S Event.Reopened) s) }
    ensures change { IfOk result (λ s. s.change ≡ RowChange.Nothing) }
    ensures before { floor.new.before ≡ floor.old.before }
{
    let mut moves = Moves::new(alloc);
    if floor.abandon_into(alloc, now.at, &mut moves).is_err() {
        drop(moves);
        return Err(NoMemory);
    }
    reopened_step(alloc, keeping, moves)
}

// The step that answers a reopening, after these moves.
fn reopened_step(alloc: Global, keeping: &Keeping, moves: Moves) -> Result<Step, NoMemory>
    ensures { IfOk result (λ s. IsTold s (told.Reopened (happened_of moves)) Waits.Clear moves keeping.now) }
{
    let Ok(happened) = Happened::of_moves(alloc, moves.items()) else {
        drop(moves);
        return Err(NoMemory);
    };
    told_step(
        alloc,
        keeping,
        Told::Reopened(happened),
        Waits::Clear,
        moves,
    )
}
