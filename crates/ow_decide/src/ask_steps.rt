// The outcome of a request: its first refusal, in the order of their places, or what it reads and changes.
ghost use Rattle.std.specs.Prelude.{◌≡◌, ◌≢◌, ◌+◌, None, Some, Ok, Err, false, IfOk, IfErr, IfSome};
ghost use Rattle.ow_commits.specs.Commits.{row_changes};
ghost use Rattle.ow_commits.specs.Keeping.{KeepingView, StandsForKept};
ghost use Rattle.ow_counts.specs.View.{CountsView};
ghost use Rattle.ow_floor.specs.View.{last_of};
ghost use Rattle.ow_http.specs.Request.{parts_of};
ghost use Rattle.ow_web.specs.Target.{is_web};
ghost use Rattle.ow_entity.specs.declared.rows.Row.TheVariants as rows;
ghost use Rattle.ow_entity.specs.declared.rules.Rule.{Rule};
ghost use Rattle.ow_tables.specs.Joined.{rule_at};
ghost use Rattle.ow_tables.specs.Rows.{changed as rows_changed, standing, with_row};
ghost use Rattle.ow_decide.specs.Asking as asking;
ghost use Rattle.ow_decide.specs.declared.done.Served.TheVariants as served;
ghost use Rattle.ow_reads.specs.Shown.{shown_row};
ghost use Rattle.ow_decide.specs.Asking.{ask_decision, called_done, change_done, keyed_done, named_set, plan_done, put_done, request_done, row_done};
ghost use Rattle.ow_decide.specs.Sight.{Sight};
ghost use Rattle.ow_tenant.specs.declared.entries.Holder.{Holder};
ghost use Rattle.ow_decide.specs.Making.{CommitsDone, CommitsServed, HasPlace, HasRoom, IsFollowingOf, IsNextOf, IsSeen, Makes, change_of, done_of, served_change, served_of};

use crate::call_steps::{charged_namespace, invocation_plan, taken_plan};
use crate::commits::{changing, is_store_full};
use crate::done::{Done, Served, accepted};
use crate::fire_steps::{fired, shot};
use crate::read_steps::read;
use crate::reasons::table_reason;
use crate::room::room_for;
use crate::step::{Now, RowChange, Step};
use crate::waits::{Shows, shows_of};
use crate::web_steps::web_served;
use ow_commits::{Following, Keeping};
use ow_counts::Counts;
use ow_entity::{Draft, EntityKind};
use ow_floor::{Floor, Plan};
use ow_http::{Call, HttpRefusal, Reason, Request, Route, ServiceRefusal};
use ow_names::FullName;
use ow_reads::{Act, act_of, asker, granted_call, shown_once_put, shown_row};
use ow_rules::set_status;
use ow_tables::{Ready, TableRefusal, Tables};
use ow_tenant::{Holder, Tenants};
use ow_value::NoMemory;
use std::alloc::Global;

/// What is done at a request. A change is made ready and not made yet.
pub(crate) fn ask(
    alloc: Global,
    tenants: &Tenants,
    counts: &Counts,
    keeping: &Keeping,
    floor: &mut Floor,
    tables: &mut Tables,
    now: Now,
    request: &Request,
) -> Result<Step, NoMemory>
    requires held { floor.old.before ≡ Some floor.old.now }
    ensures ok { IfOk result (Makes tenants.now tables.old.rows counts.now keeping.now now floor.old.now floor.new.now (λ S. ask_decision (request_done S (parts_of request.now)))) }
    ensures before { floor.new.before ≡ floor.old.before }
    ensures rows { tables.new.rows ≡ tables.old.rows }
    ensures place { IfOk result (λ s. HasRoom s.change tables.new.room) }
{
    match request_served(alloc, tenants, keeping, floor, tables, now, request)? {
        Served::Done(done) => done.step(alloc),
        Served::Accepts { plan, shows } => accepted_plan(
            alloc, tenants, counts, keeping, floor, tables, now, plan, shows,
        ),
        Served::Fires { fire, rules } => shot(
            alloc, tenants, counts, keeping, floor, tables, now, fire, rules,
        ),
    }
}

// What is done for a plan. The request is answered that the plan was accepted, or why it was refused.
fn accepted_plan(
    alloc: Global,
    tenants: &Tenants,
    counts: &Counts,
    keeping: &Keeping,
    floor: &mut Floor,
    tables: &Tables,
    now: Now,
    plan: Plan,
    shows: Shows,
) -> Result<Step, NoMemory>
    requires next { plan.id.count ≡ last_of floor.old.now.drawn plan.id.namespace + 1 }
    requires held { floor.old.before ≡ Some floor.old.now }
    ensures ok { IfOk result (Makes tenants.now tables.now.rows counts.now keeping.now now floor.old.now floor.new.now (λ S. ask_decision (plan_done S plan shows))) }
    ensures change { IfOk result (λ s. s.change ≡ RowChange.Nothing) }
    ensures before { floor.new.before ≡ floor.old.before }
{
    let id = plan.id;
    let until = plan.until;
    let taken = taken_plan(alloc, tenants, counts, keeping, floor, tables, now, plan)?;
    accepted(alloc, id, until, shows, taken)
}

// The outcome of a request, over this floor and these rows.
fn request_served(
    alloc: Global,
    tenants: &Tenants,
    keeping: &Keeping,
    floor: &Floor,
    tables: &mut Tables,
    now: Now,
    request: &Request,
) -> Result<Served, NoMemory>
    ensures done { IfOk result (λ d. (S : Sight) (k : CountsView) → IsSeen S tenants.now tables.old.rows k keeping.now floor.now.now now → served_of S d ≡ request_done S (parts_of request.now)) }
    ensures commit { IfOk result (λ d. (S : Sight) (k : CountsView) → IsSeen S tenants.now tables.old.rows k keeping.now floor.now.now now → CommitsServed d S) }
    ensures rows { tables.new.rows ≡ tables.old.rows }
    ensures place { IfOk result (λ d. HasPlace (served_change d) tables.new.room) }
    ensures next { IfOk result (IsNextOf floor.now.now.drawn) }
{
    if is_web(&request.route) {
        return web_served(alloc, tenants, floor, tables, now, request);
    }
    keyed_served(alloc, tenants, keeping, floor, tables, now, request)
}

fn is_web(route: &Route) -> bool
    ensures { result ≡ is_web route.now }
{
    matches!(route, Route::Web { .. })
}

// The outcome of a request with a key.
fn keyed_served(
    alloc: Global,
    tenants: &Tenants,
    keeping: &Keeping,
    floor: &Floor,
    tables: &mut Tables,
    now: Now,
    request: &Request,
) -> Result<Served, NoMemory>
    ensures done { IfOk result (λ d. (S : Sight) (k : CountsView) → IsSeen S tenants.now tables.old.rows k keeping.now floor.now.now now → served_of S d ≡ keyed_done S (parts_of request.now)) }
    ensures commit { IfOk result (λ d. (S : Sight) (k : CountsView) → IsSeen S tenants.now tables.old.rows k keeping.now floor.now.now now → CommitsServed d S) }
    ensures rows { tables.new.rows ≡ tables.old.rows }
    ensures place { IfOk result (λ d. HasPlace (served_change d) tables.new.room) }
    ensures next { IfOk result (IsNextOf floor.now.now.drawn) }
{
    let Some(act) = act_of(&request.route, request.method) else {
        return Ok(Served::Done(Done::Refused(Reason::Http(HttpRefusal::NoRoute))));
    };
    if let Err(reason) = room_for(now.counted, request.size) {
        return Ok(Served::Done(Done::Refused(reason)));
    }
    let holder = match asker(tenants, &request.key) {
        Ok(holder) => holder,
        Err(reason) => return Ok(Served::Done(Done::Refused(reason))),
    };
    match act {
        Act::Reads(reading) => Ok(Served::Done(read(
            alloc, holder, floor, tables, reading, request,
        )?)),
        act => called_served(
            alloc, tenants, holder, keeping, floor, tables, now, act, request,
        ),
    }
}

// The outcome of a change, an invocation or a fire.
fn called_served(
    alloc: Global,
    tenants: &Tenants,
    holder: &Holder,
    keeping: &Keeping,
    floor: &Floor,
    tables: &mut Tables,
    now: Now,
    act: Act,
    request: &Request,
) -> Result<Served, NoMemory>
    ensures done { IfOk result (λ d. (S : Sight) (k : CountsView) → IsSeen S tenants.now tables.old.rows k keeping.now floor.now.now now → served_of S d ≡ called_done S holder.now act (parts_of request.now)) }
    ensures commit { IfOk result (λ d. (S : Sight) (k : CountsView) → IsSeen S tenants.now tables.old.rows k keeping.now floor.now.now now → CommitsServed d S) }
    ensures rows { tables.new.rows ≡ tables.old.rows }
    ensures place { IfOk result (λ d. HasPlace (served_change d) tables.new.room) }
    ensures next { IfOk result (IsNextOf floor.now.now.drawn) }
{
    match granted_call(alloc, holder, tables, act, request)? {
        Ok(call) => call_served(
            alloc, tenants, holder, keeping, floor, tables, now, act, call,
        ),
        Err(reason) => Ok(Served::Done(Done::Refused(reason))),
    }
}

fn call_served(
    alloc: Global,
    tenants: &Tenants,
    holder: &Holder,
    keeping: &Keeping,
    floor: &Floor,
    tables: &mut Tables,
    now: Now,
    act: Act,
    call: Call,
) -> Result<Served, NoMemory>
    ensures done { IfOk result (λ d. (S : Sight) (k : CountsView) → IsSeen S tenants.now tables.old.rows k keeping.now floor.now.now now → served_of S d ≡ change_done S holder.now act call) }
    ensures commit { IfOk result (λ d. (S : Sight) (k : CountsView) → IsSeen S tenants.now tables.old.rows k keeping.now floor.now.now now → CommitsServed d S) }
    ensures rows { tables.new.rows ≡ tables.old.rows }
    ensures place { IfOk result (λ d. HasPlace (served_change d) tables.new.room) }
    ensures next { IfOk result (IsNextOf floor.now.now.drawn) }
{
    match act {
        Act::Invokes => {
            let served = invoked(alloc, tenants, holder, floor, tables, now, &call);
            drop(call);
            served
        }
        Act::Fires => {
            let served = fired(alloc, tenants, holder, floor, tables, now, &call);
            drop(call);
            served
        }
        act => done_served(changed(alloc, keeping, tables, act, call)),
    }
}

fn done_served(done: Result<Done, NoMemory>) -> Result<Served, NoMemory>
    ensures ok { IfOk done (λ d. result ≡ Ok (served.Done d)) }
    ensures err { IfErr done (λ e. result ≡ Err e) }
{
    match done {
        Ok(done) => Ok(Served::Done(done)),
        Err(e) => Err(e),
    }
}

// The outcome of a put, a removal or a status. A read is no call.
fn changed(
    alloc: Global,
    keeping: &Keeping,
    tables: &mut Tables,
    act: Act,
    call: Call,
) -> Result<Done, NoMemory>
    requires invokes { act ≢ Act.Invokes }
    requires fires { act ≢ Act.Fires }
    ensures done { IfOk result (λ d. (S : Sight) (h : Holder) → S.rows ≡ tables.old.rows → StandsForKept keeping.now S.others S.rows S.trace → done_of d ≡ change_done S h act call) }
    ensures commit { IfOk result (λ d. (S : Sight) → S.rows ≡ tables.old.rows → StandsForKept keeping.now S.others S.rows S.trace → CommitsDone d S) }
    ensures rows { tables.new.rows ≡ tables.old.rows }
    ensures place { IfOk result (λ d. HasPlace (change_of d) tables.new.room) }
{
    match act {
        Act::Puts => put(alloc, keeping, tables, call),
        Act::Removes(kind) => {
            let done = removed(alloc, keeping, tables, kind, &call);
            drop(call);
            done
        }
        Act::Sets => {
            let done = set(alloc, keeping, tables, &call);
            drop(call);
            done
        }
        Act::Reads(_) => {
            drop(call);
            Ok(Done::Refused(Reason::Http(HttpRefusal::NoRoute)))
        }
        Act::Invokes | Act::Fires => unreachable!(),
    }
}

// What is to be accepted, or why it is not.
fn invoked(
    alloc: Global,
    tenants: &Tenants,
    holder: &Holder,
    floor: &Floor,
    tables: &Tables,
    now: Now,
    call: &Call,
) -> Result<Served, NoMemory>
    ensures done { IfOk result (λ d. (S : Sight) (k : CountsView) (b : KeepingView) → IsSeen S tenants.now tables.now.rows k b floor.now.now now → served_of S d ≡ change_done S holder.now Act.Invokes call.now) }
    ensures commit { IfOk result (λ d. (S : Sight) → CommitsServed d S) }
    ensures change { IfOk result (λ d. served_change d ≡ None) }
    ensures next { IfOk result (IsNextOf floor.now.now.drawn) }
{
    let Some(name) = &call.name else {
        return Ok(Served::Done(Done::Refused(Reason::Http(HttpRefusal::NoRoute))));
    };
    let plan = invocation_plan(
        alloc,
        tenants,
        floor,
        tables,
        now,
        &holder.subject,
        charged_namespace(holder, name),
        call.blocking,
        name,
        &call.params,
    )?;
    match plan {
        Ok(plan) => Ok(Served::Accepts {
            plan,
            shows: shows_of(call.result_only),
        }),
        Err(reason) => Ok(Served::Done(Done::Refused(reason))),
    }
}

fn put(alloc: Global, keeping: &Keeping, tables: &mut Tables, call: Call) -> Result<Done, NoMemory>
    ensures done { IfOk result (λ d. (S : Sight) (h : Holder) → S.rows ≡ tables.old.rows → StandsForKept keeping.now S.others S.rows S.trace → done_of d ≡ change_done S h Act.Puts call) }
    ensures commit { IfOk result (λ d. (S : Sight) → S.rows ≡ tables.old.rows → StandsForKept keeping.now S.others S.rows S.trace → CommitsDone d S) }
    ensures rows { tables.new.rows ≡ tables.old.rows }
    ensures place { IfOk result (λ d. HasPlace (change_of d) tables.new.room) }
{
    let Call {
        draft,
        overwrite,
        ..
    } = call;
    match draft {
        Some(draft) => put_draft(alloc, keeping, tables, draft, overwrite),
        None => Ok(Done::Refused(Reason::Http(HttpRefusal::NoRoute))),
    }
}

fn put_draft(
    alloc: Global,
    keeping: &Keeping,
    tables: &mut Tables,
    draft: Draft,
    overwrite: bool,
) -> Result<Done, NoMemory>
    ensures done { IfOk result (λ d. (S : Sight) → S.rows ≡ tables.old.rows → StandsForKept keeping.now S.others S.rows S.trace → done_of d ≡ put_done S draft overwrite) }
    ensures commit { IfOk result (λ d. (S : Sight) → S.rows ≡ tables.old.rows → StandsForKept keeping.now S.others S.rows S.trace → CommitsDone d S) }
    ensures rows { tables.new.rows ≡ tables.old.rows }
    ensures place { IfOk result (λ d. HasPlace (change_of d) tables.new.room) }
{
    match tables.prepare_put(alloc, draft, overwrite) {
        Ok(ready) => put_ready(alloc, keeping, tables, ready),
        Err(TableRefusal::NoMemory) => Err(NoMemory),
        Err(refusal) => Ok(Done::Refused(table_reason(refusal))),
    }
}

// A put that was made ready, where the store has room for it.
fn put_ready(
    alloc: Global,
    keeping: &Keeping,
    tables: &Tables,
    ready: Ready,
) -> Result<Done, NoMemory>
    requires puts { ready.removes ≡ false }
    ensures done { IfOk result (λ d. (S : Sight) → S.rows ≡ tables.now.rows → StandsForKept keeping.now S.others S.rows S.trace → done_of d ≡ row_done S ready.row) }
    ensures commit { IfOk result (λ d. (S : Sight) → S.rows ≡ tables.now.rows → StandsForKept keeping.now S.others S.rows S.trace → CommitsDone d S) }
    ensures change { IfOk result (λ d. IfSome (change_of d) (λ c. c ≡ ready)) }
{
    let Ok(commit) = changing(alloc, keeping, tables, &ready) else {
        drop(ready);
        return Err(NoMemory);
    };
    if is_store_full(commit.bytes()) {
        drop((ready, commit));
        return Ok(Done::Refused(Reason::Service(ServiceRefusal::KeptFull)));
    }
    put_shown(alloc, tables, ready, commit)
}

// The same, with the row as it is shown after the put.
fn put_shown(
    alloc: Global,
    tables: &Tables,
    ready: Ready,
    commit: Following,
) -> Result<Done, NoMemory>
    ensures done { IfOk result (λ d. done_of d ≡ Ok (asking.Changed ready (shown_row (with_row ready.row tables.now.rows) ready.row))) }
    ensures change { IfOk result (λ d. change_of d ≡ Some ready) }
    ensures commit { IfOk result (λ d. (S : Sight) → IsFollowingOf commit (row_changes ready) S.others (rows_changed ready S.rows) S.trace → CommitsDone d S) }
{
    match shown_once_put(alloc, tables, ready.row()) {
        Ok(shown) => Ok(Done::Changed {
            ready,
            shown,
            commit,
        }),
        Err(e) => {
            drop((ready, commit));
            Err(e)
        }
    }
}

fn removed(
    alloc: Global,
    keeping: &Keeping,
    tables: &mut Tables,
    kind: EntityKind,
    call: &Call,
) -> Result<Done, NoMemory>
    ensures done { IfOk result (λ d. (S : Sight) (h : Holder) → S.rows ≡ tables.old.rows → done_of d ≡ change_done S h (Act.Removes kind) call.now) }
    ensures commit { IfOk result (λ d. (S : Sight) → S.rows ≡ tables.old.rows → StandsForKept keeping.now S.others S.rows S.trace → CommitsDone d S) }
    ensures rows { tables.new.rows ≡ tables.old.rows }
    ensures place { IfOk result (λ d. HasPlace (change_of d) tables.new.room) }
{
    let Some(name) = &call.name else {
        return Ok(Done::Refused(Reason::Http(HttpRefusal::NoRoute)));
    };
    match tables.prepare_remove(alloc, kind, name) {
        Ok(ready) => removal_ready(alloc, keeping, tables, ready),
        Err(TableRefusal::NoMemory) => Err(NoMemory),
        Err(refusal) => Ok(Done::Refused(table_reason(refusal))),
    }
}

// A removal that was made ready: the store has room for it always.
fn removal_ready(
    alloc: Global,
    keeping: &Keeping,
    tables: &Tables,
    ready: Ready,
) -> Result<Done, NoMemory>
    ensures done { IfOk result (λ d. done_of d ≡ Ok (asking.Changed ready (shown_row tables.now.rows ready.row))) }
    ensures commit { IfOk result (λ d. (S : Sight) → S.rows ≡ tables.now.rows → StandsForKept keeping.now S.others S.rows S.trace → CommitsDone d S) }
    ensures change { IfOk result (λ d. change_of d ≡ Some ready) }
{
    let Ok(commit) = changing(alloc, keeping, tables, &ready) else {
        drop(ready);
        return Err(NoMemory);
    };
    removal_shown(alloc, tables, ready, commit)
}

// The same, with the row as it is still shown.
fn removal_shown(
    alloc: Global,
    tables: &Tables,
    ready: Ready,
    commit: Following,
) -> Result<Done, NoMemory>
    ensures done { IfOk result (λ d. done_of d ≡ Ok (asking.Changed ready (shown_row tables.now.rows ready.row))) }
    ensures change { IfOk result (λ d. change_of d ≡ Some ready) }
    ensures commit { IfOk result (λ d. (S : Sight) → IsFollowingOf commit (row_changes ready) S.others (rows_changed ready S.rows) S.trace → CommitsDone d S) }
{
    match shown_row(alloc, tables, ready.row()) {
        Ok(shown) => Ok(Done::Changed {
            ready,
            shown,
            commit,
        }),
        Err(e) => {
            drop((ready, commit));
            Err(e)
        }
    }
}

// The outcome of setting a status. A rule that has the status already stays as it is.
fn set(alloc: Global, keeping: &Keeping, tables: &mut Tables, call: &Call) -> Result<Done, NoMemory>
    ensures done { IfOk result (λ d. (S : Sight) (h : Holder) → S.rows ≡ tables.old.rows → done_of d ≡ change_done S h Act.Sets call.now) }
    ensures commit { IfOk result (λ d. (S : Sight) → S.rows ≡ tables.old.rows → StandsForKept keeping.now S.others S.rows S.trace → CommitsDone d S) }
    ensures rows { tables.new.rows ≡ tables.old.rows }
    ensures place { IfOk result (λ d. HasPlace (change_of d) tables.new.room) }
{
    let Some(name) = &call.name else {
        return Ok(Done::Refused(Reason::Http(HttpRefusal::NoRoute)));
    };
    let Some(active) = call.active else {
        return Ok(Done::Refused(Reason::Http(HttpRefusal::NoRoute)));
    };
    set_named(alloc, keeping, tables, name, active)
}

fn set_named(
    alloc: Global,
    keeping: &Keeping,
    tables: &mut Tables,
    name: &FullName,
    active: bool,
) -> Result<Done, NoMemory>
    ensures done { IfOk result (λ d. (S : Sight) → S.rows ≡ tables.old.rows → done_of d ≡ named_set S name.now active) }
    ensures commit { IfOk result (λ d. (S : Sight) → S.rows ≡ tables.old.rows → StandsForKept keeping.now S.others S.rows S.trace → CommitsDone d S) }
    ensures rows { tables.new.rows ≡ tables.old.rows }
    ensures place { IfOk result (λ d. HasPlace (change_of d) tables.new.room) }
{
    match set_status(alloc, tables, name, active) {
        Ok(Some(ready)) => status_ready(alloc, keeping, tables, ready),
        Ok(None) => status_shown(alloc, tables, name),
        Err(TableRefusal::NoMemory) => Err(NoMemory),
        Err(refusal) => Ok(Done::Refused(table_reason(refusal))),
    }
}

// A rule with its status that was made ready: whether the store has room for it isn't tested.
fn status_ready(
    alloc: Global,
    keeping: &Keeping,
    tables: &Tables,
    ready: Ready,
) -> Result<Done, NoMemory>
    ensures done { IfOk result (λ d. done_of d ≡ Ok (asking.Changed ready (shown_row (with_row ready.row tables.now.rows) ready.row))) }
    ensures commit { IfOk result (λ d. (S : Sight) → S.rows ≡ tables.now.rows → StandsForKept keeping.now S.others S.rows S.trace → CommitsDone d S) }
    ensures change { IfOk result (λ d. change_of d ≡ Some ready) }
{
    let Ok(commit) = changing(alloc, keeping, tables, &ready) else {
        drop(ready);
        return Err(NoMemory);
    };
    put_shown(alloc, tables, ready, commit)
}

// The rule of the name.
fn status_shown(alloc: Global, tables: &Tables, name: &FullName) -> Result<Done, NoMemory>
    ensures done { IfOk result (λ d. (r : Rule) → rule_at (standing tables.now.rows) name.now ≡ Some r → done_of d ≡ Ok (asking.Shown (shown_row tables.now.rows (rows.Rule r)))) }
    ensures change { IfOk result (λ d. change_of d ≡ None) }
{
    match tables.get(EntityKind::Rule, name) {
        Ok(row) => Ok(Done::Shown(shown_row(alloc, tables, row)?)),
        Err(refusal) => Ok(Done::Refused(table_reason(refusal))),
    }
}
