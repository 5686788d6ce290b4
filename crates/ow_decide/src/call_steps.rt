// Invocations of actions: by requests, and the office's own.
ghost use Rattle.std.specs.Prelude.{◌≡◌, ◌+◌, ◌++◌, List, None, Ok, Some, IfOk, OnOk};
ghost use Rattle.ow_counts.specs.Counts.{admitted};
ghost use Rattle.ow_counts.specs.View.{CountsView};
ghost use Rattle.ow_floor.specs.Laws.{IsSound, Stands};
ghost use Rattle.ow_floor.specs.View.{Shown, last_of};
ghost use Rattle.ow_floor.specs.declared.activations.Plan.{Plan};
ghost use Rattle.ow_commits.specs.Keeping.{KeepingView};
ghost use Rattle.ow_tenant.specs.Table.{Table};
ghost use Rattle.ow_tenant.specs.Tenants.{limits_of};
ghost use Rattle.ow_decide.specs.Calling.{admitted_plan, call_decision, call_plan, called_decision, called_plan, callee_in, charged_namespace, first_depth, fitting, given_over, invocation_plan, merged_plan, pairs_of, plan_for, plan_items, until_of};
ghost use Rattle.ow_decide.specs.Sight.{Sight};
ghost use Rattle.ow_decide.specs.Making.{AreCounted, Carries, IsMade, IsSeen, IsTaken, Makes};

use crate::commits::{Made, admit_made, made_of};
use crate::events::Told;
use crate::replies::Called;
use crate::room::room_for;
use crate::step::{Now, RowChange, Step};
use crate::waits::Waits;
use ow_commits::Keeping;
use ow_compose::form_of;
use ow_counts::{Counts, LimitRefusal};
use ow_entity::{Action, EntityRefusal};
use ow_floor::{Floor, Happened, Moves, Plan};
use ow_http::{CallRefusal, Reason, ServiceRefusal};
use ow_names::{EntityName, FullName};
use ow_packages::{Effective, PackageRefusal, check_override, effective};
use ow_reads::office;
use ow_records::{Form, Id, Role};
use ow_tables::Tables;
use ow_tenant::{Holder, Right, Tenants};
use ow_value::{MEGABYTE, NoMemory, Params, PlainData, Str, Val, merge, size};
use std::alloc::Global;

/// How long a blocking invocation waits at most, in milliseconds.
const MOST_WAITED: u64 = 60_000;

/// What is called: the number of the namespace that is charged, and what the name calls.
#[derive(Drop)]
pub(crate) struct Callee {
    pub(crate) number: u64,
    pub(crate) effective: Effective,
}

/// What is done at a call: the action is accepted, unless the call is refused.
pub(crate) fn call(
    alloc: Global,
    tenants: &Tenants,
    counts: &Counts,
    keeping: &Keeping,
    floor: &mut Floor,
    tables: &Tables,
    now: Now,
    name: &FullName,
    params: &Params,
) -> Result<Step, NoMemory>
    requires held { floor.old.before ≡ Some floor.old.now }
    ensures ok { IfOk result (Makes tenants.now tables.now.rows counts.now keeping.now now floor.old.now floor.new.now (λ S. call_decision S (call_plan S name.now params.now))) }
    ensures change { IfOk result (λ s. s.change ≡ RowChange.Nothing) }
    ensures before { floor.new.before ≡ floor.old.before }
{
    match call_plan(alloc, tenants, floor, tables, now, name, params)? {
        Ok(plan) => {
            let taken = taken_plan(alloc, tenants, counts, keeping, floor, tables, now, plan)?;
            called(alloc, taken)
        }
        Err(reason) => Ok(Step::telling(alloc, Told::Called(Called::Refused(reason)))),
    }
}

// The step that answers a call whose plan was accepted or refused.
fn called(alloc: Global, taken: Result<Made, Reason>) -> Result<Step, NoMemory>
    ensures ok { IfOk result (λ s. (S : Sight) (plan : Plan) (v : Shown) → IsTaken taken plan S v → Carries s (called_decision S (admitted_plan S plan)) S) }
    ensures change { IfOk result (λ s. s.change ≡ RowChange.Nothing) }
{
    match taken {
        Ok(made) => happened(alloc, made),
        Err(reason) => Ok(Step::telling(alloc, Told::Called(Called::Refused(reason)))),
    }
}

// The step that answers a call whose plan was accepted.
fn happened(alloc: Global, made: Made) -> Result<Step, NoMemory>
    ensures ok { IfOk result (λ s. (S : Sight) (plan : Plan) → IsMade made (plan_items S plan) S → Carries s (called_decision S (Ok plan)) S) }
    ensures change { IfOk result (λ s. s.change ≡ RowChange.Nothing) }
{
    let Ok(happened) = Happened::of_moves(alloc, made.moves.items()) else {
        drop(made);
        return Err(NoMemory);
    };
    let Made { moves, commit } = made;
    Ok(Step {
        told: Told::Called(Called::Happened(happened)),
        change: RowChange::Nothing,
        waits: Waits::Keep,
        moves,
        commit: Some(commit),
        others: None,
    })
}

// ---- what is done on the floor

/// Accepts a plan on the floor, with the steps that it makes, where the store has room for them and the limits allow the plan. Otherwise
/// the floor stays as it was.
pub(crate) fn taken_plan(
    alloc: Global,
    tenants: &Tenants,
    counts: &Counts,
    keeping: &Keeping,
    floor: &mut Floor,
    tables: &Tables,
    now: Now,
    plan: Plan,
) -> Result<Result<Made, Reason>, NoMemory>
    requires next { plan.id.count ≡ last_of floor.old.now.drawn plan.id.namespace + 1 }
    requires held { floor.old.before ≡ Some floor.old.now }
    ensures ok { IfOk result (λ taken. (S : Sight) → IsSeen S tenants.now tables.now.rows counts.now keeping.now floor.old.now now → IsTaken taken plan S floor.new.now) }
    ensures before { floor.new.before ≡ floor.old.before }
{
    let limit = within_limits(tenants, counts, &plan.namespace, now.at);
    let made = made_plan(alloc, keeping, floor, tables, now, plan)?;
    match admit_made(made.commit.bytes(), limit) {
        Ok(()) => Ok(Ok(made)),
        Err(reason) => {
            drop(made);
            floor.back();
            Ok(Err(reason))
        }
    }
}

// What the limits say of one more invocation that is charged to the namespace.
fn within_limits(
    tenants: &Tenants,
    counts: &Counts,
    namespace: &EntityName,
    at: u64,
) -> Result<(), LimitRefusal>
    ensures { (S : Sight) → S.tenants ≡ tenants.now → IsSound S.trace → S.moment ≡ at → AreCounted counts.now at S.trace
        → result ≡ admitted S.trace namespace.now (limits_of namespace.now S.tenants) S.moment }
{
    counts.admit(namespace, &tenants.limits_of(namespace), at)
}

// The plan is accepted on the floor, with the steps that it makes, and what is committed of them is made ready.
fn made_plan(
    alloc: Global,
    keeping: &Keeping,
    floor: &mut Floor,
    tables: &Tables,
    now: Now,
    plan: Plan,
) -> Result<Made, NoMemory>
    requires next { plan.id.count ≡ last_of floor.old.now.drawn plan.id.namespace + 1 }
    ensures made { IfOk result (λ m. (S : Sight) (t : Table) (k : CountsView) → IsSeen S t tables.now.rows k keeping.now floor.old.now now → IsMade m (plan_items S plan) S) }
    ensures ok { OnOk result ((S : Sight) (t : Table) (k : CountsView) → IsSeen S t tables.now.rows k keeping.now floor.old.now now → Stands floor.new.now (plan_items S plan ++ S.trace)) }
    ensures before { floor.new.before ≡ floor.old.before }
{
    let mut moves = Moves::new(alloc);
    if ow_trees::accept(alloc, tables, floor, now.at, plan, &mut moves).is_err() {
        drop(moves);
        return Err(NoMemory);
    }
    made_of(alloc, keeping, moves)
}

// ---- what is to be accepted

// What is to be accepted by a call of the office, or why not. Nothing is done yet.
fn call_plan(
    alloc: Global,
    tenants: &Tenants,
    floor: &Floor,
    tables: &Tables,
    now: Now,
    name: &FullName,
    params: &Params,
) -> Result<Result<Plan, Reason>, NoMemory>
    ensures plan { IfOk result (λ p. (S : Sight) (k : CountsView) (b : KeepingView) → IsSeen S tenants.now tables.now.rows k b floor.now.now now → p ≡ call_plan S name.now params.now) }
    ensures next { IfOk result (λ p. IfOk p (λ q. q.id.count ≡ last_of floor.now.now.drawn q.id.namespace + 1)) }
{
    if let Err(reason) = room_for(now.counted, 0) {
        return Ok(Err(reason));
    }
    let subject = office(alloc)?;
    invocation_plan(
        alloc,
        tenants,
        floor,
        tables,
        now,
        &subject,
        &name.namespace,
        false,
        name,
        params,
    )
}

/// What is to be accepted in the name of a subject, or why not. Nothing is done yet.
pub(crate) fn invocation_plan(
    alloc: Global,
    tenants: &Tenants,
    floor: &Floor,
    tables: &Tables,
    now: Now,
    subject: &Str,
    namespace: &EntityName,
    blocking: bool,
    name: &FullName,
    params: &Params,
) -> Result<Result<Plan, Reason>, NoMemory>
    ensures plan { IfOk result (λ p. (S : Sight) (k : CountsView) (b : KeepingView) → IsSeen S tenants.now tables.now.rows k b floor.now.now now
        → p ≡ invocation_plan S subject.now namespace.now blocking name.now params.now) }
    ensures next { IfOk result (λ p. IfOk p (λ q. q.id.count ≡ last_of floor.now.now.drawn q.id.namespace + 1)) }
{
    match callee_in(alloc, tenants, tables, name, namespace)? {
        Some(called) => called_plan(
            alloc, floor, now, subject, namespace, blocking, false, called, params,
        ),
        None => Ok(Err(Reason::Service(ServiceRefusal::NotFound))),
    }
}

/// What is to be accepted for this callee, or why not. `web` is true where a web request makes the call.
pub(crate) fn called_plan(
    alloc: Global,
    floor: &Floor,
    now: Now,
    subject: &Str,
    namespace: &EntityName,
    blocking: bool,
    web: bool,
    called: Callee,
    params: &Params,
) -> Result<Result<Plan, Reason>, NoMemory>
    ensures plan { IfOk result (λ p. (S : Sight) → Stands floor.now.now S.trace → S.moment ≡ now.at
        → p ≡ called_plan S subject.now namespace.now blocking web called params.now) }
    ensures next { IfOk result (λ p. IfOk p (λ q. q.id.count ≡ last_of floor.now.now.drawn q.id.namespace + 1)) }
{
    let Callee { number, effective } = called;
    match given_over(alloc, &effective, params, web) {
        Ok(Ok(merged)) => merged_plan(
            alloc, floor, now, subject, namespace, blocking, number, effective, merged,
        ),
        Ok(Err(reason)) => {
            drop(effective);
            Ok(Err(reason))
        }
        Err(e) => {
            drop(effective);
            Err(e)
        }
    }
}

// The same with merged parameters.
fn merged_plan(
    alloc: Global,
    floor: &Floor,
    now: Now,
    subject: &Str,
    namespace: &EntityName,
    blocking: bool,
    number: u64,
    effective: Effective,
    merged: Params,
) -> Result<Result<Plan, Reason>, NoMemory>
    ensures plan { IfOk result (λ p. (S : Sight) → Stands floor.now.now S.trace → S.moment ≡ now.at
        → p ≡ merged_plan S subject.now namespace.now blocking (record { number = number; effective = effective }) merged) }
    ensures next { IfOk result (λ p. IfOk p (λ q. q.id.count ≡ last_of floor.now.now.drawn q.id.namespace + 1)) }
{
    if floor.is_draining() {
        return Ok(Err(Reason::Service(ServiceRefusal::Draining)));
    }
    let until = until_of(now.at, blocking, effective.action.get())?;
    let Some(count) = floor.last(number).checked_add(1) else {
        return Err(NoMemory);
    };
    let id = Id {
        namespace: number,
        count,
    };
    let plan = plan_for(alloc, subject, until, id, namespace, effective, merged)?;
    Ok(Ok(plan))
}

// The moment until which a blocking invocation waits. A moment that would pass its type is answered as running out of memory.
fn until_of(at: u64, blocking: bool, action: &Action) -> Result<Option<u64>, NoMemory>
    ensures { IfOk result (λ until. until ≡ until_of at blocking action.now) }
{
    if !blocking {
        return Ok(None);
    }
    let wait = MOST_WAITED.min(u64::from(action.limits.timeout.get()));
    match at.checked_add(wait) {
        Some(until) => Ok(Some(until)),
        None => Err(NoMemory),
    }
}

/// The plan of an invocation under this id, with these merged parameters.
pub(crate) fn plan_for(
    alloc: Global,
    subject: &Str,
    until: Option<u64>,
    id: Id,
    namespace: &EntityName,
    effective: Effective,
    params: Params,
) -> Result<Plan, NoMemory>
    ensures { IfOk result (λ p. p ≡ plan_for subject.now until id namespace.now effective params) }
{
    let subject = subject.copy(alloc)?;
    let namespace = namespace.copy(alloc)?;
    let form = form_of(effective.action.get());
    Ok(Plan {
        id,
        namespace,
        effective,
        params,
        subject,
        cause: None,
        until,
        form,
        role: Role::Alone,
        top: id,
        depth: first_depth(form),
    })
}

// The depth of a first activation of this form in its composition.
fn first_depth(form: Form) -> u32
    ensures { result ≡ first_depth form }
{
    if form.is_composite() { 1 } else { 0 }
}

/// Which namespace is charged for an invocation: the caller's own where it has no right on that of the action.
pub(crate) fn charged_namespace<'a>(holder: &'a Holder, name: &'a FullName) -> &'a EntityName
    ensures { result.now ≡ charged_namespace holder.now name.now }
{
    if holder.may(name.namespace.as_str().as_bytes(), Right::Invoke) {
        &name.namespace
    } else {
        &holder.home
    }
}

/// What the name calls for a caller in the namespace, where that namespace has a number.
pub(crate) fn callee_in(
    alloc: Global,
    tenants: &Tenants,
    tables: &Tables,
    name: &FullName,
    namespace: &EntityName,
) -> Result<Option<Callee>, NoMemory>
    ensures { IfOk result (λ c. c ≡ callee_in tenants.now tables.now.rows name.now namespace.now) }
{
    let Some(number) = tenants.number_of(namespace) else {
        return Ok(None);
    };
    match effective(alloc, tables, name, namespace) {
        Ok(effective) => Ok(Some(Callee { number, effective })),
        Err(PackageRefusal::NoMemory) => Err(NoMemory),
        Err(_) => Ok(None),
    }
}

/// The given parameters merged over those of what is called. They are refused where one of them is fixed, or where the merged parameters
/// have too many bytes.
pub(crate) fn given_over(
    alloc: Global,
    called: &Effective,
    given: &Params,
    web: bool,
) -> Result<Result<Params, Reason>, NoMemory>
    ensures { IfOk result (λ r. r ≡ given_over called.now given.now web) }
{
    match check_override(alloc, called, given, web) {
        Ok(()) => match fitting(alloc, &called.params, given)? {
            Some(merged) => Ok(Ok(merged)),
            None => Ok(Err(Reason::Call(CallRefusal::BadEntity(EntityRefusal::TooLarge)))),
        },
        Err(PackageRefusal::Fixed { name }) => Ok(Err(Reason::Fixed { name })),
        Err(_) => Err(NoMemory),
    }
}

/// The given parameters merged over these, unless the merged parameters have too many bytes.
#[tactic(auto, unfolding(crate::specs::Calling::is_oversized))]
pub(crate) fn fitting(
    alloc: Global,
    own: &Params,
    given: &Params,
) -> Result<Option<Params>, NoMemory>
    ensures { IfOk result (λ p. p ≡ fitting own.now given.now) }
{
    let merged = Val::Object(merge(alloc, own, given)?);
    if size(&merged) > MEGABYTE {
        return Ok(None);
    }
    Ok(pairs_of(merged))
}

// The pairs of an object.
fn pairs_of(value: Val) -> Option<Params>
    ensures { result ≡ pairs_of value }
{
    match value {
        Val::Object(pairs) => Some(pairs),
        _ => None,
    }
}
