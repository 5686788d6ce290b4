// Which activation a rule makes of a fire, and what the record of the fire says of it.
ghost use Rattle.std.specs.Prelude.{◌≡◌, ◌+◌, ◌++◌, ◌∷◌, [], List, None, Ok, IfOk, OnOk};
ghost use Rattle.ow_names.specs.FullName as names;
ghost use Rattle.ow_value.specs.Find.{with_pair};
ghost use Rattle.ow_value.specs.Text.{compact};
ghost use Rattle.ow_value.specs.Value.{members_of, object, text};
ghost use Rattle.ow_value.specs.View.{view};
ghost use Rattle.ow_floor.specs.Calls.{accept_items, moved};
ghost use Rattle.ow_floor.specs.Laws.{Grows, Stands};
ghost use Rattle.ow_floor.specs.Trace.{Trace};
ghost use Rattle.ow_floor.specs.View.{Shown, last_of};
ghost use Rattle.ow_entity.specs.declared.rows.Row.{Row};
ghost use Rattle.ow_decide.specs.Calling.{next_id, plan_for};
ghost use Rattle.ow_decide.specs.Firing.{after_rule, called_rule, made_value, merged_rule, refused_value, rule_line, rule_plan, seeing};
ghost use Rattle.ow_decide.specs.Making.{IsUnderway};
ghost use Rattle.ow_decide.specs.Sight.{Sight, within_limits};
ghost use Rattle.ow_tables.specs.Rows.{standing};
ghost use Rattle.ow_trees.specs.Steps.{steps_after};

use crate::call_steps::{Callee, callee_in, given_over, plan_for};
use crate::reasons::limit_reason;
use crate::step::Now;
use ow_counts::Counts;
use ow_entity::Rule;
use ow_floor::{Floor, Moved, Moves, Plan};
use ow_http::{Reason, ServiceRefusal, reason_text};
use ow_names::{EntityName, FullName, full_text};
use ow_packages::Effective;
use ow_records::{Fire, Id};
use ow_tables::Tables;
use ow_tenant::Tenants;
use ow_value::{Fields, NoMemory, Params, Str, Val, Whole, val_text};
use std::alloc::Global;

/// Does what a rule makes of a fire on the floor, and notes it as a line. The rule makes an activation, unless it is refused.
pub(crate) fn take_rule(
    alloc: Global,
    tenants: &Tenants,
    counts: &Counts,
    floor: &mut Floor,
    tables: &Tables,
    now: Now,
    fire: &Fire,
    rule: &Rule,
    moves: &mut Moves,
    lines: &mut Vec<Str>,
) -> Result<(), NoMemory>
    ensures ok { OnOk result ((S : Sight) (items : Trace) → IsUnderway S items tenants.now tables.now.rows counts.now now floor.old.now moves.old
        → IsUnderway S (after_rule S fire.now rule.now items) tenants.now tables.now.rows counts.now now floor.new.now moves.new) }
    ensures line { OnOk result ((S : Sight) (items : Trace) → IsUnderway S items tenants.now tables.now.rows counts.now now floor.old.now moves.old
        → lines.new.items ≡ lines.old.items ++ rule_line rule.now (rule_plan (seeing items S) fire.now rule.now) ∷ []) }
    ensures firing { OnOk result (floor.new.now.firing ≡ floor.old.now.firing) }
    ensures before { floor.new.before ≡ floor.old.before }
{
    match rule_plan(
        alloc,
        tenants,
        counts,
        floor,
        tables,
        now,
        fire,
        rule,
        moves.items(),
    )? {
        Ok(plan) => accept_rule(alloc, floor, tables, now.at, rule, plan, moves, lines),
        Err(reason) => refuse_rule(alloc, rule, reason, lines),
    }
}

// Accepts the plan of a rule, with the steps that the plan makes, and notes its line.
fn accept_rule(
    alloc: Global,
    floor: &mut Floor,
    tables: &Tables,
    at: u64,
    rule: &Rule,
    plan: Plan,
    moves: &mut Moves,
    lines: &mut Vec<Str>,
) -> Result<(), NoMemory>
    requires next { plan.id.count ≡ last_of floor.old.now.drawn plan.id.namespace + 1 }
    ensures ok { OnOk result (Grows floor.old.now floor.new.now (λ T. steps_after (standing tables.now.rows) at T (accept_items at plan))) }
    ensures moved { OnOk result ((T : Trace) → Stands floor.old.now T → moves.new ≡ moves.old ++ moved (steps_after (standing tables.now.rows) at T (accept_items at plan))) }
    ensures line { OnOk result (lines.new.items ≡ lines.old.items ++ compact (made_value rule.now plan.id) ∷ []) }
    ensures firing { OnOk result (floor.new.now.firing ≡ floor.old.now.firing) }
    ensures before { floor.new.before ≡ floor.old.before }
{
    if note_made(alloc, rule, plan.id, lines).is_err() {
        drop(plan);
        return Err(NoMemory);
    }
    ow_trees::accept(alloc, tables, floor, at, plan, moves)
}

// The line of a rule that made the activation of this id.
fn note_made(alloc: Global, rule: &Rule, id: Id, lines: &mut Vec<Str>) -> Result<(), NoMemory>
    ensures { OnOk result (lines.new.items ≡ lines.old.items ++ compact (made_value rule.now id) ∷ []) }
{
    let made = made_value(alloc, rule, id)?;
    note_line(alloc, made, lines)
}

// The line of a rule that is refused.
fn refuse_rule(
    alloc: Global,
    rule: &Rule,
    reason: Reason,
    lines: &mut Vec<Str>,
) -> Result<(), NoMemory>
    ensures { OnOk result (lines.new.items ≡ lines.old.items ++ compact (refused_value rule.now reason) ∷ []) }
{
    let refused = refused_value(alloc, rule, &reason);
    drop(reason);
    note_line(alloc, refused?, lines)
}

fn note_line(alloc: Global, value: Val, lines: &mut Vec<Str>) -> Result<(), NoMemory>
    ensures { OnOk result (lines.new.items ≡ lines.old.items ++ compact (view value) ∷ []) }
{
    let line = val_text(alloc, &value);
    drop(value);
    lines.push(line?)?;
    Ok(())
}

fn made_value(alloc: Global, rule: &Rule, id: Id) -> Result<Val, NoMemory>
    ensures { IfOk result (λ v. view v ≡ made_value rule.now id) }
{
    let mut fields = Fields::new(alloc);
    put_made(alloc, &mut fields, rule, id)?;
    Ok(Val::Object(fields.into_params()?))
}

fn put_made(alloc: Global, fields: &mut Fields, rule: &Rule, id: Id) -> Result<(), NoMemory>
    requires { fields.old ≡ [] }
    ensures { OnOk result (object (members_of fields.new) ≡ made_value rule.now id) }
{
    put_name(alloc, fields, "action", &rule.action)?;
    put(alloc, fields, "activationId", Val::Text(id.text(alloc)?))?;
    put_name(alloc, fields, "rule", &rule.name)
}

fn refused_value(alloc: Global, rule: &Rule, reason: &Reason) -> Result<Val, NoMemory>
    ensures { IfOk result (λ v. view v ≡ refused_value rule.now reason.now) }
{
    let mut fields = Fields::new(alloc);
    put_refused(alloc, &mut fields, rule, reason)?;
    Ok(Val::Object(fields.into_params()?))
}

fn put_refused(
    alloc: Global,
    fields: &mut Fields,
    rule: &Rule,
    reason: &Reason,
) -> Result<(), NoMemory>
    requires { fields.old ≡ [] }
    ensures { OnOk result (object (members_of fields.new) ≡ refused_value rule.now reason.now) }
{
    put_name(alloc, fields, "action", &rule.action)?;
    let number = Whole::of_u64(u64::from(reason.number()));
    put(alloc, fields, "code", Val::Int(number))?;
    put(
        alloc,
        fields,
        "error",
        Val::Text(reason_text(alloc, reason)?),
    )?;
    put_name(alloc, fields, "rule", &rule.name)
}

fn put_name(
    alloc: Global,
    fields: &mut Fields,
    member: &str,
    name: &FullName,
) -> Result<(), NoMemory>
    ensures { OnOk result (fields.new ≡ with_pair fields.old member.now (text (names.full_text name.now))) }
{
    let name = Str::from_string(full_text(alloc, name)?)?;
    put(alloc, fields, member, Val::Text(name))
}

fn put(alloc: Global, fields: &mut Fields, member: &str, value: Val) -> Result<(), NoMemory>
    ensures { OnOk result (fields.new ≡ with_pair fields.old member.now (view value)) }
{
    let Ok(member) = Str::of(alloc, member) else {
        drop(value);
        return Err(NoMemory);
    };
    fields.set(member, value)
}

// The activation that a rule makes after these moves, or why it makes none. Nothing is done yet.
fn rule_plan(
    alloc: Global,
    tenants: &Tenants,
    counts: &Counts,
    floor: &Floor,
    tables: &Tables,
    now: Now,
    fire: &Fire,
    rule: &Rule,
    moves: &[Moved],
) -> Result<Result<Plan, Reason>, NoMemory>
    ensures plan { IfOk result (λ p. (S : Sight) (items : Trace) → IsUnderway S items tenants.now tables.now.rows counts.now now floor.now.now moves.now
        → p ≡ rule_plan (seeing items S) fire.now rule.now) }
    ensures next { IfOk result (λ p. IfOk p (λ q. q.id.count ≡ last_of floor.now.now.drawn q.id.namespace + 1)) }
{
    match callee_in(alloc, tenants, tables, &rule.action, &fire.namespace)? {
        Some(called) => called_rule(alloc, tenants, counts, floor, now, fire, moves, called),
        None => Ok(Err(Reason::Service(ServiceRefusal::NotFound))),
    }
}

// The same for the callee of the rule's action.
fn called_rule(
    alloc: Global,
    tenants: &Tenants,
    counts: &Counts,
    floor: &Floor,
    now: Now,
    fire: &Fire,
    moves: &[Moved],
    called: Callee,
) -> Result<Result<Plan, Reason>, NoMemory>
    ensures plan { IfOk result (λ p. (S : Sight) (items : Trace) (rs : List Row) → IsUnderway S items tenants.now rs counts.now now floor.now.now moves.now
        → p ≡ called_rule (seeing items S) fire.now called) }
    ensures next { IfOk result (λ p. IfOk p (λ q. q.id.count ≡ last_of floor.now.now.drawn q.id.namespace + 1)) }
{
    let Callee { number, effective } = called;
    match given_over(alloc, &effective, &fire.params, false) {
        Ok(Ok(merged)) => merged_rule(
            alloc, tenants, counts, floor, now, fire, moves, number, effective, merged,
        ),
        Ok(Err(reason)) => {
            drop(effective);
            Ok(Err(reason))
        }
        Err(e) => {
            drop(effective);
            Err(e)
        }
    }
}

// The same with merged parameters.
fn merged_rule(
    alloc: Global,
    tenants: &Tenants,
    counts: &Counts,
    floor: &Floor,
    now: Now,
    fire: &Fire,
    moves: &[Moved],
    number: u64,
    effective: Effective,
    merged: Params,
) -> Result<Result<Plan, Reason>, NoMemory>
    ensures plan { IfOk result (λ p. (S : Sight) (items : Trace) (rs : List Row) → IsUnderway S items tenants.now rs counts.now now floor.now.now moves.now
        → p ≡ merged_rule (seeing items S) fire.now (record { number = number; effective = effective }) merged) }
    ensures next { IfOk result (λ p. IfOk p (λ q. q.id.count ≡ last_of floor.now.now.drawn q.id.namespace + 1)) }
{
    match within_limits(tenants, counts, &fire.namespace, now.at, moves) {
        Ok(Ok(())) => next_plan(alloc, floor, fire, number, effective, merged),
        Ok(Err(reason)) => {
            drop((effective, merged));
            Ok(Err(reason))
        }
        Err(e) => {
            drop((effective, merged));
            Err(e)
        }
    }
}

// Whether the limits allow one more invocation that is charged to the namespace, after these moves.
fn within_limits(
    tenants: &Tenants,
    counts: &Counts,
    namespace: &EntityName,
    at: u64,
    moves: &[Moved],
) -> Result<Result<(), Reason>, NoMemory>
    ensures { IfOk result (λ r. (S : Sight) (items : Trace) (rs : List Row) (v : Shown) (now : Now) → now.at ≡ at → IsUnderway S items tenants.now rs counts.now now v moves.now
        → r ≡ within_limits (seeing items S) namespace.now) }
{
    match counts.admit_after(moves, namespace, &tenants.limits_of(namespace), at)? {
        Ok(()) => Ok(Ok(())),
        Err(refusal) => Ok(Err(limit_reason(refusal))),
    }
}

// The plan under the next id of the namespace.
fn next_plan(
    alloc: Global,
    floor: &Floor,
    fire: &Fire,
    number: u64,
    effective: Effective,
    merged: Params,
) -> Result<Result<Plan, Reason>, NoMemory>
    ensures plan { IfOk result (λ p. (S : Sight) → Stands floor.now.now S.trace → p ≡ Ok (plan_for fire.now.subject None (next_id S number) fire.now.namespace effective merged)) }
    ensures next { IfOk result (λ p. IfOk p (λ q. q.id.count ≡ last_of floor.now.now.drawn q.id.namespace + 1)) }
{
    let Some(count) = floor.last(number).checked_add(1) else {
        drop((effective, merged));
        return Err(NoMemory);
    };
    let id = Id {
        namespace: number,
        count,
    };
    let plan = plan_for(
        alloc,
        &fire.subject,
        None,
        id,
        &fire.namespace,
        effective,
        merged,
    )?;
    Ok(Ok(plan))
}
