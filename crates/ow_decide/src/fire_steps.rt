// Fires of triggers: what is fired, what the rules make of it, and what of it is kept.
ghost use Rattle.std.specs.Prelude.{◌≡◌, ◌+◌, ◌++◌, [], None, Some, IfOk, OnOk, option_copied};
ghost use Rattle.ow_counts.specs.Counts.{fire_admitted};
ghost use Rattle.ow_counts.specs.View.{CountsView};
ghost use Rattle.ow_floor.specs.Calls.{draw_items, moved};
ghost use Rattle.ow_floor.specs.Laws.{Stands};
ghost use Rattle.ow_floor.specs.Trace.{Trace};
ghost use Rattle.ow_floor.specs.View.{last_of};
ghost use Rattle.ow_commits.specs.Keeping.{KeepingView};
ghost use Rattle.ow_tables.specs.Joined.{trigger_at};
ghost use Rattle.ow_tables.specs.Rows.{standing};
ghost use Rattle.ow_tenant.specs.Tenants.{limits_of};
ghost use Rattle.ow_decide.specs.Asking.{ask_decision, at_once, change_done, rules_done, shot_done};
ghost use Rattle.ow_decide.specs.Firing.{after_rules, fire_plan, rule_lines, shot_items};
ghost use Rattle.ow_decide.specs.Making.{AreCounted, CommitsServed, IsMade, IsNextOf, IsSeen, IsUnderway, Makes, served_change, served_of};
ghost use Rattle.ow_decide.specs.Sight.{Sight};
ghost use Rattle.ow_decide.specs.Waiting.{accepted_answer};
ghost use Rattle.ow_reads.specs.declared.acts.Act.{Act};

use crate::call_steps::fitting;
use crate::commits::{Made, admit_made, made_of};
use crate::done::{Done, Served};
use crate::events::Told;
use crate::replies::Reply;
use crate::rule_steps::take_rule;
use crate::step::{Now, RowChange, Step};
use crate::waits::{Waits, accepted_answer};
use ow_commits::Keeping;
use ow_counts::{Counts, LimitRefusal};
use ow_entity::{EntityKind, EntityRefusal, Lookup, Row, Trigger};
use ow_floor::{Floor, Moves};
use ow_http::{Call, CallRefusal, HttpRefusal, Reason, ServiceRefusal};
use ow_names::{EntityName, FullName};
use ow_records::{Fire, Id, trigger_record};
use ow_rules::Rules;
use ow_tables::Tables;
use ow_tenant::{Holder, Tenants};
use ow_value::{Lines, NoMemory, Params, Str, copied3};
use std::alloc::Global;

// ---- what is fired

/// The outcome of a fire. Nothing is done yet.
pub(crate) fn fired(
    alloc: Global,
    tenants: &Tenants,
    holder: &Holder,
    floor: &Floor,
    tables: &Tables,
    now: Now,
    call: &Call,
) -> Result<Served, NoMemory>
    ensures done { IfOk result (λ d. (S : Sight) (k : CountsView) (b : KeepingView) → IsSeen S tenants.now tables.now.rows k b floor.now.now now
        → served_of S d ≡ change_done S holder.now Act.Fires call.now) }
    ensures commit { IfOk result (λ d. (S : Sight) → CommitsServed d S) }
    ensures change { IfOk result (λ d. served_change d ≡ None) }
    ensures next { IfOk result (IsNextOf floor.now.now.drawn) }
{
    let Some(name) = &call.name else {
        return Ok(Served::Done(Done::Refused(Reason::Http(HttpRefusal::NoRoute))));
    };
    let Some(trigger) = trigger_at(tables, name) else {
        return Ok(Served::Done(Done::Refused(Reason::Service(ServiceRefusal::NotFound))));
    };
    let Some(number) = tenants.number_of(&name.namespace) else {
        return Ok(Served::Done(Done::Refused(Reason::Service(ServiceRefusal::NotFound))));
    };
    let rules = ow_rules::fired(alloc, tables, name)?;
    rules_served(
        alloc,
        floor,
        now,
        &holder.subject,
        name,
        number,
        trigger,
        &call.params,
        rules,
    )
}

/// The trigger of the name.
pub(crate) fn trigger_at<'a>(tables: &'a Tables, name: &FullName) -> Option<&'a Trigger>
    ensures { option_copied result ≡ trigger_at (standing tables.now.rows) name.now }
{
    match tables.row(EntityKind::Trigger, name) {
        Some(Row::Trigger(trigger)) => Some(trigger.get()),
        _ => None,
    }
}

// The outcome of a fire of these rules.
fn rules_served(
    alloc: Global,
    floor: &Floor,
    now: Now,
    subject: &Str,
    name: &FullName,
    number: u64,
    trigger: &Trigger,
    given: &Params,
    rules: Rules,
) -> Result<Served, NoMemory>
    ensures done { IfOk result (λ d. (S : Sight) → Stands floor.now.now S.trace → S.moment ≡ now.at
        → served_of S d ≡ rules_done S subject.now name.now number trigger.now given.now rules) }
    ensures commit { IfOk result (λ d. (S : Sight) → CommitsServed d S) }
    ensures change { IfOk result (λ d. served_change d ≡ None) }
    ensures next { IfOk result (IsNextOf floor.now.now.drawn) }
{
    if rules.is_empty() {
        drop(rules);
        return Ok(Served::Done(Done::Quiet));
    }
    match fire_plan(alloc, floor, now, subject, name, number, trigger, given) {
        Ok(Ok(fire)) => Ok(Served::Fires { fire, rules }),
        Ok(Err(reason)) => {
            drop(rules);
            Ok(Served::Done(Done::Refused(reason)))
        }
        Err(e) => {
            drop(rules);
            Err(e)
        }
    }
}

/// The fire, where the merged parameters have not too many bytes, and the floor takes calls.
pub(crate) fn fire_plan(
    alloc: Global,
    floor: &Floor,
    now: Now,
    subject: &Str,
    name: &FullName,
    number: u64,
    trigger: &Trigger,
    given: &Params,
) -> Result<Result<Fire, Reason>, NoMemory>
    ensures plan { IfOk result (λ r. (S : Sight) → Stands floor.now.now S.trace → S.moment ≡ now.at → r ≡ fire_plan S subject.now name.now number trigger.now given.now) }
    ensures next { IfOk result (λ r. IfOk r (λ f. f.id.count ≡ last_of floor.now.now.drawn f.id.namespace + 1)) }
{
    let Some(params) = fitting(alloc, trigger.params.get(), given)? else {
        return Ok(Err(Reason::Call(CallRefusal::BadEntity(EntityRefusal::TooLarge))));
    };
    if floor.is_draining() {
        drop(params);
        return Ok(Err(Reason::Service(ServiceRefusal::Draining)));
    }
    let Some(count) = floor.last(number).checked_add(1) else {
        drop(params);
        return Err(NoMemory);
    };
    let id = Id {
        namespace: number,
        count,
    };
    let fire = fire_under(alloc, now.at, id, subject, name, trigger.version, params)?;
    Ok(Ok(fire))
}

// The fire under this id.
fn fire_under(
    alloc: Global,
    at: u64,
    id: Id,
    subject: &Str,
    name: &FullName,
    version: u32,
    params: Params,
) -> Result<Fire, NoMemory>
    ensures { IfOk result (λ f. f ≡ record { id = id; at = at; name = name.now.name; namespace = name.now.namespace; subject = subject.now; version = version; params = params }) }
{
    let Ok((name, namespace, subject)) = copied3(alloc, &name.name, &name.namespace, subject) else {
        drop(params);
        return Err(NoMemory);
    };
    Ok(Fire {
        id,
        at,
        name,
        namespace,
        subject,
        version,
        params,
    })
}

// ---- what is done

/// What is done at a fire of these rules. Where it is refused, all of it is taken back.
pub(crate) fn shot(
    alloc: Global,
    tenants: &Tenants,
    counts: &Counts,
    keeping: &Keeping,
    floor: &mut Floor,
    tables: &Tables,
    now: Now,
    fire: Fire,
    rules: Rules,
) -> Result<Step, NoMemory>
    requires next { fire.id.count ≡ last_of floor.old.now.drawn fire.id.namespace + 1 }
    requires held { floor.old.before ≡ Some floor.old.now }
    ensures ok { IfOk result (Makes tenants.now tables.now.rows counts.now keeping.now now floor.old.now floor.new.now (λ S. ask_decision (shot_done S fire rules))) }
    ensures change { IfOk result (λ s. s.change ≡ RowChange.Nothing) }
    ensures before { floor.new.before ≡ floor.old.before }
{
    let id = fire.id;
    let limit = within_fires(tenants, counts, &fire.namespace, now.at);
    let made = made_shot(
        alloc, tenants, counts, keeping, floor, tables, now, fire, rules,
    )?;
    match admit_made(made.commit.bytes(), limit) {
        Ok(()) => fired_step(alloc, id, made),
        Err(reason) => {
            drop(made);
            floor.back();
            Done::Refused(reason).step(alloc)
        }
    }
}

/// What the limit of fires says of one more that is charged to the namespace.
pub(crate) fn within_fires(
    tenants: &Tenants,
    counts: &Counts,
    namespace: &EntityName,
    at: u64,
) -> Result<(), LimitRefusal>
    ensures { (S : Sight) → S.tenants ≡ tenants.now → S.moment ≡ at → AreCounted counts.now at S.trace → result ≡ fire_admitted S.trace namespace.now (limits_of namespace.now S.tenants) S.moment }
{
    counts.admit_fire(namespace, &tenants.limits_of(namespace), at)
}

// What is answered of a fire, which is made.
fn fired_step(alloc: Global, id: Id, made: Made) -> Result<Step, NoMemory>
    ensures { IfOk result (λ s. s ≡ record { told = at_once (accepted_answer id); change = RowChange.Nothing; waits = Waits.Keep; moves = made.moves; commit = Some made.commit; others = None }) }
{
    let Ok(answer) = accepted_answer(alloc, id) else {
        drop(made);
        return Err(NoMemory);
    };
    let Made { moves, commit } = made;
    Ok(Step {
        told: Told::Asked(Reply::Now(answer)),
        change: RowChange::Nothing,
        waits: Waits::Keep,
        moves,
        commit: Some(commit),
        others: None,
    })
}

/// All of a fire is done on the floor, and what is committed of it made ready.
pub(crate) fn made_shot(
    alloc: Global,
    tenants: &Tenants,
    counts: &Counts,
    keeping: &Keeping,
    floor: &mut Floor,
    tables: &Tables,
    now: Now,
    fire: Fire,
    rules: Rules,
) -> Result<Made, NoMemory>
    requires next { fire.id.count ≡ last_of floor.old.now.drawn fire.id.namespace + 1 }
    ensures made { IfOk result (λ m. (S : Sight) → IsSeen S tenants.now tables.now.rows counts.now keeping.now floor.old.now now → IsMade m (shot_items S fire rules) S) }
    ensures ok { OnOk result ((S : Sight) → IsSeen S tenants.now tables.now.rows counts.now keeping.now floor.old.now now → Stands floor.new.now (shot_items S fire rules ++ S.trace)) }
    ensures before { floor.new.before ≡ floor.old.before }
{
    let mut moves = Moves::new(alloc);
    let made = shoot(
        alloc, tenants, counts, floor, tables, now, fire, &rules, &mut moves,
    );
    drop(rules);
    match made {
        Ok(()) => made_of(alloc, keeping, moves),
        Err(e) => {
            drop(moves);
            Err(e)
        }
    }
}

// The id is drawn, the rules are followed, and the fire is recorded.
fn shoot(
    alloc: Global,
    tenants: &Tenants,
    counts: &Counts,
    floor: &mut Floor,
    tables: &Tables,
    now: Now,
    fire: Fire,
    rules: &Rules,
    moves: &mut Moves,
) -> Result<(), NoMemory>
    requires next { fire.id.count ≡ last_of floor.old.now.drawn fire.id.namespace + 1 }
    ensures ok { OnOk result ((S : Sight) → IsUnderway S [] tenants.now tables.now.rows counts.now now floor.old.now moves.old → Stands floor.new.now (shot_items S fire rules.now ++ S.trace)) }
    ensures moved { OnOk result ((S : Sight) → IsUnderway S [] tenants.now tables.now.rows counts.now now floor.old.now moves.old → moves.new ≡ moved (shot_items S fire rules.now)) }
    ensures before { floor.new.before ≡ floor.old.before }
{
    match drawn_lines(
        alloc, tenants, counts, floor, tables, now, &fire, rules, moves,
    ) {
        Ok(lines) => floor.fire(alloc, trigger_record(fire, lines), moves),
        Err(e) => {
            drop(fire);
            Err(e)
        }
    }
}

// The id is drawn, and the rules are followed, each of which gives a line.
fn drawn_lines(
    alloc: Global,
    tenants: &Tenants,
    counts: &Counts,
    floor: &mut Floor,
    tables: &Tables,
    now: Now,
    fire: &Fire,
    rules: &Rules,
    moves: &mut Moves,
) -> Result<Lines, NoMemory>
    requires next { fire.now.id.count ≡ last_of floor.old.now.drawn fire.now.id.namespace + 1 }
    ensures ok { OnOk result ((S : Sight) → IsUnderway S [] tenants.now tables.now.rows counts.now now floor.old.now moves.old
        → IsUnderway S (after_rules S fire.now rules.now (draw_items S.moment fire.now.id)) tenants.now tables.now.rows counts.now now floor.new.now moves.new) }
    ensures lines { IfOk result (λ ls. (S : Sight) → IsUnderway S [] tenants.now tables.now.rows counts.now now floor.old.now moves.old
        → ls ≡ rule_lines S fire.now rules.now (draw_items S.moment fire.now.id)) }
    ensures firing { OnOk result (floor.new.now.firing ≡ Some fire.now.id) }
    ensures before { floor.new.before ≡ floor.old.before }
{
    floor.draw(now.at, fire.id, moves)?;
    rule_lines(
        alloc, tenants, counts, floor, tables, now, fire, rules, moves,
    )
}

// The rules are followed, one after another, each of which gives a line.
fn rule_lines(
    alloc: Global,
    tenants: &Tenants,
    counts: &Counts,
    floor: &mut Floor,
    tables: &Tables,
    now: Now,
    fire: &Fire,
    rules: &Rules,
    moves: &mut Moves,
) -> Result<Lines, NoMemory>
    ensures ok { OnOk result ((S : Sight) (items : Trace) → IsUnderway S items tenants.now tables.now.rows counts.now now floor.old.now moves.old
        → IsUnderway S (after_rules S fire.now rules.now items) tenants.now tables.now.rows counts.now now floor.new.now moves.new) }
    ensures lines { IfOk result (λ ls. (S : Sight) (items : Trace) → IsUnderway S items tenants.now tables.now.rows counts.now now floor.old.now moves.old
        → ls ≡ rule_lines S fire.now rules.now items) }
    ensures firing { OnOk result (floor.new.now.firing ≡ floor.old.now.firing) }
    ensures before { floor.new.before ≡ floor.old.before }
{
    let mut lines = Vec::new(alloc);
    for rule in rules.as_slice() {
        let rule = rule.get();
        take_rule(
            alloc, tenants, counts, floor, tables, now, fire, rule, moves, &mut lines,
        )?;
    }
    Lines::from_vec(lines)
}
