// The entity that a value is read as. Reading is lenient: the entity may be written otherwise.
ghost use Rattle.std.specs.Prelude.{◌≡◌, ◌≢◌, Ok, Err, MatchResult, IfOk};
ghost use Rattle.ow_value.specs.View.{view};
ghost use Rattle.ow_entity.specs.Finish.{row_of_body};
ghost use Rattle.ow_entity.specs.Status.{status_in};
ghost use Rattle.ow_entity.specs.declared.rows.Row.TheVariants as rows;
ghost use Rattle.ow_keep.specs.EntityIn.{at_status, at_version, entity_from};

use ow_entity::{EntityKind, EntityRefusal, Row, Rule, finish, read_entity, read_status};
use ow_names::FullName;
use ow_records::version_in;
use ow_value::{NoMemory, PlainData, Shared, Val};
use std::alloc::Global;

/// The entity that the value makes as a body, with the version and the status that are members of the value.
pub(crate) fn entity_from(
    alloc: Global,
    kind: EntityKind,
    name: &FullName,
    value: &Val,
) -> Result<Option<Row>, NoMemory>
    ensures { IfOk result (λ r. r ≡ entity_from kind name.now (view value.now)) }
{
    let Val::Object(fields) = value else {
        return Ok(None);
    };
    let Some(version) = version_in(fields, "version") else {
        return Ok(None);
    };
    match row_of_body(alloc, kind, name, value) {
        Ok(row) => at_status(alloc, value, at_version(alloc, version, &row)?),
        Err(EntityRefusal::NoMemory) => Err(NoMemory),
        Err(_) => Ok(None),
    }
}

#[tactic(auto, unfolding(ow_entity::specs::Finish::row_of_body))]
fn row_of_body(
    alloc: Global,
    kind: EntityKind,
    name: &FullName,
    body: &Val,
) -> Result<Row, EntityRefusal>
    ensures { MatchResult result (λ r. row_of_body kind name.now (view body.now) ≡ Ok r)
        (λ e. e ≢ EntityRefusal.NoMemory → row_of_body kind name.now (view body.now) ≡ Err e) }
{
    let draft = read_entity(alloc, kind, name, body)?;
    finish(alloc, draft, None)
}

// The same entity at another version.
fn at_version(alloc: Global, version: u32, row: &Row) -> Result<Row, NoMemory>
    ensures { IfOk result (λ r. r ≡ at_version version row.now) }
{
    match row {
        Row::Action(action) => {
            let mut copied = action.get().copy(alloc)?;
            copied.version = version;
            Ok(Row::Action(Shared::new(alloc, copied)?))
        }
        Row::Package(bundle) => {
            let mut copied = bundle.get().copy(alloc)?;
            copied.version = version;
            Ok(Row::Package(Shared::new(alloc, copied)?))
        }
        Row::Rule(rule) => {
            let mut copied = rule.get().copy(alloc)?;
            copied.version = version;
            Ok(Row::Rule(Shared::new(alloc, copied)?))
        }
        Row::Trigger(trigger) => {
            let mut copied = trigger.get().copy(alloc)?;
            copied.version = version;
            Ok(Row::Trigger(Shared::new(alloc, copied)?))
        }
    }
}

// A rule with the status in the value; any other entity as it is.
fn at_status(alloc: Global, value: &Val, row: Row) -> Result<Option<Row>, NoMemory>
    ensures { IfOk result (λ r. r ≡ at_status (status_in (view value.now)) row) }
{
    match row {
        Row::Rule(rule) => rule_at_status(alloc, value, rule.get()),
        other => Ok(Some(other)),
    }
}

fn rule_at_status(alloc: Global, value: &Val, rule: &Rule) -> Result<Option<Row>, NoMemory>
    ensures { IfOk result (λ r. r ≡ at_status (status_in (view value.now)) (rows.Rule rule.now)) }
{
    let Ok(active) = read_status(value) else {
        return Ok(None);
    };
    let mut copied = rule.copy(alloc)?;
    copied.active = active;
    Ok(Some(Row::Rule(Shared::new(alloc, copied)?)))
}
