// Entities with another version.
ghost use Rattle.std.specs.Prelude.{◌≡◌, IfOk};
ghost use Rattle.ow_entity.specs.Row.{with_version};
ghost use Rattle.ow_entity.specs.declared.rows.Row.TheVariants as entities;

use crate::actions::Action;
use crate::packages::Package;
use crate::rows::Row;
use crate::rules::Rule;
use crate::triggers::Trigger;
use ow_value::{NoMemory, PlainData, Shared};
use std::alloc::Global;

/// A copy of the entity with this version.
pub fn with_version(alloc: Global, row: &Row, version: u32) -> Result<Row, NoMemory>
    ensures { IfOk result (λ r. r ≡ with_version version row.now) }
{
    match row {
        Row::Action(action) => action_with(alloc, action.get(), version),
        Row::Package(bundle) => package_with(alloc, bundle.get(), version),
        Row::Rule(rule) => rule_with(alloc, rule.get(), version),
        Row::Trigger(trigger) => trigger_with(alloc, trigger.get(), version),
    }
}

fn action_with(alloc: Global, action: &Action, version: u32) -> Result<Row, NoMemory>
    ensures { IfOk result (λ r. r ≡ with_version version (entities.Action action.now)) }
{
    let mut copy = action.copy(alloc)?;
    copy.version = version;
    Ok(Row::Action(Shared::new(alloc, copy)?))
}

fn package_with(alloc: Global, bundle: &Package, version: u32) -> Result<Row, NoMemory>
    ensures { IfOk result (λ r. r ≡ with_version version (entities.Package bundle.now)) }
{
    let mut copy = bundle.copy(alloc)?;
    copy.version = version;
    Ok(Row::Package(Shared::new(alloc, copy)?))
}

fn rule_with(alloc: Global, rule: &Rule, version: u32) -> Result<Row, NoMemory>
    ensures { IfOk result (λ r. r ≡ with_version version (entities.Rule rule.now)) }
{
    let mut copy = rule.copy(alloc)?;
    copy.version = version;
    Ok(Row::Rule(Shared::new(alloc, copy)?))
}

fn trigger_with(alloc: Global, trigger: &Trigger, version: u32) -> Result<Row, NoMemory>
    ensures { IfOk result (λ r. r ≡ with_version version (entities.Trigger trigger.now)) }
{
    let mut copy = trigger.copy(alloc)?;
    copy.version = version;
    Ok(Row::Trigger(Shared::new(alloc, copy)?))
}
