// What the types of items guarantee of them. These functions only look at items.
ghost use Rattle.std.specs.Prelude.{◌<◌, ◌^◌, IfSome};
ghost use Rattle.std.specs.List.{AllByRecursion};
ghost use Rattle.std.specs.Str.{IsUtf8};
ghost use Rattle.ow_names.specs.FullName.{IsFullName};
ghost use Rattle.ow_value.specs.Json.{IsObject};
ghost use Rattle.ow_entity.specs.Exec.{exec_code};
ghost use Rattle.ow_entity.specs.Fit.{IsFitPairs};
ghost use Rattle.ow_entity.specs.FitAction.{IsFitExec, IsFitLimits};
ghost use Rattle.ow_row_text.specs.declared.item.Item.TheVariants as items;
ghost use Rattle.ow_keep.specs.Known.{IsItem, IsKnownAction, IsKnownEntity, IsKnownPackage, IsKnownRule, IsKnownTrigger};

use ow_entity::{Action, EntityParams, Exec, Limits, Package, Row, Rule, Trigger};
use ow_names::FullName;
use ow_records::{known_record, known_unrecorded};
use ow_row_text::{Archive, Item, Note};

/// Makes known what the types of the item's parts guarantee.
pub fn known_item(item: &Item)
    ensures { IsItem item.now }
{
    match item {
        Item::Version(_) => {}
        Item::Archive(archive) => known_archive(*archive),
        Item::Count { namespace, count } => known_count(*namespace, *count),
        Item::Note(note) => known_note(note),
        Item::Row(row) => known_entity(row),
        Item::Open(activation) => known_unrecorded(activation),
        Item::Done(ended) => known_record(ended),
    }
}

fn known_archive(archive: Archive)
    ensures { IsItem (items.Archive archive) }
{
    known_count(archive.last, archive.number);
}

fn known_count(namespace: u64, count: u64)
    ensures { IsItem (items.Count namespace count) }
{}

fn known_note(note: &Note)
    ensures { IsItem (items.Note note.now) }
{
    note.key.as_str();
    known_number(note.value);
}

fn known_number(number: u64)
    ensures { number < 2 ^ 64 }
{}

/// Makes known what the types of the entity's fields guarantee.
pub fn known_entity(row: &Row)
    ensures { IsKnownEntity row.now }
{
    match row {
        Row::Action(action) => known_action(action.get()),
        Row::Package(bundle) => known_package(bundle.get()),
        Row::Rule(rule) => known_rule(rule.get()),
        Row::Trigger(trigger) => known_trigger(trigger.get()),
    }
}

/// Makes known what the types of the entities' fields guarantee.
pub fn known_entities(rows: &[Row])
    ensures { AllByRecursion IsKnownEntity rows.now }
{
    let mut rest = rows;
    while let [row, after @ ..] = rest {
        known_entity(row);
        rest = after;
    }
}

fn known_action(action: &Action)
    ensures { IsKnownAction action.now }
{
    known_name(&action.name);
    known_version(action.version);
    known_pairs(&action.params);
    known_pairs(&action.notes);
    known_exec(&action.exec);
    known_limits(action.limits);
}

fn known_package(bundle: &Package)
    ensures { IsKnownPackage bundle.now }
{
    known_name(&bundle.name);
    known_version(bundle.version);
    known_pairs(&bundle.params);
    known_pairs(&bundle.notes);
    known_binding(&bundle.binding);
}

fn known_rule(rule: &Rule)
    ensures { IsKnownRule rule.now }
{
    known_name(&rule.name);
    known_version(rule.version);
    known_pairs(&rule.notes);
    known_name(&rule.trigger);
    known_name(&rule.action);
}

fn known_trigger(trigger: &Trigger)
    ensures { IsKnownTrigger trigger.now }
{
    known_name(&trigger.name);
    known_version(trigger.version);
    known_pairs(&trigger.params);
    known_pairs(&trigger.notes);
}

fn known_name(name: &FullName)
    ensures { IsFullName name.now }
{
    name.namespace.as_str();
    if let Some(package) = &name.package {
        package.as_str();
    }
    name.name.as_str();
}

fn known_binding(binding: &Option<FullName>)
    ensures { IfSome binding.now IsFullName }
{
    match binding {
        Some(bound) => known_name(bound),
        None => {}
    }
}

fn known_version(version: u32)
    ensures { version < 2 ^ 32 }
{}

fn known_pairs(pairs: &EntityParams)
    ensures object { IsObject pairs.now }
    ensures fits { IsFitPairs pairs.now }
{
    pairs.get().pairs();
}

fn known_exec(exec: &Exec)
    ensures code { IsUtf8 (exec_code exec.now) }
    ensures fits { IsFitExec exec.now }
{
    exec.known();
}

fn known_limits(limits: Limits)
    ensures { IsFitLimits limits }
{
    limits.timeout.get();
    limits.memory.get();
    limits.logs.get();
}
