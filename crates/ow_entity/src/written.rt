// Entities as clients see them.
ghost use Rattle.std.specs.Prelude.{◌≡◌, pos, map, Ok, IfOk, OnOk};
ghost use Rattle.ow_value.specs.Value.{whole, text};
ghost use Rattle.ow_value.specs.Find.{with_pair};
ghost use Rattle.ow_value.specs.View.{view};
ghost use Rattle.ow_names.specs.FullName.{full_text};
ghost use Rattle.ow_entity.specs.declared.kinds.EntityKind.TheVariants as kinds;
ghost use Rattle.ow_entity.specs.declared.actions.Action.{Action};
ghost use Rattle.ow_entity.specs.declared.rows.Row.TheVariants as rows;
ghost use Rattle.ow_entity.specs.Finish.{row_of_body};
ghost use Rattle.ow_entity.specs.Written.{code_value, exec_value, name_value, sequence_value, IsReadIn, limits_value, shown_namespace, shown_version, action_value, binding_value, package_value, rule_value, trigger_value, row_value, summary_of, summary_value, entry_of, package_entry};

use crate::actions::Action;
use crate::bounds::Limits;
use crate::exec::Exec;
use crate::finishing::FIRST_VERSION;
use crate::packages::Package;
use crate::pairs::listed;
use crate::rows::Row;
use crate::rule_body::status_text;
use crate::rules::Rule;
use crate::triggers::Trigger;
use ow_names::{FullName, full_text};
use ow_value::{Fields, NoMemory, Params, PlainData, Str, Val, Vals, Whole, kept_beside};
use std::alloc::Global;

impl Limits {
    /// The limits as an object.
    pub fn value(self, alloc: Global) -> Result<Val, NoMemory>
        ensures { IfOk result (λ v. view v ≡ limits_value self) }
    {
        let fields = Fields::new(alloc);
        let fields = with(alloc, fields, "logs", number(self.logs.get()))?;
        let fields = with(alloc, fields, "memory", number(self.memory.get()))?;
        let fields = with(alloc, fields, "timeout", number(self.timeout.get()))?;
        Ok(Val::Object(fields.into_params()?))
    }
}

/// The row as a client sees it.
#[tactic(auto, unfolding(crate::specs::Written::row_value))]
pub fn write_entity(alloc: Global, row: &Row) -> Result<Val, NoMemory>
    ensures value { IfOk result (λ v. view v ≡ row_value row.now) }
    ensures reads_back { IfOk result (λ v. (a : Action) → row.now ≡ rows.Action a → IsReadIn a.name.namespace a.exec
        → row_of_body kinds.Action a.name (view v) ≡ Ok (rows.Action (record a { version = FIRST_VERSION }))) }
{
    match row {
        Row::Action(action) => write_action(alloc, action.get()),
        Row::Package(package) => write_package(alloc, package.get()),
        Row::Rule(rule) => write_rule(alloc, rule.get()),
        Row::Trigger(trigger) => write_trigger(alloc, trigger.get()),
    }
}

/// What lists show of the row.
#[tactic(auto, unfolding(crate::specs::Written::summary_value))]
pub fn summary(alloc: Global, row: &Row) -> Result<Val, NoMemory>
    ensures { IfOk result (λ v. view v ≡ summary_value row.now) }
{
    match row {
        Row::Action(action) => {
            let action = action.get();
            summary_of(
                alloc,
                &action.name,
                action.notes.get(),
                action.publish,
                action.version,
            )
        }
        Row::Package(package) => {
            let package = package.get();
            summary_of(
                alloc,
                &package.name,
                package.notes.get(),
                package.publish,
                package.version,
            )
        }
        Row::Rule(rule) => {
            let rule = rule.get();
            summary_of(
                alloc,
                &rule.name,
                rule.notes.get(),
                rule.publish,
                rule.version,
            )
        }
        Row::Trigger(trigger) => {
            let trigger = trigger.get();
            summary_of(
                alloc,
                &trigger.name,
                trigger.notes.get(),
                trigger.publish,
                trigger.version,
            )
        }
    }
}

/// What a package shows of a row that lies in it.
#[tactic(auto, unfolding(crate::specs::Written::package_entry))]
pub fn package_entry(alloc: Global, row: &Row) -> Result<Val, NoMemory>
    ensures { IfOk result (λ v. view v ≡ package_entry row.now) }
{
    match row {
        Row::Action(action) => {
            let action = action.get();
            entry_of(alloc, &action.name, action.notes.get(), action.version)
        }
        Row::Package(bundle) => {
            let bundle = bundle.get();
            entry_of(alloc, &bundle.name, bundle.notes.get(), bundle.version)
        }
        Row::Rule(rule) => {
            let rule = rule.get();
            entry_of(alloc, &rule.name, rule.notes.get(), rule.version)
        }
        Row::Trigger(trigger) => {
            let trigger = trigger.get();
            entry_of(alloc, &trigger.name, trigger.notes.get(), trigger.version)
        }
    }
}

fn write_action(alloc: Global, action: &Action) -> Result<Val, NoMemory>
    ensures value { IfOk result (λ v. view v ≡ action_value action.now) }
    ensures reads_back { IfOk result (λ v. IsReadIn action.now.name.namespace action.now.exec → row_of_body kinds.Action action.now.name (view v) ≡ Ok (rows.Action (record action.now { version = FIRST_VERSION }))) }
{
    let shown = action_value(alloc, action)?;
    action.known();
    Ok(shown)
}

fn action_value(alloc: Global, action: &Action) -> Result<Val, NoMemory>
    ensures { IfOk result (λ v. view v ≡ action_value action.now) }
{
    let name = &action.name;
    let notes = listed(alloc, action.notes.get())?;
    let fields = with(alloc, Fields::new(alloc), "annotations", Val::List(notes))?;
    let (fields, exec) = kept_beside(fields, exec_value(alloc, &action.exec))?;
    let fields = with(alloc, fields, "exec", exec)?;
    let (fields, limits) = kept_beside(fields, action.limits.value(alloc))?;
    let fields = with(alloc, fields, "limits", limits)?;
    let (fields, shown) = kept_beside(fields, text(alloc, name.name.as_str()))?;
    let fields = with(alloc, fields, "name", shown)?;
    let (fields, namespace) = kept_beside(fields, shown_namespace(alloc, name))?;
    let fields = with(alloc, fields, "namespace", namespace)?;
    let (fields, params) = kept_beside(fields, listed(alloc, action.params.get()))?;
    let fields = with(alloc, fields, "parameters", Val::List(params))?;
    let fields = with(alloc, fields, "publish", Val::Bool(action.publish))?;
    let (fields, version) = kept_beside(fields, shown_version(alloc, action.version))?;
    let fields = with(alloc, fields, "version", version)?;
    Ok(Val::Object(fields.into_params()?))
}

fn write_package(alloc: Global, bundle: &Package) -> Result<Val, NoMemory>
    ensures { IfOk result (λ v. view v ≡ package_value bundle.now) }
{
    let name = &bundle.name;
    let notes = listed(alloc, bundle.notes.get())?;
    let fields = with(alloc, Fields::new(alloc), "annotations", Val::List(notes))?;
    let (fields, binding) = kept_beside(fields, binding_value(alloc, &bundle.binding))?;
    let fields = with(alloc, fields, "binding", binding)?;
    let (fields, shown) = kept_beside(fields, text(alloc, name.name.as_str()))?;
    let fields = with(alloc, fields, "name", shown)?;
    let (fields, namespace) = kept_beside(fields, shown_namespace(alloc, name))?;
    let fields = with(alloc, fields, "namespace", namespace)?;
    let (fields, params) = kept_beside(fields, listed(alloc, bundle.params.get()))?;
    let fields = with(alloc, fields, "parameters", Val::List(params))?;
    let fields = with(alloc, fields, "publish", Val::Bool(bundle.publish))?;
    let (fields, version) = kept_beside(fields, shown_version(alloc, bundle.version))?;
    let fields = with(alloc, fields, "version", version)?;
    Ok(Val::Object(fields.into_params()?))
}

fn write_rule(alloc: Global, rule: &Rule) -> Result<Val, NoMemory>
    ensures { IfOk result (λ v. view v ≡ rule_value rule.now) }
{
    let name = &rule.name;
    let action = full_name(alloc, &rule.action)?;
    let fields = with(alloc, Fields::new(alloc), "action", action)?;
    let (fields, notes) = kept_beside(fields, listed(alloc, rule.notes.get()))?;
    let fields = with(alloc, fields, "annotations", Val::List(notes))?;
    let (fields, shown) = kept_beside(fields, text(alloc, name.name.as_str()))?;
    let fields = with(alloc, fields, "name", shown)?;
    let (fields, namespace) = kept_beside(fields, shown_namespace(alloc, name))?;
    let fields = with(alloc, fields, "namespace", namespace)?;
    let fields = with(alloc, fields, "publish", Val::Bool(rule.publish))?;
    let (fields, status) = kept_beside(fields, text(alloc, status_text(rule.active)))?;
    let fields = with(alloc, fields, "status", status)?;
    let (fields, trigger) = kept_beside(fields, full_name(alloc, &rule.trigger))?;
    let fields = with(alloc, fields, "trigger", trigger)?;
    let (fields, version) = kept_beside(fields, shown_version(alloc, rule.version))?;
    let fields = with(alloc, fields, "version", version)?;
    Ok(Val::Object(fields.into_params()?))
}

fn write_trigger(alloc: Global, trigger: &Trigger) -> Result<Val, NoMemory>
    ensures { IfOk result (λ v. view v ≡ trigger_value trigger.now) }
{
    let name = &trigger.name;
    let notes = listed(alloc, trigger.notes.get())?;
    let fields = with(alloc, Fields::new(alloc), "annotations", Val::List(notes))?;
    let (fields, shown) = kept_beside(fields, text(alloc, name.name.as_str()))?;
    let fields = with(alloc, fields, "name", shown)?;
    let (fields, namespace) = kept_beside(fields, shown_namespace(alloc, name))?;
    let fields = with(alloc, fields, "namespace", namespace)?;
    let (fields, params) = kept_beside(fields, listed(alloc, trigger.params.get()))?;
    let fields = with(alloc, fields, "parameters", Val::List(params))?;
    let fields = with(alloc, fields, "publish", Val::Bool(trigger.publish))?;
    let (fields, version) = kept_beside(fields, shown_version(alloc, trigger.version))?;
    let fields = with(alloc, fields, "version", version)?;
    Ok(Val::Object(fields.into_params()?))
}

fn full_name(alloc: Global, name: &FullName) -> Result<Val, NoMemory>
    ensures { IfOk result (λ v. view v ≡ text (full_text name.now)) }
{
    Ok(Val::Text(Str::from_string(full_text(alloc, name)?)?))
}

fn binding_value(alloc: Global, binding: &Option<FullName>) -> Result<Val, NoMemory>
    ensures { IfOk result (λ v. view v ≡ binding_value binding.now) }
{
    let mut fields = Fields::new(alloc);
    if let Some(bound) = binding {
        put(
            alloc,
            &mut fields,
            "name",
            text(alloc, bound.name.as_str())?,
        )?;
        let namespace = text(alloc, bound.namespace.as_str())?;
        put(alloc, &mut fields, "namespace", namespace)?;
    }
    Ok(Val::Object(fields.into_params()?))
}

fn summary_of(
    alloc: Global,
    name: &FullName,
    notes: &Params,
    publish: bool,
    version: u32,
) -> Result<Val, NoMemory>
    ensures { IfOk result (λ v. view v ≡ summary_of name.now notes.now publish version) }
{
    let notes = listed(alloc, notes)?;
    let fields = with(alloc, Fields::new(alloc), "annotations", Val::List(notes))?;
    let (fields, shown) = kept_beside(fields, text(alloc, name.name.as_str()))?;
    let fields = with(alloc, fields, "name", shown)?;
    let (fields, namespace) = kept_beside(fields, shown_namespace(alloc, name))?;
    let fields = with(alloc, fields, "namespace", namespace)?;
    let fields = with(alloc, fields, "publish", Val::Bool(publish))?;
    let (fields, version) = kept_beside(fields, shown_version(alloc, version))?;
    let fields = with(alloc, fields, "version", version)?;
    Ok(Val::Object(fields.into_params()?))
}

fn entry_of(alloc: Global, name: &FullName, notes: &Params, version: u32) -> Result<Val, NoMemory>
    ensures { IfOk result (λ v. view v ≡ entry_of name.now notes.now version) }
{
    let notes = listed(alloc, notes)?;
    let fields = with(alloc, Fields::new(alloc), "annotations", Val::List(notes))?;
    let (fields, shown) = kept_beside(fields, text(alloc, name.name.as_str()))?;
    let fields = with(alloc, fields, "name", shown)?;
    let (fields, version) = kept_beside(fields, shown_version(alloc, version))?;
    let fields = with(alloc, fields, "version", version)?;
    Ok(Val::Object(fields.into_params()?))
}

fn exec_value(alloc: Global, exec: &Exec) -> Result<Val, NoMemory>
    ensures { IfOk result (λ v. view v ≡ exec_value exec.now) }
{
    match exec {
        Exec::Plain { code } => code_value(alloc, exec.kind(), code.get()),
        Exec::Program { code } => code_value(alloc, exec.kind(), code.get()),
        Exec::Sequence { components } => sequence_value(alloc, components.get().as_slice()),
    }
}

fn code_value(alloc: Global, kind: &str, code: &Str) -> Result<Val, NoMemory>
    ensures { IfOk result (λ v. view v ≡ code_value kind.now code.now) }
{
    let mut fields = Fields::new(alloc);
    put(alloc, &mut fields, "code", Val::Text(code.copy(alloc)?))?;
    put(alloc, &mut fields, "kind", text(alloc, kind)?)?;
    Ok(Val::Object(fields.into_params()?))
}

fn sequence_value(alloc: Global, components: &[FullName]) -> Result<Val, NoMemory>
    ensures { IfOk result (λ v. view v ≡ sequence_value components.now) }
{
    let mut fields = Fields::new(alloc);
    let names = name_values(alloc, components)?;
    put(alloc, &mut fields, "components", Val::List(names))?;
    put(alloc, &mut fields, "kind", text(alloc, "sequence")?)?;
    Ok(Val::Object(fields.into_params()?))
}

fn name_values(alloc: Global, names: &[FullName]) -> Result<Vals, NoMemory>
    ensures { IfOk result (λ vs. vs ≡ map name_value names.now) }
{
    let mut items = Vec::new(alloc);
    for name in names {
        let item = full_name(alloc, name)?;
        items.push(item)?;
    }
    Vals::from_vec(items)
}

fn shown_namespace(alloc: Global, name: &FullName) -> Result<Val, NoMemory>
    ensures { IfOk result (λ v. view v ≡ text (shown_namespace name.now.namespace name.now.package)) }
{
    let namespace = name.namespace.as_str();
    match &name.package {
        None => text(alloc, namespace),
        Some(package) => {
            let package = package.as_str();
            let shown = format!(in alloc; "{namespace}/{package}")?;
            Ok(Val::Text(Str::from_string(shown)?))
        }
    }
}

fn shown_version(alloc: Global, version: u32) -> Result<Val, NoMemory>
    ensures { IfOk result (λ v. view v ≡ text (shown_version version)) }
{
    let shown = format!(in alloc; "0.0.{version}")?;
    Ok(Val::Text(Str::from_string(shown)?))
}

fn number(n: u32) -> Val
    ensures { view result ≡ whole (pos n) }
{
    Val::Int(Whole::of_u64(n as u64))
}

fn text(alloc: Global, s: &str) -> Result<Val, NoMemory>
    ensures { IfOk result (λ v. view v ≡ text s.now) }
{
    Ok(Val::Text(Str::of(alloc, s)?))
}

pub(crate) fn put(
    alloc: Global,
    fields: &mut Fields,
    name: &str,
    value: Val,
) -> Result<(), NoMemory>
    ensures { OnOk result (fields.new ≡ with_pair fields.old name.now (view value)) }
{
    fields.set(Str::of(alloc, name)?, value)
}

// The fields with the value under the name.
fn with(alloc: Global, fields: Fields, name: &str, value: Val) -> Result<Fields, NoMemory>
    ensures { IfOk result (λ f. f ≡ with_pair fields name.now (view value)) }
{
    let mut fields = fields;
    put(alloc, &mut fields, name, value)?;
    Ok(fields)
}
