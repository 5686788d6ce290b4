// The draft that a body gives.
ghost use Rattle.std.specs.Prelude.{◌≡◌, ◌≢◌, Some, None, Ok, Err, MatchResult};
ghost use Rattle.ow_value.specs.Value.{members_of, object};
ghost use Rattle.ow_value.specs.View.{view};
ghost use Rattle.ow_entity.specs.declared.kinds.EntityKind.TheVariants as kinds;
ghost use Rattle.ow_entity.specs.Chain.{result_map};
ghost use Rattle.ow_entity.specs.Body.{bool_field, text_field, number_field, number_given, exec_in, exec_field, plain_exec, program_exec, sequence_exec, limits_in, limits_field, draft_of, entity_of};

use crate::actions::ActionDraft;
use crate::bounds::{Bounded, GivenLimits};
use crate::components::components_field;
use crate::exec::{Exec, ProgramName};
use crate::field_name::FieldName;
use crate::kinds::EntityKind;
use crate::package_body::read_package;
use crate::pairs::pairs_field;
use crate::plain_code::PlainCode;
use crate::refusal::EntityRefusal;
use crate::rows::Draft;
use crate::rule_body::read_rule;
use crate::trigger_body::read_trigger;
use ow_names::{EntityName, FullName};
use ow_value::{Params, PlainData, Val, Whole, kept_beside};
use std::alloc::Global;

/// The entity of the kind and the name that a body gives. Of several wrong fields the refusal names the one that is
/// looked at first; fields that the kind hasn't are ignored.
#[tactic(auto, unfolding(crate::specs::Body::entity_of))]
pub fn read_entity(
    alloc: Global,
    kind: EntityKind,
    name: &FullName,
    body: &Val,
) -> Result<Draft, EntityRefusal>
    ensures { MatchResult result (λ d. entity_of kind name.now (view body.now) ≡ Ok d)
        (λ e. e ≢ EntityRefusal.NoMemory → entity_of kind name.now (view body.now) ≡ Err e) }
{
    let Val::Object(fields) = body else {
        return Err(EntityRefusal::WrongType {
            name: FieldName::Body,
        });
    };
    match kind {
        EntityKind::Action => read_action(alloc, name, fields),
        EntityKind::Package => read_package(alloc, name, fields),
        EntityKind::Rule => read_rule(alloc, name, fields),
        EntityKind::Trigger => read_trigger(alloc, name, fields),
    }
}

fn read_action(alloc: Global, name: &FullName, body: &Params) -> Result<Draft, EntityRefusal>
    ensures { MatchResult result (λ d. draft_of kinds.Action name.now (object (members_of body.now)) ≡ Ok d)
        (λ e. e ≢ EntityRefusal.NoMemory → draft_of kinds.Action name.now (object (members_of body.now)) ≡ Err e) }
{
    let notes = pairs_field(alloc, body, FieldName::Annotations)?;
    let pairs = kept_beside(notes, pairs_field(alloc, body, FieldName::Parameters))?;
    let (pairs, publish) = kept_beside(pairs, bool_field(body, FieldName::Publish))?;
    let (pairs, exec) = kept_beside(pairs, exec_field(alloc, body, &name.namespace))?;
    let (given, limits) = kept_beside((pairs, exec), limits_field(body))?;
    let (((notes, params), exec), name) = kept_beside(given, name.copy(alloc))?;
    Ok(Draft::Action(ActionDraft {
        name,
        publish,
        params,
        notes,
        exec,
        limits,
    }))
}

pub(crate) fn bool_field(body: &Params, name: FieldName) -> Result<Option<bool>, EntityRefusal>
    ensures { result ≡ bool_field name (object (members_of body.now)) }
{
    match body.find(name.as_str()) {
        None => Ok(None),
        Some(Val::Bool(b)) => Ok(Some(*b)),
        Some(_) => Err(EntityRefusal::WrongType { name }),
    }
}

fn exec_field(
    alloc: Global,
    body: &Params,
    home: &EntityName,
) -> Result<Option<Exec>, EntityRefusal>
    ensures { MatchResult result (λ x. exec_field home.now (object (members_of body.now)) ≡ Ok x)
        (λ e. e ≢ EntityRefusal.NoMemory → exec_field home.now (object (members_of body.now)) ≡ Err e) }
{
    match body.find("exec") {
        None => Ok(None),
        Some(Val::Object(exec)) => Ok(Some(read_exec(alloc, exec, home)?)),
        Some(_) => Err(EntityRefusal::WrongType {
            name: FieldName::Exec,
        }),
    }
}

fn read_exec(alloc: Global, exec: &Params, home: &EntityName) -> Result<Exec, EntityRefusal>
    ensures { MatchResult result (λ x. exec_in home.now (object (members_of exec.now)) ≡ Ok x)
        (λ e. e ≢ EntityRefusal.NoMemory → exec_in home.now (object (members_of exec.now)) ≡ Err e) }
{
    let kind = text_field(exec, FieldName::Kind)?;
    if kind == "plain:1" {
        return read_plain(alloc, exec);
    }
    if kind == "program:1" {
        return read_program(alloc, exec);
    }
    if kind == "sequence" {
        return read_sequence(alloc, exec, home);
    }
    Err(EntityRefusal::UnknownKind)
}

fn read_plain(alloc: Global, exec: &Params) -> Result<Exec, EntityRefusal>
    ensures { MatchResult result (λ x. plain_exec (object (members_of exec.now)) ≡ Ok x)
        (λ e. e ≢ EntityRefusal.NoMemory → plain_exec (object (members_of exec.now)) ≡ Err e) }
{
    let text = text_field(exec, FieldName::Code)?;
    Ok(Exec::Plain {
        code: PlainCode::read(alloc, text)?,
    })
}

fn read_program(alloc: Global, exec: &Params) -> Result<Exec, EntityRefusal>
    ensures { MatchResult result (λ x. program_exec (object (members_of exec.now)) ≡ Ok x)
        (λ e. e ≢ EntityRefusal.NoMemory → program_exec (object (members_of exec.now)) ≡ Err e) }
{
    let text = text_field(exec, FieldName::Code)?;
    Ok(Exec::Program {
        code: ProgramName::read(alloc, text)?,
    })
}

fn read_sequence(alloc: Global, exec: &Params, home: &EntityName) -> Result<Exec, EntityRefusal>
    ensures { MatchResult result (λ x. sequence_exec home.now (object (members_of exec.now)) ≡ Ok x)
        (λ e. e ≢ EntityRefusal.NoMemory → sequence_exec home.now (object (members_of exec.now)) ≡ Err e) }
{
    Ok(Exec::Sequence {
        components: components_field(alloc, exec, home)?,
    })
}

// A text that must be there.
pub(crate) fn text_field(fields: &Params, name: FieldName) -> Result<&str, EntityRefusal>
    ensures { result_map (λ s. s.now) result ≡ text_field name (object (members_of fields.now)) }
{
    match fields.find(name.as_str()) {
        None => Err(EntityRefusal::MissingField { name }),
        Some(Val::Text(s)) => Ok(s.as_str()),
        Some(_) => Err(EntityRefusal::WrongType { name }),
    }
}

fn limits_field(body: &Params) -> Result<GivenLimits, EntityRefusal>
    ensures { result ≡ limits_field (object (members_of body.now)) }
{
    match body.find("limits") {
        None => Ok(GivenLimits::NONE),
        Some(Val::Object(limits)) => read_limits(limits),
        Some(_) => Err(EntityRefusal::WrongType {
            name: FieldName::Limits,
        }),
    }
}

fn read_limits(limits: &Params) -> Result<GivenLimits, EntityRefusal>
    ensures { result ≡ limits_in (object (members_of limits.now)) }
{
    let timeout = number_field(limits, FieldName::Timeout)?;
    let memory = number_field(limits, FieldName::Memory)?;
    let logs = number_field(limits, FieldName::Logs)?;
    Ok(GivenLimits {
        timeout,
        memory,
        logs,
    })
}

fn number_field<const LEAST: u32, const MOST: u32>(
    fields: &Params,
    name: FieldName,
) -> Result<Option<Bounded<LEAST, MOST>>, EntityRefusal>
    ensures { result ≡ number_field name LEAST MOST (object (members_of fields.now)) }
{
    match fields.find(name.as_str()) {
        None => Ok(None),
        Some(Val::Int(n)) => Ok(Some(number_given(*n, name)?)),
        Some(_) => Err(EntityRefusal::WrongType { name }),
    }
}

fn number_given<const LEAST: u32, const MOST: u32>(
    n: Whole,
    name: FieldName,
) -> Result<Bounded<LEAST, MOST>, EntityRefusal>
    ensures { result ≡ number_given name LEAST MOST n }
{
    let Some(n) = n.as_u64() else {
        return Err(EntityRefusal::OutOfRange { name });
    };
    match Bounded::of(n) {
        Some(n) => Ok(n),
        None => Err(EntityRefusal::OutOfRange { name }),
    }
}
