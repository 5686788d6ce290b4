// The draft of a rule that a body gives, and the status that one sets.
ghost use Rattle.std.specs.Prelude.{◌≡◌, ◌≢◌, Ok, Err, MatchResult};
ghost use Rattle.ow_value.specs.Value.{members_of, object};
ghost use Rattle.ow_value.specs.View.{view};
ghost use Rattle.ow_entity.specs.declared.kinds.EntityKind.TheVariants as kinds;
ghost use Rattle.ow_entity.specs.Body.{or_bad_name, name_field, draft_of};
ghost use Rattle.ow_entity.specs.Status.{status_in, status_of, status_text};
ghost use Rattle.ow_names.specs.Path.{resolved};

use crate::body::{bool_field, text_field};
use crate::field_name::FieldName;
use crate::pairs::pairs_field;
use crate::refusal::EntityRefusal;
use crate::rows::Draft;
use crate::rules::RuleDraft;
use ow_names::{EntityName, FullName, NameRefusal, resolve};
use ow_value::{Params, PlainData, Val, kept_beside};
use std::alloc::Global;

/// The rule of the name that the members of a body give.
pub(crate) fn read_rule(
    alloc: Global,
    name: &FullName,
    body: &Params,
) -> Result<Draft, EntityRefusal>
    ensures { MatchResult result (λ d. draft_of kinds.Rule name.now (object (members_of body.now)) ≡ Ok d)
        (λ e. e ≢ EntityRefusal.NoMemory → draft_of kinds.Rule name.now (object (members_of body.now)) ≡ Err e) }
{
    let home = &name.namespace;
    let notes = pairs_field(alloc, body, FieldName::Annotations)?;
    let (notes, publish) = kept_beside(notes, bool_field(body, FieldName::Publish))?;
    let trigger = kept_beside(notes, name_field(alloc, body, FieldName::Trigger, home))?;
    let given = kept_beside(trigger, name_field(alloc, body, FieldName::Action, home))?;
    let (((notes, trigger), action), name) = kept_beside(given, name.copy(alloc))?;
    Ok(Draft::Rule(RuleDraft {
        name,
        publish,
        notes,
        trigger,
        action,
    }))
}

// The full name that a field gives a reader of the namespace.
fn name_field(
    alloc: Global,
    body: &Params,
    name: FieldName,
    home: &EntityName,
) -> Result<Option<FullName>, EntityRefusal>
    ensures { MatchResult result (λ n. name_field name home.now (object (members_of body.now)) ≡ Ok n)
        (λ e. e ≢ EntityRefusal.NoMemory → name_field name home.now (object (members_of body.now)) ≡ Err e) }
{
    match body.find(name.as_str()) {
        None => Ok(None),
        Some(Val::Text(text)) => Ok(Some(name_of(alloc, text.as_str(), home)?)),
        Some(_) => Err(EntityRefusal::WrongType { name }),
    }
}

/// The full name that a text is for a reader of the namespace.
pub(crate) fn name_of(
    alloc: Global,
    text: &str,
    home: &EntityName,
) -> Result<FullName, EntityRefusal>
    ensures { MatchResult result (λ n. or_bad_name (resolved home.now text.now) ≡ Ok n)
        (λ e. e ≢ EntityRefusal.NoMemory → or_bad_name (resolved home.now text.now) ≡ Err e) }
{
    match resolve(alloc, text, home) {
        Ok(name) => Ok(name),
        Err(NameRefusal::NoMemory) => Err(EntityRefusal::NoMemory),
        Err(e) => Err(EntityRefusal::BadName(e)),
    }
}

/// Whether the body makes a rule active or inactive. The field `status` must be there.
pub fn read_status(body: &Val) -> Result<bool, EntityRefusal>
    ensures { result ≡ status_in (view body.now) }
{
    let Val::Object(fields) = body else {
        return Err(EntityRefusal::WrongType {
            name: FieldName::Body,
        });
    };
    status_of(text_field(fields, FieldName::Status)?)
}

fn status_of(text: &str) -> Result<bool, EntityRefusal>
    ensures { result ≡ status_of text.now }
{
    if text == "active" {
        return Ok(true);
    }
    if text == "inactive" {
        return Ok(false);
    }
    Err(EntityRefusal::OutOfRange {
        name: FieldName::Status,
    })
}

/// As a body names the status: `active` or `inactive`.
pub fn status_text(active: bool) -> &'static str
    ensures { result.now ≡ status_text active }
{
    if active { "active" } else { "inactive" }
}
