// The draft of a trigger that a body gives.
ghost use Rattle.std.specs.Prelude.{◌≡◌, ◌≢◌, Ok, Err, MatchResult};
ghost use Rattle.ow_value.specs.Value.{members_of, object};
ghost use Rattle.ow_entity.specs.declared.kinds.EntityKind.TheVariants as kinds;
ghost use Rattle.ow_entity.specs.Body.{draft_of};

use crate::body::bool_field;
use crate::field_name::FieldName;
use crate::pairs::pairs_field;
use crate::refusal::EntityRefusal;
use crate::rows::Draft;
use crate::triggers::TriggerDraft;
use ow_names::FullName;
use ow_value::{Params, PlainData, kept_beside};
use std::alloc::Global;

/// The trigger of the name that the members of a body give.
pub(crate) fn read_trigger(
    alloc: Global,
    name: &FullName,
    body: &Params,
) -> Result<Draft, EntityRefusal>
    ensures { MatchResult result (λ d. draft_of kinds.Trigger name.now (object (members_of body.now)) ≡ Ok d)
        (λ e. e ≢ EntityRefusal.NoMemory → draft_of kinds.Trigger name.now (object (members_of body.now)) ≡ Err e) }
{
    let notes = pairs_field(alloc, body, FieldName::Annotations)?;
    let pairs = kept_beside(notes, pairs_field(alloc, body, FieldName::Parameters))?;
    let given = kept_beside(pairs, bool_field(body, FieldName::Publish))?;
    let (((notes, params), publish), name) = kept_beside(given, name.copy(alloc))?;
    Ok(Draft::Trigger(TriggerDraft {
        name,
        publish,
        params,
        notes,
    }))
}
