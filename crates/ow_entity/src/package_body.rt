// The draft of a package that a body gives.
ghost use Rattle.std.specs.Prelude.{◌≡◌, ◌≢◌, Ok, Err, MatchResult};
ghost use Rattle.ow_value.specs.Value.{members_of, object};
ghost use Rattle.ow_entity.specs.declared.kinds.EntityKind.TheVariants as kinds;
ghost use Rattle.ow_entity.specs.Body.{bound_in, binding_in, binding_field, draft_of};

use crate::body::{bool_field, text_field};
use crate::field_name::FieldName;
use crate::packages::PackageDraft;
use crate::pairs::pairs_field;
use crate::refusal::EntityRefusal;
use crate::rows::Draft;
use ow_names::{EntityName, FullName, NameRefusal, named_in};
use ow_value::{Params, PlainData, Val, kept_beside};
use std::alloc::Global;

/// The package of the name that the members of a body give.
pub(crate) fn read_package(
    alloc: Global,
    name: &FullName,
    body: &Params,
) -> Result<Draft, EntityRefusal>
    ensures { MatchResult result (λ d. draft_of kinds.Package name.now (object (members_of body.now)) ≡ Ok d)
        (λ e. e ≢ EntityRefusal.NoMemory → draft_of kinds.Package name.now (object (members_of body.now)) ≡ Err e) }
{
    let notes = pairs_field(alloc, body, FieldName::Annotations)?;
    let pairs = kept_beside(notes, pairs_field(alloc, body, FieldName::Parameters))?;
    let (pairs, publish) = kept_beside(pairs, bool_field(body, FieldName::Publish))?;
    let given = kept_beside(pairs, binding_field(alloc, body, &name.namespace))?;
    let (((notes, params), binding), name) = kept_beside(given, name.copy(alloc))?;
    Ok(Draft::Package(PackageDraft {
        name,
        publish,
        params,
        notes,
        binding,
    }))
}

// The package that is bound, or that none is, for a path of this namespace.
fn binding_field(
    alloc: Global,
    body: &Params,
    home: &EntityName,
) -> Result<Option<Option<FullName>>, EntityRefusal>
    ensures { MatchResult result (λ b. binding_field home.now (object (members_of body.now)) ≡ Ok b)
        (λ e. e ≢ EntityRefusal.NoMemory → binding_field home.now (object (members_of body.now)) ≡ Err e) }
{
    match body.find("binding") {
        None => Ok(None),
        Some(Val::Object(binding)) => Ok(Some(read_binding(alloc, binding, home)?)),
        Some(_) => Err(EntityRefusal::WrongType {
            name: FieldName::Binding,
        }),
    }
}

#[tactic(auto, using(crate::proofs::PlainCodeLaws::name_count_of_object))]
fn read_binding(
    alloc: Global,
    binding: &Params,
    home: &EntityName,
) -> Result<Option<FullName>, EntityRefusal>
    ensures { MatchResult result (λ b. binding_in home.now (object (members_of binding.now)) ≡ Ok b)
        (λ e. e ≢ EntityRefusal.NoMemory → binding_in home.now (object (members_of binding.now)) ≡ Err e) }
{
    if binding.len() == 0 {
        return Ok(None);
    }
    match bound_name(alloc, binding, home) {
        Ok(name) => Ok(Some(name)),
        Err(e) => Err(e),
    }
}

fn bound_name(alloc: Global, binding: &Params, home: &EntityName) -> Result<FullName, EntityRefusal>
    ensures { MatchResult result (λ n. bound_in home.now (object (members_of binding.now)) ≡ Ok n)
        (λ e. e ≢ EntityRefusal.NoMemory → bound_in home.now (object (members_of binding.now)) ≡ Err e) }
{
    let namespace = text_field(binding, FieldName::BoundNamespace)?;
    let name = text_field(binding, FieldName::BoundName)?;
    match named_in(alloc, home, namespace.as_bytes(), None, name.as_bytes()) {
        Ok(name) => Ok(name),
        Err(NameRefusal::NoMemory) => Err(EntityRefusal::NoMemory),
        Err(e) => Err(EntityRefusal::BadName(e)),
    }
}
