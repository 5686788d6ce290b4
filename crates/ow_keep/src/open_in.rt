// The activation that a value is read as, which has not ended. Reading is lenient: the activation may be written otherwise.
ghost use Rattle.std.specs.Prelude.{◌≡◌, IfOk};
ghost use Rattle.ow_value.specs.Value.{members_of, object};
ghost use Rattle.ow_value.specs.Field.{field};
ghost use Rattle.ow_value.specs.View.{view};
ghost use Rattle.ow_keep.specs.OpenIn.{as_full_name, binding_in, full_name_of, open_from};

use ow_names::{FullName, NameRefusal, read_full_text};
use ow_records::{
    Unrecorded, cause_in, form_in, id_in, kind_in, limits_in, name_in, number_in, path_in, text_in,
    version_in,
};
use ow_value::{NoMemory, Params, PlainData, Val};
use std::alloc::Global;

/// The activation that the fields of the value describe.
#[tactic(auto, unfolding(crate::specs::OpenIn::open_from))]
pub(crate) fn open_from(alloc: Global, value: &Val) -> Result<Option<Unrecorded>, NoMemory>
    ensures { IfOk result (λ u. u ≡ open_from (view value.now)) }
{
    let Val::Object(fields) = value else {
        return Ok(None);
    };
    let (Some(id), Some(at)) = (id_in(fields, "activationId"), number_in(fields, "at")) else {
        return Ok(None);
    };
    let Some(binding) = binding_in(alloc, fields)? else {
        return Ok(None);
    };
    let (Some(cause), Some(form)) = (cause_in(fields), form_in(fields, "form")) else {
        return Ok(None);
    };
    let Some(kind) = kind_in(fields, "kind") else {
        return Ok(None);
    };
    let Some(limits) = limits_in(fields, "limits") else {
        return Ok(None);
    };
    let Some(namespace) = name_in(alloc, fields, "namespace")? else {
        return Ok(None);
    };
    let Some(path) = path_in(alloc, fields, "path")? else {
        return Ok(None);
    };
    let Some(subject) = text_in(fields, "subject") else {
        return Ok(None);
    };
    let Some(version) = version_in(fields, "version") else {
        return Ok(None);
    };
    let subject = subject.copy(alloc)?;
    Ok(Some(Unrecorded {
        id,
        at,
        binding,
        cause,
        form,
        kind,
        limits,
        namespace,
        path,
        subject,
        version,
    }))
}

// The full name of the field `binding`, or that none is there.
fn binding_in(alloc: Global, fields: &Params) -> Result<Option<Option<FullName>>, NoMemory>
    ensures { IfOk result (λ b. b ≡ binding_in (object (members_of fields.now))) }
{
    match fields.find("binding") {
        None => Ok(Some(None)),
        Some(value) => match as_full_name(alloc, value)? {
            Some(name) => Ok(Some(Some(name))),
            None => Ok(None),
        },
    }
}

fn as_full_name(alloc: Global, value: &Val) -> Result<Option<FullName>, NoMemory>
    ensures { IfOk result (λ n. n ≡ as_full_name (view value.now)) }
{
    match value {
        Val::Text(s) => full_name_of(alloc, s.as_str().as_bytes()),
        _ => Ok(None),
    }
}

/// The full name that the text is.
pub(crate) fn full_name_of(alloc: Global, text: &[u8]) -> Result<Option<FullName>, NoMemory>
    ensures { IfOk result (λ n. n ≡ full_name_of text.now) }
{
    match read_full_text(alloc, text) {
        Ok(name) => Ok(Some(name)),
        Err(NameRefusal::NoMemory) => Err(NoMemory),
        Err(_) => Ok(None),
    }
}
