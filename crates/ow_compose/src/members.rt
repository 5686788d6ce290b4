// Parameters that are made of values.
ghost use Rattle.std.specs.Prelude.{◌≡◌, ◌≤◌, ◌∷◌, [], option_map, IfOk};
ghost use Rattle.std.specs.Option.{option_copied};
ghost use Rattle.ow_value.specs.Find.{find};
ghost use Rattle.ow_value.specs.Value.{text};
ghost use Rattle.ow_value.specs.View.{view};
ghost use Rattle.ow_records.specs.FieldsIn.{as_object};
ghost use Rattle.ow_records.specs.Outcome.{failure, of_object};
ghost use Rattle.ow_compose.specs.Conductor.{boxed, unless_null};
ghost use Rattle.ow_compose.specs.Refusal.{error_object};
ghost use Rattle.ow_compose.specs.Step.{fitting, pairs_of};

use crate::Step;
use ow_records::Response;
use ow_value::{Fields, MEGABYTE, NoMemory, Params, PlainData, Str, Val, merge, size};
use std::alloc::Global;

/// The members of an object.
pub(crate) fn as_object(value: &Val) -> Option<&Params>
    ensures { option_copied result ≡ as_object (view value.now) }
{
    match value {
        Val::Object(members) => Some(members),
        _ => None,
    }
}

/// The value of the name, where that isn't null.
pub(crate) fn unless_null<'a>(members: &'a Params, name: &str) -> Option<&'a Val>
    ensures { option_map (λ v. view v.now) result ≡ unless_null (find name.now members.now) }
{
    match members.find(name) {
        None | Some(Val::Null) => None,
        Some(value) => Some(value),
    }
}

/// The members of an object; another value becomes the member `value` of one.
pub(crate) fn boxed(alloc: Global, value: &Val) -> Result<Params, NoMemory>
    ensures { IfOk result (λ ps. ps ≡ boxed (view value.now)) }
{
    match as_object(value) {
        Some(members) => members.copy(alloc),
        None => one_member(alloc, "value", value.copy(alloc)?),
    }
}

fn one_member(alloc: Global, name: &str, value: Val) -> Result<Params, NoMemory>
    ensures { IfOk result (λ ps. ps ≡ (name.now, view value) ∷ []) }
{
    let mut fields = Fields::new(alloc);
    fields.set(Str::of(alloc, name)?, value)?;
    fields.into_params()
}

/// The object that reports an error.
pub(crate) fn error_object(alloc: Global, message: &str) -> Result<Params, NoMemory>
    ensures { IfOk result (λ ps. ps ≡ error_object message.now) }
{
    one_member(alloc, "error", Val::Text(Str::of(alloc, message)?))
}

/// Ends with an application error.
pub(crate) fn failed(alloc: Global, message: &str) -> Result<Step, NoMemory>
    ensures { IfOk result (λ s. s ≡ Step.Done (failure 1 message.now)) }
{
    let object = error_object(alloc, message)?;
    Ok(Step::Done {
        response: Response::new(1, object),
    })
}

/// Ends with this result, which reports an error where it has the name `error`. This takes no memory.
pub(crate) fn done_with(members: Params) -> Step
    ensures { result ≡ Step.Done (of_object members) }
{
    let code = if members.find("error").is_some() {
        1
    } else {
        0
    };
    Step::Done {
        response: Response::new(code, members),
    }
}

/// What is given over these, unless it has too many bytes.
#[tactic(auto, unfolding(crate::specs::Step::is_oversized))]
pub(crate) fn fitting(
    alloc: Global,
    own: &Params,
    given: &Params,
) -> Result<Option<Params>, NoMemory>
    ensures { IfOk result (λ p. p ≡ fitting own.now given.now) }
{
    let merged = Val::Object(merge(alloc, own, given)?);
    if size(&merged) > MEGABYTE {
        return Ok(None);
    }
    Ok(pairs_of(merged))
}

// The pairs of an object.
fn pairs_of(value: Val) -> Option<Params>
    ensures { result ≡ pairs_of value }
{
    match value {
        Val::Object(pairs) => Some(pairs),
        _ => None,
    }
}
