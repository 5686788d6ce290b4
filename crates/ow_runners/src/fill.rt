// Templates with their holes filled.
ghost use Rattle.std.specs.Prelude.{◌≡◌, IfOk, option_map};
ghost use Rattle.std.specs.Option.{unwrap_or};
ghost use Rattle.ow_value.specs.Find.{find};
ghost use Rattle.ow_value.specs.Value.{items_of, members_of, null};
ghost use Rattle.ow_value.specs.View.{view};
ghost use Rattle.ow_runners.specs.PlainReply.{filled, filled_items, filled_members, hole};

use ow_value::{Fields, NoMemory, Params, PlainData, Val, Vals, copy};
use std::alloc::Global;

/// The template with its holes filled from the parameters.
#[cycle(fills)]
pub(crate) fn fill(alloc: Global, template: &Val, params: &Params) -> Result<Val, NoMemory>
    ensures { IfOk result (λ v. view v ≡ filled params.now (view template.now)) }
{
    match template {
        Val::List(items) => Ok(Val::List(fill_items(alloc, items, params)?)),
        Val::Object(members) => match hole(alloc, members, params)? {
            Some(value) => Ok(value),
            None => Ok(Val::Object(fill_members(alloc, members, params)?)),
        },
        _ => copy(alloc, template),
    }
}

#[cycle(fills)]
fn fill_items(alloc: Global, items: &Vals, params: &Params) -> Result<Vals, NoMemory>
    ensures { IfOk result (λ r. items_of r ≡ filled_items params.now (items_of items.now)) }
{
    let mut values = Vec::new(alloc);
    for template in items.items() {
        let value = fill(alloc, template, params)?;
        values.push(value)?;
    }
    Ok(Vals::from_vec(values)?)
}

#[cycle(fills)]
fn fill_members(alloc: Global, members: &Params, params: &Params) -> Result<Params, NoMemory>
    ensures { IfOk result (λ r. members_of r ≡ filled_members params.now (members_of members.now)) }
{
    let mut fields = Fields::new(alloc);
    for pair in members.pairs() {
        let value = fill(alloc, &pair.value, params)?;
        fields.set(pair.name.copy(alloc)?, value)?;
    }
    Ok(fields.into_params()?)
}

// The value that an object is replaced by, where it is a hole.
fn hole(alloc: Global, members: &Params, params: &Params) -> Result<Option<Val>, NoMemory>
    ensures { IfOk result (λ o. option_map view o ≡ hole params.now members.now) }
{
    if members.len() != 1 {
        return Ok(None);
    }
    match members.find("$") {
        Some(Val::Text(name)) => Ok(Some(parameter(alloc, params, name.as_str())?)),
        _ => match members.find("$all") {
            Some(_) => Ok(Some(Val::Object(params.copy(alloc)?))),
            None => Ok(None),
        },
    }
}

// The parameter of the name, null where there is none.
fn parameter(alloc: Global, params: &Params, name: &str) -> Result<Val, NoMemory>
    ensures { IfOk result (λ v. view v ≡ unwrap_or (find name.now params.now) null) }
{
    match params.find(name) {
        Some(value) => copy(alloc, value),
        None => Ok(Val::Null),
    }
}
