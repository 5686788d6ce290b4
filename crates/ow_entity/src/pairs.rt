// Parameters and annotations as bodies list them.
ghost use Rattle.std.specs.Prelude.{◌≡◌, ◌≢◌, [], Some, None, Ok, Err, option_map, map, IfOk, MatchResult};
ghost use Rattle.ow_value.specs.Value.{items_of, members_of, object};
ghost use Rattle.ow_value.specs.View.{view};
ghost use Rattle.ow_entity.specs.Pairs.{pair_of, pair_value, pairs_listed, with_pairs, pairs_field, pairs_of_list};

use crate::field_name::FieldName;
use crate::params::EntityParams;
use crate::refusal::EntityRefusal;
use crate::written::put;
use ow_value::{Fields, NoMemory, Pair, Params, PlainData, Str, Val, Vals, copy};
use std::alloc::Global;

// The pairs that a field of the body lists, if it is there.
pub(crate) fn pairs_field(
    alloc: Global,
    body: &Params,
    name: FieldName,
) -> Result<Option<EntityParams>, EntityRefusal>
    ensures { MatchResult result (λ ps. pairs_field name (object (members_of body.now)) ≡ Ok ps)
        (λ e. e ≢ EntityRefusal.NoMemory → pairs_field name (object (members_of body.now)) ≡ Err e) }
{
    match body.find(name.as_str()) {
        None => Ok(None),
        Some(Val::List(items)) => pairs_of_list(alloc, items, name),
        Some(_) => Err(EntityRefusal::WrongType { name }),
    }
}

fn pairs_of_list(
    alloc: Global,
    items: &Vals,
    name: FieldName,
) -> Result<Option<EntityParams>, EntityRefusal>
    ensures { MatchResult result (λ ps. pairs_of_list name (option_map (with_pairs []) (pairs_listed (items_of items.now))) ≡ Ok ps)
        (λ e. e ≢ EntityRefusal.NoMemory → pairs_of_list name (option_map (with_pairs []) (pairs_listed (items_of items.now))) ≡ Err e) }
{
    match with_pairs(alloc, items)? {
        Some(pairs) => Ok(Some(EntityParams::of(pairs)?)),
        None => Err(EntityRefusal::WrongType { name }),
    }
}

fn with_pairs(alloc: Global, items: &Vals) -> Result<Option<Params>, NoMemory>
    ensures { IfOk result (λ ps. ps ≡ option_map (with_pairs []) (pairs_listed (items_of items.now))) }
{
    let mut pairs = Fields::new(alloc);
    for item in items.items() {
        let Some((key, value)) = pair_of(item) else {
            return Ok(None);
        };
        let copied = copy(alloc, value)?;
        pairs.set(key.copy(alloc)?, copied)?;
    }
    Ok(Some(pairs.into_params()?))
}

fn pair_of(item: &Val) -> Option<(&Str, &Val)>
    ensures { option_map (λ p. (p.0.now, view p.1.now)) result ≡ pair_of (view item.now) }
{
    let Val::Object(fields) = item else {
        return None;
    };
    match (fields.find("key"), fields.find("value")) {
        (Some(Val::Text(key)), Some(value)) => Some((key, value)),
        _ => None,
    }
}

/// The list of a `{"key": name, "value": value}` for each pair.
pub fn listed(alloc: Global, pairs: &Params) -> Result<Vals, NoMemory>
    ensures { IfOk result (λ vs. vs ≡ map pair_value pairs.now) }
{
    let mut items = Vec::new(alloc);
    for pair in pairs.pairs() {
        let item = pair_value(alloc, pair)?;
        items.push(item)?;
    }
    Vals::from_vec(items)
}

fn pair_value(alloc: Global, pair: &Pair) -> Result<Val, NoMemory>
    ensures { IfOk result (λ v. view v ≡ pair_value (pair.now.name, view pair.now.value)) }
{
    let mut fields = Fields::new(alloc);
    put(alloc, &mut fields, "key", Val::Text(pair.name.copy(alloc)?))?;
    put(alloc, &mut fields, "value", copy(alloc, &pair.value)?)?;
    Ok(Val::Object(fields.into_params()?))
}
