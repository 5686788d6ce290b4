// The values of TOML as values of a body.
ghost use Rattle.std.specs.Prelude.{◌≡◌, IfOk, nat_le};
ghost use Rattle.ow_value.specs.Value.{items_of, members_of};
ghost use Rattle.ow_value.specs.View.{view as value_view};
ghost use Rattle.toml.specs.Data.{depth, items_depth, members_depth};
ghost use Rattle.toml.specs.View.{view, array_view, table_view};
ghost use Rattle.ow_deploy.specs.Values.{is_plain, are_plain_items, are_plain_members, value_of, items_value, members_value};

use ow_value::{Fields, NoMemory, Params, Str, Val, Vals, Whole};
use std::alloc::Global;
use toml::value::Array;
use toml::{Table, Value};

/// Whether no float and no date or time is in the value.
#[cycle(kinds)]
pub(crate) fn is_plain(value: &Value) -> bool
    ensures { result ≡ is_plain (view value.now) }
{
    match value {
        Value::Float(_) | Value::Datetime(_) => false,
        Value::String(_) | Value::Integer(_) | Value::Boolean(_) => true,
        Value::Array(items) => are_plain_items(items),
        Value::Table(members) => are_plain_members(members),
    }
}

#[cycle(kinds)]
fn are_plain_items(items: &Array) -> bool
    ensures { result ≡ are_plain_items (array_view items.now) }
{
    for item in items {
        if !is_plain(item) {
            return false;
        }
    }
    true
}

#[cycle(kinds)]
fn are_plain_members(members: &Table) -> bool
    ensures { result ≡ are_plain_members (table_view members.now) }
{
    for (_key, member) in members.iter() {
        if !is_plain(member) {
            return false;
        }
    }
    true
}

/// Whether arrays and tables nest no deeper than this.
#[cycle(nesting)]
pub(crate) fn is_within(limit: u32, value: &Value) -> bool
    ensures { result ≡ nat_le (depth (view value.now)) limit }
{
    match value {
        Value::Array(items) => limit > 0 && are_items_within(limit - 1, items),
        Value::Table(members) => limit > 0 && are_members_within(limit - 1, members),
        _ => true,
    }
}

#[cycle(nesting)]
fn are_items_within(limit: u32, items: &Array) -> bool
    ensures { result ≡ nat_le (items_depth (array_view items.now)) limit }
{
    for item in items {
        if !is_within(limit, item) {
            return false;
        }
    }
    true
}

#[cycle(nesting)]
fn are_members_within(limit: u32, members: &Table) -> bool
    ensures { result ≡ nat_le (members_depth (table_view members.now)) limit }
{
    for (_key, member) in members.iter() {
        if !is_within(limit, member) {
            return false;
        }
    }
    true
}

/// The value of the same kind. Floats, dates and times become null.
#[cycle(values)]
pub(crate) fn value_of(alloc: Global, value: &Value) -> Result<Val, NoMemory>
    ensures { IfOk result (λ v. value_view v ≡ value_of (view value.now)) }
{
    match value {
        Value::String(text) => Ok(Val::Text(Str::of(alloc, text.as_str())?)),
        Value::Integer(n) => Ok(Val::Int(Whole::of_i64(*n))),
        Value::Boolean(b) => Ok(Val::Bool(*b)),
        Value::Float(_) | Value::Datetime(_) => Ok(Val::Null),
        Value::Array(items) => Ok(Val::List(items_value(alloc, items)?)),
        Value::Table(members) => Ok(Val::Object(members_value(alloc, members)?)),
    }
}

#[cycle(values)]
fn items_value(alloc: Global, items: &Array) -> Result<Vals, NoMemory>
    ensures { IfOk result (λ vs. items_of vs ≡ items_value (array_view items.now)) }
{
    let mut values = Vec::new(alloc);
    for item in items {
        let value = value_of(alloc, item)?;
        values.push(value)?;
    }
    Vals::from_vec(values)
}

#[cycle(values)]
fn members_value(alloc: Global, members: &Table) -> Result<Params, NoMemory>
    ensures { IfOk result (λ ps. members_of ps ≡ members_value (table_view members.now)) }
{
    let mut fields = Fields::new(alloc);
    for (key, member) in members.iter() {
        let name = Str::of(alloc, key.as_str())?;
        let value = value_of(alloc, member)?;
        fields.set(name, value)?;
    }
    fields.into_params()
}
