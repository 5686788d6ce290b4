// Reads values from JSON texts.
ghost use Rattle.std.specs.Prelude.{◌≡◌, ◌≢◌, ◌≤◌, ℕ, Some, None, IfOk, MatchResult, Ok, Err};
ghost use Rattle.serde_json.specs.View.{number_view, view as data_view, items_view, members_view};
ghost use Rattle.serde_json.specs.Find.{as_integer};
ghost use Rattle.ow_value.specs.Value.{depth, items_of, members_of};
ghost use Rattle.ow_value.specs.Json.{IsValue, AreValues, IsObject};
ghost use Rattle.ow_value.specs.Nesting.{most_nested, most_nested_record};
ghost use Rattle.serde_json.specs.Read.{max_depth};
ghost use Rattle.ow_value.specs.Read.{whole_of, whole_items, whole_members, reading, IsReadAs};
ghost use Rattle.ow_value.specs.View.{view};

use crate::memory::{NoMemory, list_for, push};
use crate::quick::quick_read;
use crate::text::Str;
use crate::val::{Pair, Params, Val, Vals};
use crate::walk::depth;
use crate::whole::Whole;
use json::Scratch;
use serde_json::error::Category;
use serde_json::{Map, Number, Value};
use std::alloc::Global;

/// How deep the lists and objects of a value may nest.
pub const MOST_NESTED: u32 = 100;

/// How deep those of a kept record may nest, which holds a value two deep.
pub const MOST_NESTED_RECORD: u32 = 102;

/// Why a text is no value. `NotJson` is looked for first, then `NotWhole`, then `TooDeep`.
#[derive(Clone, Copy, PartialEq, Eq, Debug, Drop)]
pub enum ValueRefusal {
    /// No JSON (RFC 8259), lists and objects that nest deeper than 127, or a number that no 64-bit float holds.
    NotJson,
    /// A number is written with a fraction or an exponent, as `-0`, or beyond i64 and u64.
    NotWhole,
    /// Lists and objects nest deeper than the call allows.
    TooDeep,
    /// No memory was left for the value.
    NoMemory,
}

impl ValueRefusal {
    ghost use Rattle.ow_value.specs.Refusal.{refusal_number};

    /// The number by which a client distinguishes the refusals. Out of memory has 0.
    pub fn number(&self) -> u32
        ensures { result ≡ refusal_number self.now }
    {
        match self {
            ValueRefusal::NoMemory => 0,
            ValueRefusal::NotJson => 1,
            ValueRefusal::NotWhole => 2,
            ValueRefusal::TooDeep => 3,
        }
    }
}

impl From<NoMemory> for ValueRefusal {
    ghost use Rattle.std.specs.Prelude.{◌≡◌};
    ghost use Rattle.ow_value.specs.declared.reader.ValueRefusal.TheVariants.{NoMemory};

    ghost from_gives = { λ _ e. e ≡ NoMemory };

    fn from(_refused: NoMemory) -> ValueRefusal {
        ValueRefusal::NoMemory
    }
}

/// The value of a JSON text, nested at most `MOST_NESTED` deep. Of two members of one name the last counts.
pub fn read_val(alloc: Global, text: &[u8]) -> Result<Val, ValueRefusal>
    ensures value { MatchResult result (λ v. reading most_nested text.now ≡ Ok (view v))
        (λ e. e ≢ ValueRefusal.NoMemory → reading most_nested text.now ≡ Err e) }
    ensures nests { IfOk result (λ v. depth (view v) ≤ most_nested) }
{
    read_val_in(alloc, &mut Scratch::new(alloc), text)
}

/// As `read_val`, in a scratch that is kept from text to text: to make one costs more than to read a short
/// text. What a text leaves in it means nothing to the next.
pub fn read_val_in(alloc: Global, scratch: &mut Scratch, text: &[u8]) -> Result<Val, ValueRefusal>
    ensures value { MatchResult result (λ v. reading most_nested text.now ≡ Ok (view v))
        (λ e. e ≢ ValueRefusal.NoMemory → reading most_nested text.now ≡ Err e) }
    ensures nests { IfOk result (λ v. depth (view v) ≤ most_nested) }
{
    read_within(alloc, scratch, text, MOST_NESTED)
}

/// As `read_val`, for a value nested at most `MOST_NESTED_RECORD` deep.
pub fn read_deep(alloc: Global, text: &[u8]) -> Result<Val, ValueRefusal>
    ensures value { MatchResult result (λ v. reading most_nested_record text.now ≡ Ok (view v))
        (λ e. e ≢ ValueRefusal.NoMemory → reading most_nested_record text.now ≡ Err e) }
    ensures nests { IfOk result (λ v. depth (view v) ≤ most_nested_record) }
{
    read_within(alloc, &mut Scratch::new(alloc), text, MOST_NESTED_RECORD)
}

fn read_within(
    alloc: Global,
    scratch: &mut Scratch,
    text: &[u8],
    limit: u32,
) -> Result<Val, ValueRefusal>
    requires { limit ≤ max_depth }
    ensures value { MatchResult result (λ v. reading limit text.now ≡ Ok (view v))
        (λ e. e ≢ ValueRefusal.NoMemory → reading limit text.now ≡ Err e) }
    ensures nests { IfOk result (λ v. depth (view v) ≤ limit) }
{
    let v = read_any(alloc, scratch, text)?;
    if depth(&v) > limit {
        return Err(ValueRefusal::TooDeep);
    }
    Ok(v)
}

fn read_any(alloc: Global, scratch: &mut Scratch, text: &[u8]) -> Result<Val, ValueRefusal>
    ensures { MatchResult result (λ v. IsReadAs text.now (view v))
        (λ e. (limit : ℕ) → e ≢ ValueRefusal.NoMemory → reading limit text.now ≡ Err e) }
{
    match quick_read(alloc, scratch, text) {
        Ok(v) => Ok(v),
        Err(_) => read_slowly(alloc, text),
    }
}

// Also reads what the quick reading gave up at, and distinguishes the refusals.
fn read_slowly(alloc: Global, text: &[u8]) -> Result<Val, ValueRefusal>
    ensures { MatchResult result (λ v. IsReadAs text.now (view v))
        (λ e. (limit : ℕ) → e ≢ ValueRefusal.NoMemory → reading limit text.now ≡ Err e) }
{
    let value = match Value::from_slice(alloc, text) {
        Ok(value) => value,
        Err(e) => {
            return match e.classify() {
                Category::Memory => Err(ValueRefusal::NoMemory),
                _ => Err(ValueRefusal::NotJson),
            };
        }
    };
    taken(alloc, value)
}

// The value with nothing of `serde_json` in it.
#[cycle(taken)]
fn taken(alloc: Global, value: Value) -> Result<Val, ValueRefusal>
    ensures value { MatchResult result (λ v. whole_of (data_view value) ≡ Some (view v))
        (λ e. e ≢ ValueRefusal.NoMemory → (e ≡ ValueRefusal.NotWhole) × (whole_of (data_view value) ≡ None)) }
    ensures known { IfOk result (λ v. IsValue (view v)) }
{
    match value {
        Value::Null => Ok(Val::Null),
        Value::Bool(b) => Ok(Val::Bool(b)),
        Value::Number(n) => match whole_number(n) {
            Some(z) => Ok(Val::Int(z)),
            None => Err(ValueRefusal::NotWhole),
        },
        Value::String(text) => Ok(Val::Text(Str::from_string(text)?)),
        Value::Array(items) => Ok(Val::List(taken_items(alloc, items)?)),
        Value::Object(members) => Ok(Val::Object(taken_members(alloc, members)?)),
    }
}

#[cycle(taken)]
fn taken_items(alloc: Global, values: Vec<Value>) -> Result<Vals, ValueRefusal>
    ensures value { MatchResult result (λ vs. whole_items (items_view values.items) ≡ Some (items_of vs))
        (λ e. e ≢ ValueRefusal.NoMemory → (e ≡ ValueRefusal.NotWhole) × (whole_items (items_view values.items) ≡ None)) }
    ensures known { IfOk result (λ vs. AreValues (items_of vs)) }
{
    let mut items = list_for(alloc, values.len())?;
    for value in values {
        let item = taken(alloc, value)?;
        push(&mut items, item)?;
    }
    Ok(Vals::of_values(items)?)
}

#[cycle(taken)]
fn taken_members(alloc: Global, members: Map<String, Value>) -> Result<Params, ValueRefusal>
    ensures value { MatchResult result (λ ps. whole_members (members_view members.entries) ≡ Some (members_of ps))
        (λ e. e ≢ ValueRefusal.NoMemory → (e ≡ ValueRefusal.NotWhole) × (whole_members (members_view members.entries) ≡ None)) }
    ensures known { IfOk result (λ ps. IsObject ps) }
{
    let mut pairs = list_for(alloc, members.len())?;
    for (key, member) in members {
        let value = taken(alloc, member)?;
        let name = Str::from_string(key)?;
        push(&mut pairs, Pair { name, value })?;
    }
    Ok(Params::of_pairs(pairs)?)
}

fn whole_number(n: Number) -> Option<Whole>
    ensures { result ≡ as_integer (number_view n) }
{
    if let Some(u) = n.as_u64() {
        return Some(Whole::of_u64(u));
    }
    match n.as_i64() {
        Some(z) => Some(Whole::of_i64(z)),
        None => None,
    }
}
