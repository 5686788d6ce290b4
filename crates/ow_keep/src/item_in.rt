// The item that a row is read as. Reading is lenient: the item may be written otherwise.
ghost use Rattle.std.specs.Prelude.{◌≡◌, option_map, IfOk};
ghost use Rattle.ow_value.specs.View.{view};
ghost use Rattle.ow_value.specs.Decimal.{digits_of as number_of_digits};
ghost use Rattle.ow_records.specs.Id.{hex_number};
ghost use Rattle.std.specs.Result.{result_ok};
ghost use Rattle.ow_keep.specs.ItemIn.{archive_from, archive_of, as_utf8, count_with, deep_value_of, done_of, entity_of, entity_with, item_from, note_with, open_of, value_of, version_from};
ghost use Rattle.ow_keep.specs.OpenIn.{full_name_of};
ghost use Rattle.ow_value.specs.Read.{reading};
ghost use Rattle.ow_value.specs.Nesting.{most_nested_record};

use crate::entity_in::entity_from;
use crate::open_in::{full_name_of, open_from};
use ow_entity::EntityKind;
use ow_records::{number_in, read_fields};
use ow_row_text::{Archive, Item, Note, RowsVersion};
use ow_value::{NoMemory, Scratch, Str, Val, ValueRefusal, digits_of, read_deep, read_val_in};
use std::alloc::Global;

/// The item that the row describes. The scratch is for reading texts.
pub(crate) fn item_from(
    alloc: Global,
    scratch: &mut Scratch,
    key: &str,
    text: &str,
) -> Result<Option<Item>, NoMemory>
    ensures { IfOk result (λ i. i ≡ item_from key.now text.now) }
{
    let Some((byte, rest)) = key.as_bytes().split_first() else {
        return Ok(None);
    };
    match *byte {
        b'a' => archive_item(alloc, scratch, text),
        b'c' => Ok(count_from(rest.get(5..).unwrap_or(&[]), text)),
        b'd' => done_from(alloc, scratch, text),
        b'n' => note_item(alloc, rest.get(4..).unwrap_or(&[]), text),
        b'o' => open_item(alloc, scratch, text),
        b'r' => entity_item(alloc, scratch, rest.get(3..).unwrap_or(&[]), text),
        b'v' => Ok(Some(Item::Version(version_from(text)))),
        _ => Ok(None),
    }
}

fn version_from(text: &str) -> RowsVersion
    ensures { result ≡ version_from text.now }
{
    if text == "1" {
        RowsVersion::First
    } else {
        RowsVersion::Second
    }
}

fn archive_item(alloc: Global, scratch: &mut Scratch, text: &str) -> Result<Option<Item>, NoMemory>
    ensures { IfOk result (λ i. i ≡ archive_of text.now) }
{
    let Some(value) = value_of(alloc, scratch, text)? else {
        return Ok(None);
    };
    Ok(archive_from(&value))
}

fn archive_from(value: &Val) -> Option<Item>
    ensures { result ≡ archive_from (view value.now) }
{
    let Val::Object(fields) = value else {
        return None;
    };
    let last = number_in(fields, "last")?;
    let number = number_in(fields, "number")?;
    Some(Item::Archive(Archive { last, number }))
}

// The key of the note is what follows `note/` in the key of the row.
fn note_item(alloc: Global, key: &[u8], text: &str) -> Result<Option<Item>, NoMemory>
    ensures { IfOk result (λ i. i ≡ note_with (as_utf8 key.now) (number_of_digits text.now)) }
{
    let (Some(key), Some(value)) = (as_utf8(key), digits_of(text.as_bytes())) else {
        return Ok(None);
    };
    let key = Str::of(alloc, key)?;
    Ok(Some(Item::Note(Note { key, value })))
}

fn as_utf8(bytes: &[u8]) -> Option<&str>
    ensures { option_map (λ s. s.now) result ≡ as_utf8 bytes.now }
{
    match str::from_utf8(bytes) {
        Ok(text) => Some(text),
        Err(_) => None,
    }
}

fn count_from(digits: &[u8], text: &str) -> Option<Item>
    ensures { result ≡ count_with (hex_number digits.now) (number_of_digits text.now) }
{
    let namespace = hex_number(digits)?;
    let count = digits_of(text.as_bytes())?;
    Some(Item::Count { namespace, count })
}

fn hex_number(digits: &[u8]) -> Option<u64>
    ensures { result ≡ hex_number digits.now }
{
    let mut bytes = [0u8; 8];
    match hex::decode_to_slice(digits, &mut bytes) {
        Ok(()) => Some(u64::from_be_bytes(bytes)),
        Err(_) => None,
    }
}

fn done_from(alloc: Global, scratch: &mut Scratch, text: &str) -> Result<Option<Item>, NoMemory>
    ensures { IfOk result (λ i. i ≡ done_of text.now) }
{
    let Some(value) = deep_value_of(alloc, scratch, text)? else {
        return Ok(None);
    };
    match read_fields(alloc, &value)? {
        Some(found) => Ok(Some(Item::Done(found))),
        None => Ok(None),
    }
}

fn open_item(alloc: Global, scratch: &mut Scratch, text: &str) -> Result<Option<Item>, NoMemory>
    ensures { IfOk result (λ i. i ≡ open_of text.now) }
{
    let Some(value) = value_of(alloc, scratch, text)? else {
        return Ok(None);
    };
    match open_from(alloc, &value)? {
        Some(found) => Ok(Some(Item::Open(found))),
        None => Ok(None),
    }
}

// The item of an entity's row. The place is what follows `row/` in the key.
fn entity_item(
    alloc: Global,
    scratch: &mut Scratch,
    place: &[u8],
    text: &str,
) -> Result<Option<Item>, NoMemory>
    ensures { IfOk result (λ i. i ≡ entity_of place.now text.now) }
{
    let Some((byte, rest)) = place.split_first() else {
        return Ok(None);
    };
    match *byte {
        b'a' => {
            let name = rest.get(5..).unwrap_or(&[]);
            entity_with(alloc, scratch, EntityKind::Action, name, text)
        }
        b'p' => {
            let name = rest.get(6..).unwrap_or(&[]);
            entity_with(alloc, scratch, EntityKind::Package, name, text)
        }
        b'r' => {
            let name = rest.get(3..).unwrap_or(&[]);
            entity_with(alloc, scratch, EntityKind::Rule, name, text)
        }
        b't' => {
            let name = rest.get(6..).unwrap_or(&[]);
            entity_with(alloc, scratch, EntityKind::Trigger, name, text)
        }
        _ => Ok(None),
    }
}

fn entity_with(
    alloc: Global,
    scratch: &mut Scratch,
    kind: EntityKind,
    name: &[u8],
    text: &str,
) -> Result<Option<Item>, NoMemory>
    ensures { IfOk result (λ i. i ≡ entity_with kind (full_name_of name.now) (value_of text.now)) }
{
    let Some(name) = full_name_of(alloc, name)? else {
        return Ok(None);
    };
    let Some(value) = value_of(alloc, scratch, text)? else {
        return Ok(None);
    };
    match entity_from(alloc, kind, &name, &value)? {
        Some(row) => Ok(Some(Item::Row(row))),
        None => Ok(None),
    }
}

fn value_of(alloc: Global, scratch: &mut Scratch, text: &str) -> Result<Option<Val>, NoMemory>
    ensures { IfOk result (λ o. option_map view o ≡ value_of text.now) }
{
    match read_val_in(alloc, scratch, text.as_bytes()) {
        Ok(value) => Ok(Some(value)),
        Err(ValueRefusal::NoMemory) => Err(NoMemory),
        Err(_) => Ok(None),
    }
}

// Few texts nest deeper than 100, so only those are read without the scratch.
#[tactic(auto, using(crate::proofs::Deep::deeper, crate::proofs::Deep::no_deeper))]
fn deep_value_of(alloc: Global, scratch: &mut Scratch, text: &str) -> Result<Option<Val>, NoMemory>
    ensures { IfOk result (λ o. option_map view o ≡ deep_value_of text.now) }
{
    match read_val_in(alloc, scratch, text.as_bytes()) {
        Ok(value) => Ok(Some(value)),
        Err(ValueRefusal::NoMemory) => Err(NoMemory),
        Err(ValueRefusal::TooDeep) => deepest_value_of(alloc, text),
        Err(_) => Ok(None),
    }
}

fn deepest_value_of(alloc: Global, text: &str) -> Result<Option<Val>, NoMemory>
    ensures { IfOk result (λ o. option_map view o ≡ result_ok (reading most_nested_record text.now)) }
{
    match read_deep(alloc, text.as_bytes()) {
        Ok(value) => Ok(Some(value)),
        Err(ValueRefusal::NoMemory) => Err(NoMemory),
        Err(_) => Ok(None),
    }
}
