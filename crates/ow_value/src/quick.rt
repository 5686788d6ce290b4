// Reads most texts into a `Val` in one pass, with no value of `serde_json` between.
ghost use Rattle.std.specs.Prelude.{◌≡◌, ◌<◌, true, false, Some, IfOk, OnOk, IfSome, IsTrue, ◌==◌, length, slice_index};
ghost use Rattle.json.specs.Json.{value, items, members};
ghost use Rattle.serde_json.specs.Data.{no_members};
ghost use Rattle.serde_json.specs.Find.{of_integer};
ghost use Rattle.serde_json.specs.Read.{converted, number_from, number_of, of_json, of_items, of_members};
ghost use Rattle.ow_value.specs.Read.{IsReadAs};
ghost use Rattle.ow_value.specs.Text.{data_of, items_data, members_data};
ghost use Rattle.ow_value.specs.Value.{items_of, members_of};
ghost use Rattle.ow_value.specs.View.{view};

use crate::fields::Fields;
use crate::memory::{NoMemory, push};
use crate::text::Str;
use crate::val::{Params, Val, Vals};
use crate::whole::Whole;
use fast_float::Numeral;
use json::{Invalid, Reader, Scratch, Token};
use std::alloc::Global;
use std::str;

// As deep as `serde_json` reads.
const MAX_DEPTH: usize = 127;

// No value was read, for whatever reason.
#[derive(Clone, Copy, Drop)]
pub(crate) struct Unread;

impl From<NoMemory> for Unread {
    fn from(_refused: NoMemory) -> Unread {
        Unread
    }
}

impl From<Invalid> for Unread {
    fn from(_refused: Invalid) -> Unread {
        Unread
    }
}

pub(crate) fn quick_read(alloc: Global, scratch: &mut Scratch, bytes: &[u8]) -> Result<Val, Unread>
    ensures { IfOk result (λ v. IsReadAs bytes.now (view v)) }
{
    let Ok(text) = str::from_utf8(bytes) else {
        return Err(Unread);
    };
    let Ok(mut reader) = Reader::new(text, scratch) else {
        return Err(Unread);
    };
    let v = read_value(alloc, &mut reader, MAX_DEPTH)?;
    if reader.next().is_some() {
        return Err(Unread);
    }
    Ok(v)
}

#[cycle(quick)]
fn read_value(alloc: Global, reader: &mut Reader<'_>, depth: usize) -> Result<Val, Unread>
    ensures ok { IfOk result (λ v. converted of_json (value depth reader.old) ≡ Some (data_of (view v), reader.new)) }
    ensures shorter { OnOk result (length reader.new < length reader.old) }
{
    let token = reader.next().ok_or(Unread)?;
    match token {
        Token::Null => Ok(Val::Null),
        Token::Bool(b) => Ok(Val::Bool(b)),
        Token::Number(text) => match integer(text) {
            Some(n) => Ok(Val::Int(n)),
            None => Err(Unread),
        },
        Token::String(text) => Ok(Val::Text(Str::of(alloc, text)?)),
        Token::BeginArray => {
            if depth == 0 {
                return Err(Unread);
            }
            Ok(Val::List(read_items(alloc, reader, depth - 1)?))
        }
        Token::BeginObject => {
            if depth == 0 {
                return Err(Unread);
            }
            Ok(Val::Object(read_members(alloc, reader, depth - 1)?))
        }
        Token::EndObject | Token::EndArray | Token::Key(_) | Token::Bad => Err(Unread),
    }
}

#[cycle(quick)]
fn read_items(alloc: Global, reader: &mut Reader<'_>, depth: usize) -> Result<Vals, Unread>
    ensures ok { IfOk result (λ vs. converted of_items (items (value depth) (length reader.old) reader.old)
        ≡ Some (items_data (items_of vs), reader.new)) }
    ensures shorter { OnOk result (length reader.new < length reader.old) }
{
    let mut found = Vec::new(alloc);
    'items: while !reader.take_end_array() {
        let item = read_value(alloc, reader, depth)?;
        push(&mut found, item)?;
    }
    Ok(Vals::from_vec(found)?)
}

#[cycle(quick)]
fn read_members(alloc: Global, reader: &mut Reader<'_>, depth: usize) -> Result<Params, Unread>
    ensures ok { IfOk result (λ ps. converted (λ ms. of_members ms no_members) (members (value depth) (length reader.old) reader.old)
        ≡ Some (members_data (members_of ps), reader.new)) }
    ensures shorter { OnOk result (length reader.new < length reader.old) }
{
    let mut found = Fields::new(alloc);
    'members: while let Some(name) = reader.next_key()? {
        let key = Str::of(alloc, name)?;
        let member = read_value(alloc, reader, depth)?;
        found.set(key, member)?;
    }
    Ok(found.into_params()?)
}

// The number of a token, where it is one of 64 bits.
fn integer(text: &str) -> Option<Whole>
    ensures { IfSome result (λ n. number_of text.now ≡ Some (of_integer n)) }
{
    let bytes = text.as_bytes();
    if has_minus(bytes) {
        negative(&Numeral::scan(&bytes[1..]))
    } else {
        natural(&Numeral::scan(bytes))
    }
}

fn natural(numeral: &Numeral<'_>) -> Option<Whole>
    ensures { IfSome result (λ n. number_from false numeral.now ≡ Some (of_integer n)) }
{
    match numeral.to_u64() {
        Some(n) => Some(Whole::of_u64(n)),
        None => None,
    }
}

fn negative(numeral: &Numeral<'_>) -> Option<Whole>
    ensures { IfSome result (λ n. number_from true numeral.now ≡ Some (of_integer n)) }
{
    match numeral.to_i64(true) {
        Some(n) if n < 0 => Some(Whole::of_i64(n)),
        _ => None,
    }
}

fn has_minus(bytes: &[u8]) -> bool
    ensures value { result ≡ (slice_index bytes.now 0 == 45) }
    ensures len { IsTrue result → 0 < length bytes.now }
{
    !bytes.is_empty() && bytes[0] == b'-'
}
