// Values, texts and lists.
use crate::held::{boxed, equals, holds, is_told_from};
use ow_value::{
    Fields, Items, Lines, NoMemory, Pairs, Params, PlainData, Shared, Str, Val, Vals, ValueRefusal,
    Whole, bytes_of, copy, decimal_of, depth, digits_of, merge, read_deep, read_val, same, size,
    write_val,
};
use std::alloc::Global;
use std::cmp::Ordering;
use std::test::Fail;

fn text_of(alloc: Global, v: &Val) -> Result<String, ValueRefusal> {
    match String::from_utf8(write_val(alloc, v)?) {
        Ok(text) => Ok(text),
        Err(_) => Err(ValueRefusal::NotJson),
    }
}

// The text that is written for what was read.
fn rewritten(alloc: Global, text: &str) -> Result<String, ValueRefusal> {
    let read = read_val(alloc, text.as_bytes());
    match &read {
        Ok(v) => text_of(alloc, v),
        Err(refusal) => Err(*refusal),
    }
}

// Fails where the text isn't read as a value that is written so, or refused so.
fn comes_to(alloc: Global, text: &str, want: Result<&str, ValueRefusal>) -> Result<(), Fail> {
    match want {
        Ok(wanted) => equals(rewritten(alloc, text)?, wanted),
        Err(refusal) => holds(rewritten(alloc, text).err() == Some(refusal), text),
    }
}

// An empty list inside lists, `depth` lists in all.
fn nested(alloc: Global, depth: usize) -> Result<String, NoMemory> {
    let mut text = String::new(alloc);
    for _ in 0..depth {
        text.push_str("[")?;
    }
    for _ in 0..depth {
        text.push_str("]")?;
    }
    Ok(text)
}

fn list(alloc: Global) -> Result<Val, NoMemory> {
    let mut items = Vec::new(alloc);
    items.push(Val::Int(Whole::of_u64(1)))?;
    items.push(Val::Int(Whole::of_i64(-20)))?;
    items.push(Val::Bool(false))?;
    Ok(Val::List(Vals::from_vec(items)?))
}

fn set(
    alloc: Global,
    members: &mut Fields,
    name: &str,
    value: Result<Val, NoMemory>,
) -> Result<(), NoMemory> {
    let name = Str::of(alloc, name)?;
    members.set(name, value?)
}

fn sample(alloc: Global) -> Result<Params, NoMemory> {
    let mut members = Fields::new(alloc);
    set(alloc, &mut members, "list", list(alloc))?;
    let text = Str::of(alloc, "\"\u{1}é").map(Val::Text);
    set(alloc, &mut members, "in\n", text)?;
    set(alloc, &mut members, "none", Ok(Val::Null))?;
    members.into_params()
}

const TEXTS: [(&str, Result<&str, ValueRefusal>); 19] = [
    ("null", Ok("null")),
    (
        " {\"b\" : [true,\t-7], \"a\":\"\\u0041/\\/\" }\n",
        Ok("{\"a\":\"A//\",\"b\":[true,-7]}"),
    ),
    ("18446744073709551615", Ok("18446744073709551615")),
    ("-9223372036854775808", Ok("-9223372036854775808")),
    ("18446744073709551616", Err(ValueRefusal::NotWhole)),
    ("-9223372036854775809", Err(ValueRefusal::NotWhole)),
    ("0", Ok("0")),
    ("-0", Err(ValueRefusal::NotWhole)),
    ("1.0", Err(ValueRefusal::NotWhole)),
    ("1e2", Err(ValueRefusal::NotWhole)),
    ("1e999", Err(ValueRefusal::NotJson)),
    ("{\"a\":1.5,\"a\":1}", Ok("{\"a\":1}")),
    ("{\"a\":1,\"a\":1.5}", Err(ValueRefusal::NotWhole)),
    ("{\"a\":1e999,\"a\":1}", Err(ValueRefusal::NotJson)),
    ("{\"é\":1,\"z\":2,\"Z\":3}", Ok("{\"Z\":3,\"z\":2,\"é\":1}")),
    ("[1.5,", Err(ValueRefusal::NotJson)),
    ("[1,]", Err(ValueRefusal::NotJson)),
    ("1 2", Err(ValueRefusal::NotJson)),
    ("", Err(ValueRefusal::NotJson)),
];

#[test]
fn texts_that_are_values_and_texts_that_are_none(rt: HostRuntime) -> Result<(), Fail> {
    let alloc = rt.alloc();
    for (text, want) in TEXTS.iter() {
        comes_to(alloc, text, *want)?;
    }
    let refused = read_val(alloc, b"\"\xff\"").err();
    holds(refused == Some(ValueRefusal::NotJson), "no text")
}

const NO_JSON: Option<ValueRefusal> = Some(ValueRefusal::NotJson);

const TOO_DEEP: Option<ValueRefusal> = Some(ValueRefusal::TooDeep);

// How deep a text nests, and why it is no value and no record's value, if it is none.
const DEPTHS: [(usize, Option<ValueRefusal>, Option<ValueRefusal>); 6] = [
    (100, None, None),
    (101, TOO_DEEP, None),
    (102, TOO_DEEP, None),
    (103, TOO_DEEP, TOO_DEEP),
    (127, TOO_DEEP, TOO_DEEP),
    (128, NO_JSON, NO_JSON),
];

// Why a text that nests so deep is no value and no record's value, if it is none.
fn refusals_at(
    alloc: Global,
    depth: usize,
) -> Result<(Option<ValueRefusal>, Option<ValueRefusal>), NoMemory> {
    let text = nested(alloc, depth)?;
    Ok((
        read_val(alloc, text.as_bytes()).err(),
        read_deep(alloc, text.as_bytes()).err(),
    ))
}

#[test]
fn how_deep_a_text_may_nest(rt: HostRuntime) -> Result<(), Fail> {
    let alloc = rt.alloc();
    for (depth, val, deep) in DEPTHS.iter() {
        assert_eq!(rt; refusals_at(alloc, *depth)?, (*val, *deep), "{depth} deep");
    }
    Ok(())
}

fn equals_copy(alloc: Global, v: &Val) -> Result<bool, NoMemory> {
    let copied = copy(alloc, v);
    match &copied {
        Ok(copied) => Ok(same(v, copied)),
        Err(_) => Err(NoMemory),
    }
}

const SAMPLE: &str = "{\"in\\n\":\"\\\"\\u0001é\",\"list\":[1,-20,false],\"none\":null}";

#[test]
fn a_value_is_written_measured_and_copied(rt: HostRuntime) -> Result<(), Fail> {
    let alloc = rt.alloc();
    let v = boxed(alloc, sample(alloc).map(Val::Object))?;
    equals(text_of(alloc, &v)?, SAMPLE)?;
    assert_eq!(rt; size(&v), 54);
    assert!(rt; equals_copy(alloc, &v)?);
    assert!(rt; !same(&v, &Val::Null));
    Ok(())
}

// How many items the list of the name has.
fn length_of(members: &Params, name: &str) -> Option<usize> {
    match members.find(name) {
        Some(Val::List(items)) => Some(items.len()),
        _ => None,
    }
}

#[test]
fn members_are_found_by_name(rt: HostRuntime) -> Result<(), Fail> {
    let alloc = rt.alloc();
    let members = boxed(alloc, sample(alloc))?;
    assert_eq!(rt; members.len(), 3);
    assert!(rt; is_told_from(alloc, &*members, &Params::new())?);
    assert!(rt; matches!(members.find("none"), Some(Val::Null)));
    assert!(rt; members.find("non").is_none());
    assert_eq!(rt; length_of(&members, "list"), Some(3));
    Ok(())
}

// The object that the text is, or an empty one.
fn object(alloc: Global, text: &str) -> Result<Params, ValueRefusal> {
    match read_val(alloc, text.as_bytes())? {
        Val::Object(members) => Ok(members),
        _ => Ok(Params::new()),
    }
}

fn merged(alloc: Global, a: &str, b: &str) -> Result<String, Fail> {
    let a = boxed(alloc, object(alloc, a))?;
    let b = boxed(alloc, object(alloc, b))?;
    let merged = boxed(alloc, merge(alloc, &a, &b).map(Val::Object))?;
    Ok(text_of(alloc, &merged)?)
}

// Two objects, and what they are merged to.
const MERGED: [(&str, &str, &str); 3] = [
    (
        "{\"a\":1,\"c\":2,\"d\":3}",
        "{\"b\":4,\"c\":[5]}",
        "{\"a\":1,\"b\":4,\"c\":[5],\"d\":3}",
    ),
    ("{\"a\":1}", "{}", "{\"a\":1}"),
    ("{}", "{\"a\":1}", "{\"a\":1}"),
];

#[test]
fn a_merge_takes_the_later_values(rt: HostRuntime) -> Result<(), Fail> {
    let alloc = rt.alloc();
    for (a, b, want) in MERGED.iter() {
        equals(merged(alloc, a, b)?, want)?;
    }
    Ok(())
}

// A value, and how deep it nests.
const NESTED: [(&str, u32); 4] = [
    ("1", 0),
    ("[]", 1),
    ("[{\"a\":[]},1]", 3),
    ("{\"a\":{},\"b\":1}", 2),
];

fn depth_of(alloc: Global, text: &str) -> Result<u32, ValueRefusal> {
    let read = read_val(alloc, text.as_bytes());
    match &read {
        Ok(v) => Ok(depth(v)),
        Err(refusal) => Err(*refusal),
    }
}

#[test]
fn the_depth_of_a_value(rt: HostRuntime) -> Result<(), Fail> {
    let alloc = rt.alloc();
    for (text, want) in NESTED.iter() {
        holds(depth_of(alloc, text)? == *want, text)?;
    }
    Ok(())
}

#[test]
fn texts_are_compared_by_their_bytes(rt: HostRuntime) -> Result<(), Fail> {
    let alloc = rt.alloc();
    let text = boxed(alloc, Str::of(alloc, "é"))?;
    assert_eq!(rt; text.len(), 2);
    assert_eq!(rt; text.compare("f"), Ordering::Greater);
    assert_eq!(rt; Str::empty().as_str(), "");
    Ok(())
}

// Whether a copy of the items is equal to them, and no items are not.
fn is_told_from_none<T: PlainData + Drop>(
    alloc: Global,
    items: Result<Items<T>, NoMemory>,
) -> Result<bool, Fail> {
    let items = boxed(alloc, items)?;
    Ok(is_told_from(alloc, &*items, &Items::new())?)
}

fn line(alloc: Global) -> Result<Lines, NoMemory> {
    let mut lines = Vec::new(alloc);
    lines.push(Str::of(alloc, "é")?)?;
    Lines::from_vec(lines)
}

fn pair(alloc: Global) -> Result<Pairs, NoMemory> {
    let name = Str::of(alloc, "k")?;
    let text = Str::of(alloc, "é")?;
    let mut pairs = Vec::new(alloc);
    pairs.push((name, text))?;
    Pairs::from_vec(pairs)
}

const BYTES: &[u8] = b"ab\xff";

#[test]
fn lists_are_copied_and_told_apart(rt: HostRuntime) -> Result<(), Fail> {
    let alloc = rt.alloc();
    assert!(rt; is_told_from_none(alloc, line(alloc))?);
    assert!(rt; is_told_from_none(alloc, pair(alloc))?);
    assert!(rt; is_told_from_none(alloc, bytes_of(alloc, BYTES))?);
    let bytes = boxed(alloc, bytes_of(alloc, BYTES))?;
    assert_eq!(rt; bytes.as_slice(), BYTES);
    Ok(())
}

// A copy of a shared value. The first owner is dropped.
fn copied(alloc: Global) -> Result<Shared<Lines>, NoMemory> {
    let shared = Shared::new(alloc, line(alloc)?)?;
    shared.copy(alloc)
}

#[test]
fn a_shared_value_is_lent_and_copied(rt: HostRuntime) -> Result<(), Fail> {
    let alloc = rt.alloc();
    let copied = boxed(alloc, copied(alloc))?;
    assert_eq!(rt; copied.get().len(), 1);
    Ok(())
}

// A text, and the number that it is as digits and as a decimal.
const NUMBERS: [(&str, Option<u64>, Option<u64>); 9] = [
    ("", None, None),
    ("0", Some(0), Some(0)),
    ("00", Some(0), None),
    ("007", Some(7), None),
    ("70", Some(70), Some(70)),
    ("+7", None, None),
    ("7 ", None, None),
    ("18446744073709551615", Some(u64::MAX), Some(u64::MAX)),
    ("18446744073709551616", None, None),
];

#[test]
fn numbers_written_as_digits(rt: HostRuntime) -> Result<(), Fail> {
    for (text, digits, decimal) in NUMBERS.iter() {
        holds(digits_of(text.as_bytes()) == *digits, text)?;
        holds(decimal_of(text.as_bytes()) == *decimal, text)?;
    }
    Ok(())
}

#[test]
fn texts_that_may_be_missing(rt: HostRuntime) -> Result<(), Fail> {
    let alloc = rt.alloc();
    let some = boxed(alloc, Str::of(alloc, "a").map(Some))?;
    holds(is_told_from(alloc, &*some, &None)?, "a text")
}

// An object of the members `m0` to `m69`.
fn many(alloc: Global) -> Result<String, Fail> {
    let mut text = String::from_str(alloc, "{\"m0\":0")?;
    for i in 1..70u32 {
        let member = format!(in alloc; ",\"m{i}\":{i}")?;
        text.push_str(member.as_str())?;
    }
    text.push_str("}")?;
    Ok(text)
}

#[test]
fn an_object_of_many_members(rt: HostRuntime) -> Result<(), Fail> {
    let alloc = rt.alloc();
    let text = many(alloc)?;
    let members = boxed(alloc, object(alloc, text.as_str()))?;
    assert_eq!(rt; members.len(), 70);
    Ok(())
}

// Sets the members `m0` to `m69` to the value, by falling numbers.
fn set_all(alloc: Global, members: &mut Fields, value: u64) -> Result<(), NoMemory> {
    for i in 0..70u32 {
        let name = format!(in alloc; "m{}", 69 - i)?;
        members.set(Str::from_string(name)?, Val::Int(Whole::of_u64(value)))?;
    }
    Ok(())
}

// The members `m0` to `m69`, with an earlier value for each.
fn fallen(alloc: Global) -> Result<Params, NoMemory> {
    let mut members = Fields::new(alloc);
    set_all(alloc, &mut members, 1)?;
    set_all(alloc, &mut members, 2)?;
    members.into_params()
}

fn first_name(members: &Params) -> &str {
    match members.pairs().first() {
        Some(pair) => pair.name.as_str(),
        None => "",
    }
}

#[test]
fn an_object_is_built_from_names_in_any_order(rt: HostRuntime) -> Result<(), Fail> {
    let alloc = rt.alloc();
    let members = boxed(alloc, fallen(alloc))?;
    assert_eq!(rt; members.len(), 70);
    assert!(rt; matches!(members.find("m7"), Some(Val::Int(n)) if n.as_u64() == Some(2)));
    assert_eq!(rt; first_name(&members), "m0");
    Ok(())
}
