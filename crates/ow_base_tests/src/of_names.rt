// Names, full names and paths.
use crate::held::{boxed, equals, holds, is_told_from};
use ow_names::{
    EntityName, FullName, NameRefusal, Names, check_name, full_text, named_in, read_full_text,
    read_name, resolve,
};
use ow_value::PlainData;
use std::alloc::Global;
use std::cmp::Ordering;
use std::test::Fail;

fn name(alloc: Global, text: &str) -> Result<EntityName, NameRefusal> {
    read_name(alloc, text.as_bytes())
}

fn is_name(alloc: Global, text: &str) -> Result<bool, NameRefusal> {
    let name = name(alloc, text)?;
    Ok(name.as_str() == text && check_name(text.as_bytes()) == Ok(()))
}

const GOOD_NAMES: [&str; 4] = ["a", "_", "a b", "7@.-z"];

// A text that is no name, why it is none, and the number of that.
const BAD_NAMES: [(&str, NameRefusal, u32); 5] = [
    ("", NameRefusal::Empty, 4),
    ("-a", NameRefusal::BadChar { place: 0 }, 6),
    ("a/b", NameRefusal::BadChar { place: 1 }, 6),
    ("ab\u{e4} ", NameRefusal::BadChar { place: 2 }, 6),
    ("a ", NameRefusal::EndsInSpace, 7),
];

fn is_no_name(text: &str, refusal: NameRefusal, number: u32) -> bool {
    check_name(text.as_bytes()) == Err(refusal) && refusal.number() == number
}

#[test]
fn names_are_read_where_they_are_names(rt: HostRuntime) -> Result<(), Fail> {
    let alloc = rt.alloc();
    for text in GOOD_NAMES.iter() {
        holds(is_name(alloc, text)?, text)?;
    }
    for (text, refusal, number) in BAD_NAMES.iter() {
        holds(is_no_name(text, *refusal, *number), text)?;
    }
    Ok(())
}

// How many bytes are read of a name of `bytes` bytes.
fn read_length(alloc: Global, bytes: usize) -> Result<usize, NameRefusal> {
    let Ok(text) = "a".repeat(alloc, bytes) else {
        return Err(NameRefusal::NoMemory);
    };
    Ok(name(alloc, text.as_str())?.as_str().len())
}

#[test]
fn a_name_has_256_bytes_at_most(rt: HostRuntime) {
    let alloc = rt.alloc();
    assert_eq!(rt; read_length(alloc, 256), Ok(256));
    assert_eq!(rt; read_length(alloc, 257), Err(NameRefusal::TooLong));
    assert_eq!(rt; NameRefusal::TooLong.number(), 5);
}

// The full text of the path, read in the namespace guest.
fn resolved(alloc: Global, path: &str) -> Result<String, NameRefusal> {
    written(alloc, full(alloc, path))
}

fn written(alloc: Global, full: Result<FullName, NameRefusal>) -> Result<String, NameRefusal> {
    match &full {
        Ok(full) => Ok(full_text(alloc, full)?),
        Err(refusal) => Err(*refusal),
    }
}

fn full(alloc: Global, path: &str) -> Result<FullName, NameRefusal> {
    let guest = name(alloc, "guest")?;
    resolve(alloc, path, &guest)
}

// A path, and the full text of what it is.
const PATHS: [(&str, &str); 5] = [
    ("b", "/guest/b"),
    ("_/b", "/guest/_/b"),
    ("/_/b", "/guest/b"),
    ("/_/_/b", "/guest/_/b"),
    ("/other/p/b c", "/other/p/b c"),
];

#[test]
fn paths_have_four_forms(rt: HostRuntime) -> Result<(), Fail> {
    let alloc = rt.alloc();
    for (path, text) in PATHS.iter() {
        equals(resolved(alloc, path)?, text)?;
    }
    Ok(())
}

const BAD_PATHS: [(&str, NameRefusal); 9] = [
    ("a/b/c", NameRefusal::BadPath),
    ("/a/b/c/d", NameRefusal::BadPath),
    ("/", NameRefusal::BadPath),
    ("/a", NameRefusal::BadPath),
    ("", NameRefusal::Empty),
    ("a/", NameRefusal::Empty),
    ("/a/", NameRefusal::Empty),
    ("/-/b ", NameRefusal::BadChar { place: 0 }),
    ("a /b", NameRefusal::EndsInSpace),
];

#[test]
fn paths_of_other_forms_are_refused(rt: HostRuntime) -> Result<(), Fail> {
    let alloc = rt.alloc();
    for (path, refusal) in BAD_PATHS.iter() {
        holds(resolved(alloc, path).err() == Some(*refusal), path)?;
    }
    holds(
        NameRefusal::BadPath.number() == 8,
        "the number of a bad path",
    )
}

// The full text of the name that a full text is read as.
fn reread(alloc: Global, text: &str) -> Result<String, NameRefusal> {
    written(alloc, read_full_text(alloc, text.as_bytes()))
}

const FULL_TEXTS: [&str; 4] = ["/_/b", "/_/_/b", "/a b/c", "/other/p/b c"];

#[test]
fn full_texts_have_two_forms(rt: HostRuntime) -> Result<(), Fail> {
    let alloc = rt.alloc();
    for text in FULL_TEXTS.iter() {
        equals(reread(alloc, text)?, text)?;
    }
    Ok(())
}

const BAD_FULL_TEXTS: [(&str, NameRefusal); 11] = [
    ("", NameRefusal::BadPath),
    ("b", NameRefusal::BadPath),
    ("a/b", NameRefusal::BadPath),
    ("/a", NameRefusal::BadPath),
    ("a/b/c", NameRefusal::BadPath),
    ("/a/b/c/d", NameRefusal::BadPath),
    ("//b", NameRefusal::Empty),
    ("/a/", NameRefusal::Empty),
    ("/a//c", NameRefusal::Empty),
    ("/-/b ", NameRefusal::BadChar { place: 0 }),
    ("/a/b /-", NameRefusal::EndsInSpace),
];

#[test]
fn texts_of_other_forms_are_refused(rt: HostRuntime) -> Result<(), Fail> {
    let alloc = rt.alloc();
    for (text, refusal) in BAD_FULL_TEXTS.iter() {
        holds(reread(alloc, text).err() == Some(*refusal), text)?;
    }
    Ok(())
}

// The full text of the parts, read in the namespace guest.
fn within(alloc: Global, namespace: &str, package: Option<&[u8]>) -> Result<String, NameRefusal> {
    let guest = name(alloc, "guest")?;
    written(
        alloc,
        named_in(alloc, &guest, namespace.as_bytes(), package, b"b"),
    )
}

#[test]
fn parts_are_named_in_their_namespace(rt: HostRuntime) -> Result<(), Fail> {
    let alloc = rt.alloc();
    equals(within(alloc, "_", None)?, "/guest/b")?;
    equals(within(alloc, "other", Some(b"_".as_slice()))?, "/other/_/b")?;
    let refused = within(alloc, "", Some(b" ".as_slice())).err();
    holds(refused == Some(NameRefusal::Empty), "an empty namespace")
}

#[test]
fn names_that_may_be_none_are_copied(rt: HostRuntime) -> Result<(), Fail> {
    let alloc = rt.alloc();
    let whole = boxed(alloc, full(alloc, "p/a").map(Some))?;
    holds(is_told_from(alloc, &*whole, &None)?, "a full name")
}

#[test]
fn parts_that_may_be_none_are_copied(rt: HostRuntime) -> Result<(), Fail> {
    let alloc = rt.alloc();
    let part = boxed(alloc, name(alloc, "p").map(Some))?;
    holds(is_told_from(alloc, &*part, &None)?, "a part")
}

fn order_of(alloc: Global, a: &str, b: &str) -> Result<Ordering, Fail> {
    let a = boxed(alloc, full(alloc, a))?;
    let b = boxed(alloc, full(alloc, b))?;
    Ok(a.compare(&b))
}

fn order_of_parts(alloc: Global, a: &str, b: &str) -> Result<Ordering, Fail> {
    let a = boxed(alloc, name(alloc, a))?;
    let b = boxed(alloc, name(alloc, b))?;
    Ok(a.compare_as_part(&b))
}

// A slash comes after a space, a dot and a hyphen, and before all other bytes of a name.
const RISING: [&str; 7] = [
    "/a b/x", "/a/p.q/x", "/a/p/x", "/a/p/y", "/a/p0", "/a/q", "/ab/p",
];

#[test]
fn names_are_ordered_by_their_full_texts(rt: HostRuntime) -> Result<(), Fail> {
    let alloc = rt.alloc();
    for (i, lower) in RISING.iter().enumerate() {
        for (j, upper) in RISING.iter().enumerate() {
            holds(order_of(alloc, lower, upper)? == i.cmp(&j), lower)?;
        }
    }
    holds(order_of_parts(alloc, "a b", "a")? == Ordering::Less, "a b")
}

fn listed(alloc: Global, paths: &[&str]) -> Result<Box<Names>, Fail> {
    let mut names = Vec::new(alloc);
    for path in paths {
        names.push(full(alloc, path)?)?;
    }
    boxed(alloc, Names::from_vec(names))
}

// Whether the list is that of these paths.
fn is_list_of(alloc: Global, names: &Names, paths: &[&str]) -> Result<bool, Fail> {
    let others = listed(alloc, paths)?;
    Ok(others.same(names))
}

#[test]
fn lists_keep_their_names(rt: HostRuntime) -> Result<(), Fail> {
    let alloc = rt.alloc();
    assert!(rt; Names::new().is_empty());
    let names = listed(alloc, &["p/a", "b"])?;
    assert_eq!(rt; (names.len(), names.as_slice().len()), (2, 2));
    assert!(rt; is_list_of(alloc, &names, &["p/a", "b"])?);
    assert!(rt; !is_list_of(alloc, &names, &["p/a", "b", "c"])?);
    Ok(())
}
