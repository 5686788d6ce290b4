use crate::held::{boxed, name_of, value_of};
use ow_entity::{EntityKind, Package, Row, read_entity, write_entity};
use ow_names::{FullName, read_name};
use ow_packages::{
    Effective, PackageRefusal, check_binding, check_override, effective, fixed_names, is_shared,
    package_of, reached_package,
};
use ow_tables::{TableRefusal, Tables};
use ow_value::{Params, PlainData, Val, merge, write_val};
use std::alloc::Global;
use std::test::Fail;

// The value of a text that is written with ' in place of ".
fn value(alloc: Global, text: &str) -> Result<Box<Val>, Fail> {
    let text = text.replace(alloc, "'", "\"")?;
    value_of(alloc, text.as_str())
}

fn is_written(alloc: Global, value: &Val, expected: &str) -> Result<bool, Fail> {
    let expected = expected.replace(alloc, "'", "\"")?;
    let written = write_val(alloc, value)?;
    Ok(written.as_slice() == expected.as_bytes())
}

fn put_body(
    alloc: Global,
    tables: &mut Tables,
    kind: EntityKind,
    name: &FullName,
    body: &Val,
) -> Result<(), TableRefusal> {
    let draft = read_entity(alloc, kind, name, body)?;
    let ready = tables.prepare_put(alloc, draft, true)?;
    tables.apply(ready);
    Ok(())
}

fn remove_row(
    alloc: Global,
    tables: &mut Tables,
    kind: EntityKind,
    name: &FullName,
) -> Result<(), TableRefusal> {
    let ready = tables.prepare_remove(alloc, kind, name)?;
    tables.apply(ready);
    Ok(())
}

// The number of the refusal, or 0.
fn told(answer: Result<(), TableRefusal>) -> u32 {
    match answer {
        Ok(()) => 0,
        Err(refusal) => refusal.number(),
    }
}

// The answer to a put that may replace the stored row.
fn put(
    alloc: Global,
    tables: &mut Tables,
    kind: EntityKind,
    path: &str,
    body: &str,
) -> Result<u32, Fail> {
    let name = name_of(alloc, path)?;
    let body = value(alloc, body)?;
    Ok(told(put_body(alloc, tables, kind, &name, &body)))
}

fn remove(alloc: Global, tables: &mut Tables, kind: EntityKind, path: &str) -> Result<u32, Fail> {
    let name = name_of(alloc, path)?;
    Ok(told(remove_row(alloc, tables, kind, &name)))
}

const ACTION: EntityKind = EntityKind::Action;

const PACKAGE: EntityKind = EntityKind::Package;

// A package, a binding of it, and an action in it, with parameters of all three; and packages of another namespace.
const ROWS: [(EntityKind, &str, &str, u32); 16] = [
    (
        PACKAGE,
        "p",
        "{'parameters':[{'key':'x','value':1},{'key':'p','value':1}]}",
        0,
    ),
    (
        PACKAGE,
        "b",
        "{'binding':{'name':'p','namespace':'_'},'parameters':[{'key':'x','value':2},{'key':'b','value':2}]}",
        0,
    ),
    (
        ACTION,
        "p/a",
        "{'exec':{'kind':'program:1','code':'c'},'parameters':[{'key':'x','value':3},{'key':'a','value':3}]}",
        0,
    ),
    (PACKAGE, "c", "{'binding':{'name':'b','namespace':'_'}}", 15),
    (
        PACKAGE,
        "c",
        "{'binding':{'name':'no','namespace':'_'}}",
        14,
    ),
    (PACKAGE, "/lib/closed", "{}", 0),
    (PACKAGE, "/lib/open", "{'publish':true}", 0),
    (
        PACKAGE,
        "/lib/bound",
        "{'publish':true,'binding':{'name':'closed','namespace':'_'}}",
        0,
    ),
    (
        ACTION,
        "/lib/closed/a",
        "{'exec':{'kind':'program:1','code':'closed'}}",
        0,
    ),
    (
        ACTION,
        "/lib/open/a",
        "{'exec':{'kind':'program:1','code':'open'}}",
        0,
    ),
    (
        ACTION,
        "/lib/a",
        "{'exec':{'kind':'program:1','code':'a'}}",
        0,
    ),
    (
        ACTION,
        "b/a",
        "{'exec':{'kind':'program:1','code':'c'}}",
        15,
    ),
    (
        ACTION,
        "no/a",
        "{'exec':{'kind':'program:1','code':'c'}}",
        14,
    ),
    (
        PACKAGE,
        "c",
        "{'binding':{'name':'closed','namespace':'lib'}}",
        14,
    ),
    (
        PACKAGE,
        "c",
        "{'binding':{'name':'open','namespace':'lib'}}",
        0,
    ),
    (PACKAGE, "c", "{'publish':true}", 0),
];

fn filled(alloc: Global) -> Result<Box<Tables>, Fail> {
    let mut tables = boxed(alloc, Tables::new(alloc))?;
    for (kind, path, body, number) in ROWS.iter() {
        if put(alloc, &mut tables, *kind, path, body)? != *number {
            return Err(Fail::new("another refusal"));
        }
    }
    Ok(tables)
}

fn is_merged(alloc: Global, e: &Effective, given: &Params, expected: &str) -> Result<bool, Fail> {
    let merged = boxed(alloc, merge(alloc, &e.params, given).map(Val::Object))?;
    is_written(alloc, &merged, expected)
}

// Whether a call of the effective action with the given parameters runs with the expected ones, or is refused with the
// expected fixed parameter.
fn is_given(alloc: Global, e: &Effective, given: &str, expected: &str) -> Result<bool, Fail> {
    let given = value(alloc, given)?;
    let Val::Object(given) = &*given else {
        return Ok(false);
    };
    match check_override(alloc, e, given, false) {
        Ok(()) => is_merged(alloc, e, given, expected),
        Err(PackageRefusal::Fixed { name }) => Ok(name.as_str() == expected),
        Err(_) => Ok(false),
    }
}

// Whether a call of the path from the namespace with the given parameters runs with the expected ones, or gets the expected number.
fn is_called(
    alloc: Global,
    tables: &Tables,
    path: &str,
    from: &str,
    given: &str,
    expected: &str,
) -> Result<bool, Fail> {
    let name = name_of(alloc, path)?;
    let from = boxed(alloc, read_name(alloc, from.as_bytes()))?;
    match effective(alloc, tables, &name, &from) {
        Ok(e) => is_given(alloc, &e, given, expected),
        Err(e) => Ok(e.number() == 14 && expected == "14"),
    }
}

// The path, the namespace from which it is called, the given parameters, and those of the run.
const CALLS: [(&str, &str, &str, &str); 12] = [
    ("b/a", "guest", "{'x':4}", "{'a':3,'b':2,'p':1,'x':4}"),
    ("b/a", "guest", "{}", "{'a':3,'b':2,'p':1,'x':3}"),
    ("p/a", "guest", "{}", "{'a':3,'p':1,'x':3}"),
    ("p/a", "lib", "{}", "14"),
    ("no/a", "guest", "{}", "14"),
    ("p/no", "guest", "{}", "14"),
    ("/lib/open/a", "guest", "{}", "{}"),
    ("c/a", "guest", "{}", "{}"),
    ("/lib/closed/a", "guest", "{}", "14"),
    ("/lib/bound/a", "guest", "{}", "{}"),
    ("/lib/a", "guest", "{}", "14"),
    (
        "/whisk.system/utils/echo",
        "guest",
        "{'a':null}",
        "{'a':null}",
    ),
];

#[test]
fn calls_are_given_what_stands_nearest(rt: HostRuntime) -> Result<(), Fail> {
    let alloc = rt.alloc();
    let tables = filled(alloc)?;
    for (path, from, given, expected) in CALLS.iter() {
        assert!(rt; is_called(alloc, &tables, path, from, given, expected)?);
    }
    Ok(())
}

// What the path calls, for guest.
fn called(alloc: Global, tables: &Tables, path: &str) -> Result<Box<Effective>, Fail> {
    let name = name_of(alloc, path)?;
    let guest = boxed(alloc, read_name(alloc, b"guest"))?;
    match effective(alloc, tables, &name, &guest) {
        Ok(e) => boxed(alloc, e.copy(alloc)),
        Err(_) => Err(Fail::new("no action")),
    }
}

#[test]
fn the_binding_that_a_name_goes_through_is_told(rt: HostRuntime) -> Result<(), Fail> {
    let alloc = rt.alloc();
    let tables = filled(alloc)?;
    let through = called(alloc, &tables, "b/a")?;
    let binding = name_of(alloc, "b")?;
    assert!(rt; through.binding.as_ref().is_some_and(|b| b.same(&binding)));
    let own = called(alloc, &tables, "p/a")?;
    assert!(rt; own.binding.is_none() && !own.same(&through) && own.action.same(&through.action));
    Ok(())
}

/// What is done to the rows.
#[derive(Clone, Copy, Drop)]
enum Act {
    PutAction,
    PutPackage,
    RemoveAction,
    RemovePackage,
    /// A call by guest.
    Call,
    /// The actions that a package shows.
    Show,
}

// What is done to a path, with which input, the expected result, and the expected number.
type Step = (Act, &'static str, &'static str, &'static str, u32);

fn is_told(alloc: Global, tables: &mut Tables, step: Step) -> Result<bool, Fail> {
    let (act, path, given, expected, number) = step;
    match act {
        Act::PutAction => Ok(put(alloc, tables, ACTION, path, given)? == number),
        Act::PutPackage => Ok(put(alloc, tables, PACKAGE, path, given)? == number),
        Act::RemoveAction => Ok(remove(alloc, tables, ACTION, path)? == number),
        Act::RemovePackage => Ok(remove(alloc, tables, PACKAGE, path)? == number),
        Act::Call => is_called(alloc, tables, path, "guest", given, expected),
        Act::Show => shows(alloc, tables, path, expected),
    }
}

// The first of these steps, counted from 0, with another answer than expected.
fn first_wrong(alloc: Global, steps: &[Step]) -> Result<Option<usize>, Fail> {
    let mut tables = filled(alloc)?;
    for number in 0..steps.len() {
        if !is_told(alloc, &mut tables, steps[number])? {
            return Ok(Some(number));
        }
    }
    Ok(None)
}

const FINAL: &str = "{'annotations':[{'key':'final','value':true}]}";

const FINAL_STANDS: [Step; 5] = [
    (Act::PutAction, "p/a", FINAL, "", 0),
    (Act::Call, "p/a", "{'x':4}", "x", 0),
    (Act::Call, "p/a", "{'x':3}", "x", 0),
    (Act::Call, "b/a", "{'c':1,'p':1}", "p", 0),
    (Act::Call, "p/a", "{'b':1}", "{'a':3,'b':1,'p':1,'x':3}", 0),
];

#[test]
fn final_parameters_stand(rt: HostRuntime) -> Result<(), Fail> {
    assert_eq!(rt; first_wrong(rt.alloc(), &FINAL_STANDS)?, None);
    Ok(())
}

const NULL: &str = "{'parameters':[{'key':'x','value':null}]}";

const NULL_IS_NONE: [Step; 5] = [
    (Act::PutAction, "p/a", FINAL, "", 0),
    (Act::PutPackage, "p", NULL, "", 0),
    (Act::PutPackage, "b", NULL, "", 0),
    (Act::PutAction, "p/a", NULL, "", 0),
    (Act::Call, "b/a", "{'x':4}", "{'x':4}", 0),
];

#[test]
fn null_is_no_value_of_a_final_parameter(rt: HostRuntime) -> Result<(), Fail> {
    assert_eq!(rt; first_wrong(rt.alloc(), &NULL_IS_NONE)?, None);
    Ok(())
}

#[test]
fn fixed_names_are_listed(rt: HostRuntime) -> Result<(), Fail> {
    let alloc = rt.alloc();
    let tables = filled(alloc)?;
    let e = called(alloc, &tables, "b/a")?;
    assert!(rt; fixed_names(alloc, &e, false)?.is_empty());
    let names = fixed_names(alloc, &e, true)?;
    assert_eq!(rt; names.len(), 4);
    assert!(rt;
        names
            .as_slice()
            .get(1)
            .is_some_and(|name| name.as_str() == "b")
    );
    Ok(())
}

// The answer to a binding of the path by a package of guest.
fn told_of_binding(alloc: Global, tables: &Tables, path: &str) -> Result<u32, Fail> {
    let target = name_of(alloc, path)?;
    let guest = boxed(alloc, read_name(alloc, b"guest"))?;
    match check_binding(tables, &target, &guest) {
        Ok(()) => Ok(0),
        Err(refusal) => Ok(refusal.number()),
    }
}

#[test]
fn bindings_bind_packages_that_bind_nothing(rt: HostRuntime) -> Result<(), Fail> {
    let alloc = rt.alloc();
    let tables = filled(alloc)?;
    for (path, number) in [("p", 0), ("b", 15), ("/lib/closed", 14)].iter() {
        assert_eq!(rt; told_of_binding(alloc, &tables, path)?, *number);
    }
    assert!(rt; is_open(alloc, &tables)?);
    Ok(())
}

// Whether guest reaches the shared package of lib, which lies in none.
fn is_open(alloc: Global, tables: &Tables) -> Result<bool, Fail> {
    let open = name_of(alloc, "/lib/open")?;
    let guest = boxed(alloc, read_name(alloc, b"guest"))?;
    let published = reached_package(tables, &open, &guest).is_some_and(|p| p.publish);
    Ok(published && is_shared(tables, &open) && package_of(alloc, &open)?.is_none())
}

fn package_in<'a>(tables: &'a Tables, name: &FullName) -> Result<&'a Package, Fail> {
    match tables.get(PACKAGE, name) {
        Ok(Row::Package(bundle)) => Ok(bundle.get()),
        _ => Err(Fail::new("no package")),
    }
}

// Whether the package shows these actions, now and once it is put as it is.
fn shows(alloc: Global, tables: &Tables, path: &str, expected: &str) -> Result<bool, Fail> {
    let name = name_of(alloc, path)?;
    let bundle = package_in(tables, &name)?;
    let shown = boxed(alloc, tables.actions_of(alloc, bundle).map(Val::List))?;
    let once_put = boxed(alloc, tables.actions_once_put(alloc, bundle).map(Val::List))?;
    Ok(is_written(alloc, &shown, expected)? && is_written(alloc, &once_put, expected)?)
}

const SHOWN: &str = "[{'annotations':[],'name':'a','version':'0.0.1'}]";

const BINDINGS_SHOW: [Step; 8] = [
    (Act::Show, "p", "", SHOWN, 0),
    (Act::Show, "b", "", SHOWN, 0),
    (Act::RemovePackage, "p", "", "", 21),
    (Act::RemoveAction, "b/a", "", "", 14),
    (Act::RemoveAction, "p/a", "", "", 0),
    (Act::RemovePackage, "p", "", "", 0),
    (Act::Show, "b", "", "[]", 0),
    (Act::Call, "b/a", "{}", "14", 0),
];

#[test]
fn bindings_show_what_the_bound_package_holds(rt: HostRuntime) -> Result<(), Fail> {
    assert_eq!(rt; first_wrong(rt.alloc(), &BINDINGS_SHOW)?, None);
    Ok(())
}

const BINDS_UTILS: &str = "{'binding':{'name':'utils','namespace':'whisk.system'}}";

const ACTIONS_STAY: [Step; 7] = [
    (Act::PutPackage, "p", BINDS_UTILS, "", 0),
    (Act::RemoveAction, "p/a", "", "", 15),
    (Act::RemovePackage, "p", "", "", 21),
    (Act::Call, "p/a", "{}", "14", 0),
    (Act::Call, "b/a", "{}", "{'a':3,'b':2,'p':1,'x':3}", 0),
    (Act::PutPackage, "p", "{'binding':{}}", "", 0),
    (Act::RemoveAction, "p/a", "", "", 0),
];

#[test]
fn actions_of_a_package_that_was_made_a_binding_stay(rt: HostRuntime) -> Result<(), Fail> {
    assert_eq!(rt; first_wrong(rt.alloc(), &ACTIONS_STAY)?, None);
    Ok(())
}

// A body of a package in lib, and the number of its refusal, or 0.
const BODIES: [(&str, u32); 12] = [
    ("[]", 10),
    ("{'publish':1,'binding':2}", 10),
    ("{'binding':null}", 10),
    ("{'binding':{'name':'p'}}", 9),
    ("{'binding':{'name':'','namespace':1}}", 10),
    ("{'binding':{'name':1,'namespace':''}}", 10),
    ("{'binding':{'name':' ','namespace':''}}", 4),
    ("{'binding':{'name':'','namespace':' '}}", 6),
    ("{'binding':{'name':'a ','namespace':'_'}}", 7),
    ("{'binding':{'name':'p','namespace':'_'},'exec':1}", 0),
    ("{'binding':{}}", 0),
    ("{}", 0),
];

#[test]
fn bodies_of_packages_are_refused_in_order(rt: HostRuntime) -> Result<(), Fail> {
    let alloc = rt.alloc();
    let name = name_of(alloc, "/lib/x")?;
    for (body, number) in BODIES.iter() {
        let body = value(alloc, body)?;
        let refused = read_entity(alloc, PACKAGE, &name, &body).err();
        assert_eq!(rt; refused.map_or(0, |e| e.number()), *number);
    }
    Ok(())
}

const UPDATED: &str =
    "{'annotations':[],'binding':{'name':'open','namespace':'lib'},'name':'c','namespace':'guest','parameters':[],'publish':true,'version':'0.0.2'}";

#[test]
fn an_update_of_a_package_keeps_its_binding(rt: HostRuntime) -> Result<(), Fail> {
    let alloc = rt.alloc();
    let tables = filled(alloc)?;
    let name = name_of(alloc, "c")?;
    let shown = boxed(alloc, write_entity(alloc, tables.get(PACKAGE, &name)?))?;
    assert!(rt; is_written(alloc, &shown, UPDATED)?);
    Ok(())
}
