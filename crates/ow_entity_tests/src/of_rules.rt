use crate::held::{boxed, name_of, value_of};
use ow_entity::{EntityKind, Rule, read_entity, read_status, write_entity};
use ow_names::FullName;
use ow_rules::{Rules, fired, prepare_rule, set_status};
use ow_tables::{TableRefusal, Tables};
use ow_value::{Shared, Val, write_val};
use std::alloc::Global;
use std::test::Fail;

const ACTION: EntityKind = EntityKind::Action;

const RULE: EntityKind = EntityKind::Rule;

const TRIGGER: EntityKind = EntityKind::Trigger;

const CODE: &str = "{\"exec\":{\"code\":\"no program\",\"kind\":\"program:1\"}}";

const JOINS: &str = "{\"trigger\":\"t\",\"action\":\"a\"}";

fn put(
    tables: &mut Tables,
    alloc: Global,
    kind: EntityKind,
    name: &FullName,
    body: &Val,
) -> Result<(), TableRefusal> {
    let draft = read_entity(alloc, kind, name, body)?;
    let ready = prepare_rule(alloc, tables, draft, true)?;
    tables.apply(ready);
    Ok(())
}

// The number of the refusal of a put of the body at the path, or 0.
fn told_of_put(
    tables: &mut Tables,
    alloc: Global,
    of: (EntityKind, &str),
    body: &str,
) -> Result<u32, Fail> {
    let name = name_of(alloc, of.1)?;
    let body = value_of(alloc, body)?;
    match put(tables, alloc, of.0, &name, &body) {
        Ok(()) => Ok(0),
        Err(refusal) => Ok(refusal.number()),
    }
}

// Puts one after the other, and the number of the refusal of each, or 0.
const PUTS: [(EntityKind, &str, &str, u32); 16] = [
    (RULE, "r", JOINS, 14),
    (ACTION, "a", CODE, 0),
    (RULE, "r", JOINS, 14),
    (TRIGGER, "t", "{\"parameters\":1}", 10),
    (TRIGGER, "t", "{}", 0),
    (RULE, "r", "{}", 9),
    (RULE, "r", "{\"trigger\":\"t\"}", 9),
    (RULE, "r", "{\"trigger\":\"t\",\"action\":1}", 10),
    (RULE, "r", "{\"trigger\":\"/t\",\"action\":1}", 8),
    (RULE, "r", "{\"trigger\":\"t\",\"action\":\"no\"}", 14),
    (RULE, "r", "{\"action\":\"no\"}", 14),
    (
        RULE,
        "/other/r",
        "{\"trigger\":\"/guest/t\",\"action\":\"/guest/a\"}",
        14,
    ),
    (RULE, "/other/r", "{\"action\":\"/guest/a\"}", 14),
    (
        RULE,
        "r",
        "{\"trigger\":\"t\",\"action\":\"/whisk.system/utils/echo\"}",
        0,
    ),
    (RULE, "r", JOINS, 0),
    (RULE, "r", "{}", 0),
];

#[test]
fn rules_join_what_their_namespace_reaches(rt: HostRuntime) -> Result<(), Fail> {
    let alloc = rt.alloc();
    let mut tables = boxed(alloc, Tables::new(alloc))?;
    for (kind, path, body, number) in PUTS.iter() {
        assert_eq!(rt;
            told_of_put(&mut tables, alloc, (*kind, path), body)?,
            *number
        );
    }
    removed(&mut tables, alloc, "a")?;
    assert_eq!(rt; told_of_put(&mut tables, alloc, (RULE, "r"), "{}")?, 14);
    Ok(())
}

fn removed(tables: &mut Tables, alloc: Global, path: &str) -> Result<(), Fail> {
    let name = name_of(alloc, path)?;
    let ready = tables.prepare_remove(alloc, ACTION, &name)?;
    tables.apply(ready);
    Ok(())
}

// A trigger, an action, and rules of these names that join them.
fn filled(alloc: Global, rules: &[&str]) -> Result<Box<Tables>, Fail> {
    let mut tables = boxed(alloc, Tables::new(alloc))?;
    told_of_put(&mut tables, alloc, (ACTION, "a"), CODE)?;
    for path in ["t", "u"].iter() {
        told_of_put(&mut tables, alloc, (TRIGGER, path), "{}")?;
    }
    for path in rules {
        told_of_put(&mut tables, alloc, (RULE, path), JOINS)?;
    }
    Ok(tables)
}

// Whether the status of the rule changes.
fn set(tables: &mut Tables, alloc: Global, path: &str, active: bool) -> Result<bool, Fail> {
    let name = name_of(alloc, path)?;
    match set_status(alloc, tables, &name, active)? {
        Some(ready) => {
            tables.apply(ready);
            Ok(true)
        }
        None => Ok(false),
    }
}

// Whether the row is shown so.
fn shows(tables: &Tables, alloc: Global, of: (EntityKind, &str), text: &str) -> Result<bool, Fail> {
    let name = name_of(alloc, of.1)?;
    let shown = boxed(alloc, write_entity(alloc, tables.get(of.0, &name)?))?;
    let written = write_val(alloc, &shown)?;
    Ok(written.as_slice() == text.as_bytes())
}

const ACTIVE: &str =
    "{\"action\":\"/guest/a\",\"annotations\":[],\"name\":\"r\",\"namespace\":\"guest\",\"publish\":false,\"status\":\"active\",\"trigger\":\"/guest/t\",\"version\":\"0.0.1\"}";

const INACTIVE: &str =
    "{\"action\":\"/guest/a\",\"annotations\":[],\"name\":\"r\",\"namespace\":\"guest\",\"publish\":false,\"status\":\"inactive\",\"trigger\":\"/guest/t\",\"version\":\"0.0.1\"}";

const UPDATED: &str =
    "{\"action\":\"/guest/a\",\"annotations\":[],\"name\":\"r\",\"namespace\":\"guest\",\"publish\":true,\"status\":\"inactive\",\"trigger\":\"/guest/t\",\"version\":\"0.0.2\"}";

#[test]
fn a_status_keeps_the_version(rt: HostRuntime) -> Result<(), Fail> {
    let alloc = rt.alloc();
    let mut tables = filled(alloc, &["r"])?;
    assert!(rt; !set(&mut tables, alloc, "r", true)?);
    assert!(rt; shows(&tables, alloc, (RULE, "r"), ACTIVE)?);
    assert!(rt; set(&mut tables, alloc, "r", false)?);
    assert!(rt; !set(&mut tables, alloc, "r", false)?);
    assert!(rt; shows(&tables, alloc, (RULE, "r"), INACTIVE)?);
    told_of_put(&mut tables, alloc, (RULE, "r"), "{\"publish\":true}")?;
    assert!(rt; shows(&tables, alloc, (RULE, "r"), UPDATED)?);
    Ok(())
}

// Bodies that set a status: 1 for active, 2 for inactive, and else the number of the refusal.
const STATUSES: [(&str, u32); 6] = [
    ("{\"status\":\"active\"}", 1),
    ("{\"status\":\"inactive\"}", 2),
    ("{}", 9),
    ("{\"status\":true}", 10),
    ("[]", 10),
    ("{\"status\":\"on\"}", 11),
];

fn told_of_status(alloc: Global, body: &str) -> Result<u32, Fail> {
    let body = value_of(alloc, body)?;
    match read_status(&body) {
        Ok(true) => Ok(1),
        Ok(false) => Ok(2),
        Err(refusal) => Ok(refusal.number()),
    }
}

#[test]
fn bodies_set_one_of_two_statuses(rt: HostRuntime) -> Result<(), Fail> {
    let alloc = rt.alloc();
    for (body, number) in STATUSES.iter() {
        assert_eq!(rt; told_of_status(alloc, body)?, *number);
    }
    Ok(())
}

const GIVEN: &str = "{\"parameters\":[{\"key\":\"b\",\"value\":2}]}";

const NEW: &str =
    "{\"annotations\":[],\"name\":\"t\",\"namespace\":\"guest\",\"parameters\":[{\"key\":\"b\",\"value\":2}],\"publish\":false,\"version\":\"0.0.1\"}";

const NEXT: &str =
    "{\"annotations\":[],\"name\":\"t\",\"namespace\":\"guest\",\"parameters\":[{\"key\":\"b\",\"value\":2}],\"publish\":true,\"version\":\"0.0.2\"}";

#[test]
fn triggers_are_shown_with_their_parameters(rt: HostRuntime) -> Result<(), Fail> {
    let alloc = rt.alloc();
    let mut tables = boxed(alloc, Tables::new(alloc))?;
    for (body, text) in [(GIVEN, NEW), ("{\"publish\":true}", NEXT)].iter() {
        told_of_put(&mut tables, alloc, (TRIGGER, "t"), body)?;
        assert!(rt; shows(&tables, alloc, (TRIGGER, "t"), text)?);
    }
    Ok(())
}

fn names_of(alloc: Global, rules: &[Shared<Rule>]) -> Result<String, Fail> {
    let mut names = String::new(alloc);
    for rule in rules {
        names.push_str(rule.get().name.name.as_str())?;
        names.push(' ')?;
    }
    Ok(names)
}

// Whether a fire of the trigger follows the rules of these names.
fn follows(tables: &Tables, alloc: Global, path: &str, names: &str) -> Result<bool, Fail> {
    let name = name_of(alloc, path)?;
    let rules: Box<Rules> = boxed(alloc, fired(alloc, tables, &name))?;
    Ok(names_of(alloc, rules.as_slice())?.as_str() == names)
}

#[test]
fn fires_follow_active_rules_by_name(rt: HostRuntime) -> Result<(), Fail> {
    let alloc = rt.alloc();
    let mut tables = filled(alloc, &["r3", "r1", "r2", "r4"])?;
    assert!(rt; set(&mut tables, alloc, "r2", false)?);
    told_of_put(&mut tables, alloc, (RULE, "r4"), "{\"trigger\":\"u\"}")?;
    let fires = [("t", "r1 r3 "), ("u", "r4 "), ("no", "")];
    for (path, names) in fires.iter() {
        assert!(rt; follows(&tables, alloc, path, names)?);
    }
    Ok(())
}
