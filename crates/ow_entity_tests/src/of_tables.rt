use crate::held::{boxed, name_of, value_of};
use ow_entity::{Draft, EntityKind, EntityRefusal, Lookup, Row, read_entity};
use ow_names::{FullName, read_name};
use ow_tables::{TableRefusal, Tables, is_builtin};
use ow_value::{PlainData, Str, Val, Vals};
use std::alloc::Global;
use std::test::Fail;

const CODE: &str = "{\"exec\":{\"code\":\"no program\",\"kind\":\"program:1\"}}";

fn put(
    tables: &mut Tables,
    alloc: Global,
    name: &FullName,
    body: &Val,
    overwrite: bool,
) -> Result<(), TableRefusal> {
    let draft = read_entity(alloc, EntityKind::Action, name, body)?;
    put_draft(tables, alloc, draft, overwrite)
}

fn put_draft(
    tables: &mut Tables,
    alloc: Global,
    draft: Draft,
    overwrite: bool,
) -> Result<(), TableRefusal> {
    let ready = tables.prepare_put(alloc, draft, overwrite)?;
    tables.apply(ready);
    Ok(())
}

fn remove(
    tables: &mut Tables,
    alloc: Global,
    kind: EntityKind,
    name: &FullName,
) -> Result<(), TableRefusal> {
    let ready = tables.prepare_remove(alloc, kind, name)?;
    tables.apply(ready);
    Ok(())
}

// The number of the refusal, or 0.
fn told(answer: Result<(), TableRefusal>) -> u32 {
    match answer {
        Ok(()) => 0,
        Err(refusal) => refusal.number(),
    }
}

// The answer to a put of the body at the path.
fn told_of_put(
    tables: &mut Tables,
    alloc: Global,
    path: &str,
    body: &str,
    overwrite: bool,
) -> Result<u32, Fail> {
    let name = name_of(alloc, path)?;
    let body = value_of(alloc, body)?;
    Ok(told(put(tables, alloc, &name, &body, overwrite)))
}

// The answer to a removal at the path.
fn told_of_removal(
    tables: &mut Tables,
    alloc: Global,
    kind: EntityKind,
    path: &str,
) -> Result<u32, Fail> {
    let name = name_of(alloc, path)?;
    Ok(told(remove(tables, alloc, kind, &name)))
}

#[test]
fn puts_are_refused_in_order(rt: HostRuntime) -> Result<(), Fail> {
    let alloc = rt.alloc();
    let mut tables = boxed(alloc, Tables::new(alloc))?;
    let puts = [
        ("a", CODE, false, 0),
        ("a", "{}", false, 17),
        ("a", "{}", true, 0),
        ("b", "{}", false, 9),
        ("b", "{}", true, 9),
        ("/whisk.system/utils/echo", CODE, false, 17),
        ("/whisk.system/utils/b", CODE, false, 0),
        ("/guest/utils/b", CODE, false, 14),
        ("p/b", "{}", true, 14),
    ];
    for (path, body, overwrite, number) in puts.iter() {
        assert_eq!(rt;
            told_of_put(&mut tables, alloc, path, body, *overwrite)?,
            *number
        );
    }
    Ok(())
}

// The body of a sequence of these components, each in quotes.
fn sequence_of(alloc: Global, components: &str) -> Result<String, Fail> {
    let body = format!(in alloc; "{{'exec':{{'kind':'sequence','components':[{components}]}}}}")?;
    Ok(body.replace(alloc, "'", "\"")?)
}

#[test]
fn a_sequence_may_not_contain_itself(rt: HostRuntime) -> Result<(), Fail> {
    let alloc = rt.alloc();
    let mut tables = boxed(alloc, Tables::new(alloc))?;
    let puts = [
        ("s", "'s'", 20),
        ("s", "'a','b'", 0),
        ("t", "'a','s','s'", 0),
        ("u", "'t','s','/whisk.system/utils/echo'", 0),
        ("s", "'a','u'", 20),
        ("s", "'no'", 0),
        ("s", "'t'", 20),
    ];
    for (path, components, number) in puts.iter() {
        let body = sequence_of(alloc, components)?;
        assert_eq!(rt;
            told_of_put(&mut tables, alloc, path, body.as_str(), true)?,
            *number
        );
    }
    Ok(())
}

#[test]
fn a_sequence_has_fifty_components_at_most(rt: HostRuntime) -> Result<(), Fail> {
    let alloc = rt.alloc();
    let mut tables = boxed(alloc, Tables::new(alloc))?;
    for (count, number) in [(49, 0), (50, 19)].iter() {
        let more = "'a',".repeat(alloc, *count)?;
        let components = format!(in alloc; "{more}'s'")?;
        let body = sequence_of(alloc, components.as_str())?;
        assert_eq!(rt;
            told_of_put(&mut tables, alloc, "b", body.as_str(), true)?,
            *number
        );
    }
    Ok(())
}

#[test]
fn refusals_of_drafts_keep_their_numbers(rt: HostRuntime) -> Result<(), Fail> {
    let last = TableRefusal::from(EntityRefusal::LastVersion);
    assert_eq!(rt; last.number(), 18);
    assert_eq!(rt; TableRefusal::from(EntityRefusal::NoMemory).number(), 0);
    Ok(())
}

#[test]
fn removals_are_refused_where_no_row_stands(rt: HostRuntime) -> Result<(), Fail> {
    let alloc = rt.alloc();
    let mut tables = boxed(alloc, Tables::new(alloc))?;
    assert_eq!(rt; told_of_put(&mut tables, alloc, "a", CODE, false)?, 0);
    let removals = [
        (EntityKind::Trigger, "a", 14),
        (EntityKind::Action, "b", 14),
        (EntityKind::Action, "a", 0),
        (EntityKind::Action, "a", 14),
        (EntityKind::Package, "/whisk.system/utils", 21),
    ];
    for (kind, path, number) in removals.iter() {
        assert_eq!(rt; told_of_removal(&mut tables, alloc, *kind, path)?, *number);
    }
    assert_eq!(rt; TableRefusal::NoMemory.number(), 0);
    Ok(())
}

fn name_in(value: &Val) -> Option<&Str> {
    let Val::Object(fields) = value else {
        return None;
    };
    match fields.find("name") {
        Some(Val::Text(name)) => Some(name),
        _ => None,
    }
}

// The names that a list shows, each followed by a space.
fn names(alloc: Global, shown: &Vals) -> Result<String, Fail> {
    let mut names = String::new(alloc);
    for name in shown.items().iter().filter_map(name_in) {
        names.push_str(name.as_str())?;
        names.push(' ')?;
    }
    Ok(names)
}

// Whether the part of the list shows these names.
fn lists(
    alloc: Global,
    tables: &Tables,
    of: (EntityKind, &str),
    part: (u64, u64),
    expected: &str,
) -> Result<bool, Fail> {
    let namespace = boxed(alloc, read_name(alloc, of.1.as_bytes()))?;
    let shown = boxed(alloc, tables.list(alloc, of.0, &namespace, part.0, part.1))?;
    Ok(names(alloc, &shown)?.as_str() == expected)
}

// Some actions, of which one is put twice.
fn filled(alloc: Global) -> Result<Box<Tables>, Fail> {
    let mut tables = boxed(alloc, Tables::new(alloc))?;
    for path in ["c", "/other/d", "a", "b", "a"].iter() {
        told_of_put(&mut tables, alloc, path, CODE, true)?;
    }
    Ok(tables)
}

#[test]
fn lists_are_by_name(rt: HostRuntime) -> Result<(), Fail> {
    let alloc = rt.alloc();
    let tables = boxed(alloc, filled(alloc)?.copy(alloc))?;
    let parts = [
        (EntityKind::Action, "guest", (0, 10), "a b c "),
        (EntityKind::Action, "guest", (1, 1), "b "),
        (EntityKind::Action, "guest", (2, 5), "c "),
        (EntityKind::Action, "guest", (3, 5), ""),
        (EntityKind::Action, "guest", (0, 0), ""),
        (EntityKind::Action, "guest", (u64::MAX, u64::MAX), ""),
        (EntityKind::Trigger, "guest", (0, 10), ""),
        (EntityKind::Action, "other", (0, 10), "d "),
        (EntityKind::Action, "whisk.system", (0, 10), "echo "),
        (EntityKind::Package, "whisk.system", (0, 10), "utils "),
    ];
    for (kind, namespace, part, names) in parts.iter() {
        assert!(rt; lists(alloc, &tables, (*kind, namespace), *part, names)?);
    }
    Ok(())
}

#[test]
fn rows_are_found_by_kind_and_name(rt: HostRuntime) -> Result<(), Fail> {
    let alloc = rt.alloc();
    let tables = filled(alloc)?;
    let a = name_of(alloc, "a")?;
    assert_eq!(rt; tables.get(EntityKind::Action, &a)?.version(), 2);
    assert!(rt; tables.get(EntityKind::Rule, &a).is_err());
    let b = name_of(alloc, "b")?;
    assert!(rt;
        tables
            .row(EntityKind::Action, &b)
            .is_some_and(|row| row.version() == 1)
    );
    Ok(())
}

// Copies of the rows of these actions.
fn copies(alloc: Global, tables: &Tables, paths: &[&str]) -> Result<Vec<Row>, Fail> {
    let mut rows = Vec::new(alloc);
    for path in paths.iter() {
        let name = name_of(alloc, path)?;
        rows.push(tables.get(EntityKind::Action, &name)?.copy(alloc)?)?;
    }
    Ok(rows)
}

// Tables of a later run with three rows of an earlier one.
fn resumed(alloc: Global) -> Result<Box<Tables>, Fail> {
    let earlier = filled(alloc)?;
    let mut tables = boxed(alloc, Tables::new(alloc))?;
    tables.resume(copies(alloc, &earlier, &["b", "/other/d", "a"])?)?;
    Ok(tables)
}

#[test]
fn rows_of_an_earlier_run_stand_again(rt: HostRuntime) -> Result<(), Fail> {
    let alloc = rt.alloc();
    let tables = resumed(alloc)?;
    let parts = [
        ("guest", "a b "),
        ("other", "d "),
        ("whisk.system", "echo "),
    ];
    for (namespace, names) in parts.iter() {
        let of = (EntityKind::Action, *namespace);
        assert!(rt; lists(alloc, &tables, of, (0, 10), *names)?);
    }
    let a = name_of(alloc, "a")?;
    assert_eq!(rt; tables.get(EntityKind::Action, &a)?.version(), 2);
    Ok(())
}

// Whether the row at the path is built in.
fn told_builtin(alloc: Global, tables: &Tables, of: (EntityKind, &str)) -> Result<bool, Fail> {
    let name = name_of(alloc, of.1)?;
    Ok(is_builtin(tables.get(of.0, &name)?))
}

#[test]
fn two_rows_are_built_in(rt: HostRuntime) -> Result<(), Fail> {
    let alloc = rt.alloc();
    let mut tables = filled(alloc)?;
    for path in ["/whisk.system/echo", "/whisk.system/utils"].iter() {
        assert_eq!(rt; told_of_put(&mut tables, alloc, path, CODE, false)?, 0);
    }
    let rows = [
        (EntityKind::Action, "/whisk.system/utils/echo", true),
        (EntityKind::Package, "/whisk.system/utils", true),
        (EntityKind::Action, "/whisk.system/utils", false),
        (EntityKind::Action, "/whisk.system/echo", false),
        (EntityKind::Action, "a", false),
    ];
    for (kind, path, expected) in rows.iter() {
        assert_eq!(rt; told_builtin(alloc, &tables, (*kind, path))?, *expected);
    }
    Ok(())
}
