use crate::held::{boxed, made, name_of, value_of};
use ow_entity::{
    Draft, EntityKind, EntityParams, EntityRefusal, FieldName, Package, Row, is_conductor, is_set,
    read_entity, summary, write_entity,
};
use ow_names::FullName;
use ow_value::{NoMemory, Params, PlainData, Shared, Val, write_val};
use std::alloc::Global;
use std::test::Fail;

const GREETER: &str =
    "{\"exec\":{\"kind\":\"plain:1\",\"code\":\"{\\\"cases\\\":[{\\\"when\\\":{},\\\"give\\\":{\\\"greeting\\\":\\\"Hello\\\"}}]}\"}}";

// The row that a body makes over an old one.
fn put(alloc: Global, body: &str, old: Option<&Row>) -> Result<Box<Row>, Fail> {
    let name = name_of(alloc, "p/hello")?;
    let body = value_of(alloc, body)?;
    boxed(alloc, made(alloc, &name, &body, old))
}

// Why a body makes no row over an old one.
fn refusal(alloc: Global, body: &str, old: Option<&Row>) -> Result<Option<EntityRefusal>, Fail> {
    let name = name_of(alloc, "p/hello")?;
    let body = value_of(alloc, body)?;
    Ok(made(alloc, &name, &body, old).err())
}

const GREETER_SHOWN: &str =
    "{\"annotations\":[],\"exec\":{\"code\":\"{\\\"cases\\\":[{\\\"when\\\":{},\\\"give\\\":{\\\"greeting\\\":\\\"Hello\\\"}}]}\",\"kind\":\"plain:1\"},\"limits\":{\"logs\":10,\"memory\":256,\"timeout\":60000},\"name\":\"hello\",\"namespace\":\"guest/p\",\"parameters\":[],\"publish\":false,\"version\":\"0.0.1\"}";

const GREETER_SUMMARY: &str =
    "{\"annotations\":[],\"name\":\"hello\",\"namespace\":\"guest/p\",\"publish\":false,\"version\":\"0.0.1\"}";

const FULL: &str =
    "{\"annotations\":[{\"key\":\"a\",\"value\":1},{\"key\":\"a\",\"value\":[2]}],\"parameters\":[{\"key\":\"x\",\"value\":null}],\"publish\":true,\"exec\":{\"kind\":\"program:1\",\"code\":\"greet\"},\"limits\":{\"timeout\":100,\"logs\":0},\"other\":7}";

const UPDATE: &str = "{\"parameters\":[],\"limits\":{\"memory\":512}}";

const UPDATED: &str =
    "{\"annotations\":[{\"key\":\"a\",\"value\":[2]}],\"exec\":{\"code\":\"greet\",\"kind\":\"program:1\"},\"limits\":{\"logs\":0,\"memory\":512,\"timeout\":100},\"name\":\"hello\",\"namespace\":\"guest/p\",\"parameters\":[],\"publish\":true,\"version\":\"0.0.2\"}";

const SEQUENCE: &str =
    "{\"exec\":{\"kind\":\"sequence\",\"components\":[\"a\",\"p/a\",\"/_/a\",\"/whisk.system/utils/echo\",\"a\"]},\"annotations\":[{\"key\":\"conductor\",\"value\":1}]}";

const SEQUENCE_SHOWN: &str =
    "{\"annotations\":[{\"key\":\"conductor\",\"value\":1}],\"exec\":{\"components\":[\"/guest/a\",\"/guest/p/a\",\"/guest/a\",\"/whisk.system/utils/echo\",\"/guest/a\"],\"kind\":\"sequence\"},\"limits\":{\"logs\":10,\"memory\":256,\"timeout\":60000},\"name\":\"hello\",\"namespace\":\"guest/p\",\"parameters\":[],\"publish\":false,\"version\":\"0.0.1\"}";

fn shows(alloc: Global, row: &Row, text: &str) -> Result<bool, Fail> {
    let shown = boxed(alloc, write_entity(alloc, row))?;
    is_written(alloc, &shown, text)
}

fn is_listed_as(alloc: Global, row: &Row, text: &str) -> Result<bool, Fail> {
    let listed = boxed(alloc, summary(alloc, row))?;
    is_written(alloc, &listed, text)
}

fn is_written(alloc: Global, value: &Val, text: &str) -> Result<bool, Fail> {
    let written = write_val(alloc, value)?;
    Ok(written.as_slice() == text.as_bytes())
}

// Whether the row is shown and listed so, and a copy is the same.
fn is_seen_as(alloc: Global, row: &Row, text: &str, listed: &str) -> Result<bool, Fail> {
    let copy = boxed(alloc, row.copy(alloc))?;
    Ok(copy.same(row) && shows(alloc, row, text)? && is_listed_as(alloc, row, listed)?)
}

#[test]
fn a_body_makes_an_action(rt: HostRuntime) -> Result<(), Fail> {
    let alloc = rt.alloc();
    let row = put(alloc, GREETER, None)?;
    assert!(rt; is_seen_as(alloc, &row, GREETER_SHOWN, GREETER_SUMMARY)?);
    Ok(())
}

#[test]
fn a_body_makes_a_sequence(rt: HostRuntime) -> Result<(), Fail> {
    let alloc = rt.alloc();
    let row = put(alloc, SEQUENCE, None)?;
    assert!(rt; shows(alloc, &row, SEQUENCE_SHOWN)?);
    let copy = boxed(alloc, row.copy(alloc))?;
    assert!(rt; copy.same(&row));
    assert!(rt; matches!(&*row, Row::Action(action) if !is_conductor(action.get())));
    Ok(())
}

// The action of a full body, after an update.
fn updated(alloc: Global) -> Result<Box<Row>, Fail> {
    let row = put(alloc, FULL, None)?;
    put(alloc, UPDATE, Some(&row))
}

#[test]
fn an_update_keeps_what_it_leaves_out(rt: HostRuntime) -> Result<(), Fail> {
    let alloc = rt.alloc();
    let row = updated(alloc)?;
    assert!(rt; shows(alloc, &row, UPDATED)?);
    Ok(())
}

#[test]
fn versions_stop_at_the_last(rt: HostRuntime) -> Result<(), Fail> {
    let alloc = rt.alloc();
    let row = updated(alloc)?;
    let last = boxed(alloc, aged(alloc, &row))?;
    let refused = refusal(alloc, "{}", Some(&last))?;
    assert_eq!(rt; refused, Some(EntityRefusal::LastVersion));
    Ok(())
}

// The action of the row, with the last version.
fn aged(alloc: Global, row: &Row) -> Result<Row, NoMemory> {
    match row {
        Row::Action(action) => {
            let mut action = action.get().copy(alloc)?;
            action.version = 4_294_967_295;
            Ok(Row::Action(Shared::new(alloc, action)?))
        }
        _ => row.copy(alloc),
    }
}

// Each body, with ' in place of ", the number of its refusal and the field that it names.
const REFUSED: &str = "\
[] 10 body\n\
{'annotations':{},'publish':1} 10 annotations\n\
{'annotations':[{'key':'a'}]} 10 annotations\n\
{'parameters':[{'key':1,'value':1}]} 10 parameters\n\
{'parameters':null} 10 parameters\n\
{'publish':null,'exec':1} 10 publish\n\
{'exec':[],'limits':1} 10 exec\n\
{'exec':{'kind':1}} 10 kind\n\
{'exec':{'kind':'program:1','code':{}}} 10 code\n\
{'exec':{'kind':'plain:1','code':'{}'}} 10 code\n\
{'limits':[]} 10 limits\n\
{'limits':{'timeout':'1','memory':1}} 10 timeout\n\
{'limits':{'logs':true}} 10 logs\n\
{} 9 exec\n\
{'exec':{}} 9 kind\n\
{'exec':{'kind':'plain:1'}} 9 code\n\
{'limits':{'timeout':99}} 11 timeout\n\
{'limits':{'timeout':300001}} 11 timeout\n\
{'limits':{'timeout':300000,'memory':127}} 11 memory\n\
{'limits':{'memory':512,'logs':11}} 11 logs\n\
{'limits':{'logs':-1}} 11 logs\n\
{'exec':{'kind':'nodejs:20','code':1}} 12 \n\
{'exec':{'kind':'sequence','code':'c'}} 9 components\n\
{'exec':{'kind':'sequence','components':'a'}} 10 components\n\
{'exec':{'kind':'sequence','components':['a//b',5]}} 10 components\n\
{'exec':{'kind':'sequence','components':[]}} 11 components\n\
{'exec':{'kind':'sequence','components':['a','a//b']},'limits':1} 8 ";

// The content of a refusal, as a text.
fn told(alloc: Global, refusal: EntityRefusal) -> Result<String, Fail> {
    let name = match refusal {
        EntityRefusal::MissingField { name }
        | EntityRefusal::WrongType { name }
        | EntityRefusal::OutOfRange { name } => name.as_str(),
        _ => "",
    };
    let number = refusal.number();
    Ok(format!(in alloc; "{number} {name}")?)
}

fn is_told(alloc: Global, row: &str) -> Result<bool, Fail> {
    let Some((body, expected)) = row.split_once(' ') else {
        return Ok(false);
    };
    let body = body.replace(alloc, "'", "\"")?;
    match refusal(alloc, body.as_str(), None)? {
        Some(refusal) => Ok(told(alloc, refusal)?.as_str() == expected),
        None => Ok(false),
    }
}

fn all_told(alloc: Global, table: &str) -> Result<bool, Fail> {
    for row in table.lines() {
        if !is_told(alloc, row)? {
            return Ok(false);
        }
    }
    Ok(true)
}

#[test]
fn the_first_wrong_field_is_named(rt: HostRuntime) -> Result<(), Fail> {
    let alloc = rt.alloc();
    assert!(rt; all_told(alloc, REFUSED)?);
    Ok(())
}

// A text of JSON: the start, then `count` times x, then the end.
fn filled(alloc: Global, start: &str, count: usize, end: &str) -> Result<String, Fail> {
    let mut text = String::from_str(alloc, start)?;
    text.push_str("x".repeat(alloc, count)?.as_str())?;
    text.push_str(end)?;
    Ok(text)
}

const PROGRAM: &str = "{\"exec\":{\"kind\":\"program:1\",\"code\":\"";

const PLAIN: &str = "{\"exec\":{\"kind\":\"plain:1\",\"code\":\"";

// As an object the one pair has 8 bytes beside the text.
const PAIR: &str = "{\"parameters\":[{\"key\":\"a\",\"value\":\"";

// Whether a body with `count` times x between start and end gives the expected refusal, or none where none is expected.
fn is_bounded(
    alloc: Global,
    start: &str,
    count: usize,
    end: &str,
    expected: Option<EntityRefusal>,
) -> Result<bool, Fail> {
    let body = filled(alloc, start, count, end)?;
    Ok(refusal(alloc, body.as_str(), None)? == expected)
}

const LARGE: Option<EntityRefusal> = Some(EntityRefusal::TooLarge);

const NO_EXEC: Option<EntityRefusal> = Some(EntityRefusal::MissingField {
    name: FieldName::Exec,
});

#[test]
fn bodies_have_bounds_in_bytes(rt: HostRuntime) -> Result<(), Fail> {
    let alloc = rt.alloc();
    assert!(rt; is_bounded(alloc, PROGRAM, 1_048_576, "\"}}", None)?);
    assert!(rt; is_bounded(alloc, PROGRAM, 1_048_577, "\"}}", LARGE)?);
    assert!(rt; is_bounded(alloc, PLAIN, 1_048_577, "\"}}", LARGE)?);
    assert!(rt; is_bounded(alloc, PAIR, 1_048_568, "\"}]}", NO_EXEC)?);
    assert!(rt; is_bounded(alloc, PAIR, 1_048_569, "\"}]}", LARGE)?);
    Ok(())
}

const GOOD_CODES: &str = "\
{'cases':[]}\n\
{'cases':[{'give':null,'when':{'a':1}},{'when':{},'give':[]}]}";

const BAD_CODES: &str = "\
x\n\
[]\n\
{'cases':{}}\n\
{'cases':[],'more':1}\n\
{'cases':[1]}\n\
{'cases':[{'when':{}}]}\n\
{'cases':[{'when':[],'give':1}]}\n\
{'cases':[{'when':{},'give':1,'more':1}]}\n\
{'cases':[{'when':{},'give':1.5}]}";

#[test]
fn plain_code_has_one_form(rt: HostRuntime) -> Result<(), Fail> {
    let alloc = rt.alloc();
    assert!(rt; are_plain(alloc, GOOD_CODES, true)?);
    assert!(rt; are_plain(alloc, BAD_CODES, false)?);
    Ok(())
}

// Whether each code is plain code, or none is.
fn are_plain(alloc: Global, codes: &str, expected: bool) -> Result<bool, Fail> {
    let name = FieldName::Code;
    for code in codes.lines() {
        let body = plain_body(alloc, code)?;
        let refused = refusal(alloc, body.as_str(), None)?;
        let wanted = match expected {
            true => None,
            false => Some(EntityRefusal::WrongType { name }),
        };
        if refused != wanted {
            return Ok(false);
        }
    }
    Ok(true)
}

// The body of an action whose code is written with ' in place of ".
fn plain_body(alloc: Global, code: &str) -> Result<String, Fail> {
    let code = code.replace(alloc, "'", "\\\"")?;
    Ok(format!(in alloc; "{{\"exec\":{{\"kind\":\"plain:1\",\"code\":\"{code}\"}}}}")?)
}

fn are_set(notes: &Params, names: &str, expected: bool) -> bool {
    for name in names.split(' ') {
        if is_set(notes, name) != expected {
            return false;
        }
    }
    true
}

const NOTES: &str =
    "{\"a\":null,\"b\":false,\"c\":0,\"d\":\"\",\"e\":true,\"f\":-1,\"g\":\"0\",\"h\":[],\"i\":{}}";

fn all_are_set(alloc: Global, names: &str, expected: bool) -> Result<bool, Fail> {
    let notes = value_of(alloc, NOTES)?;
    match &*notes {
        Val::Object(notes) => Ok(are_set(notes, names, expected)),
        _ => Ok(false),
    }
}

const CONDUCTOR: &str =
    "{\"exec\":{\"kind\":\"program:1\",\"code\":\"c\"},\"annotations\":[{\"key\":\"conductor\",\"value\":1}]}";

#[test]
fn annotations_are_set_by_their_values(rt: HostRuntime) -> Result<(), Fail> {
    let alloc = rt.alloc();
    assert!(rt; all_are_set(alloc, "a b c d no", false)?);
    assert!(rt; all_are_set(alloc, "e f g h i", true)?);
    let row = put(alloc, CONDUCTOR, None)?;
    assert!(rt; matches!(&*row, Row::Action(action) if is_conductor(action.get())));
    Ok(())
}

#[test]
fn refusals_have_numbers(rt: HostRuntime) -> Result<(), Fail> {
    assert_eq!(rt; EntityRefusal::NoMemory.number(), 0);
    assert_eq!(rt; EntityRefusal::TooLarge.number(), 13);
    assert_eq!(rt; EntityRefusal::LastVersion.number(), 18);
    assert!(rt; EntityKind::Package < EntityKind::Rule);
    Ok(())
}

fn draft(alloc: Global) -> Result<Box<Draft>, Fail> {
    let name = name_of(alloc, "hello")?;
    let body = value_of(alloc, GREETER)?;
    boxed(alloc, read_entity(alloc, EntityKind::Action, &name, &body))
}

#[test]
fn drafts_are_plain_data(rt: HostRuntime) -> Result<(), Fail> {
    let alloc = rt.alloc();
    let draft = draft(alloc)?;
    let copy = boxed(alloc, draft.copy(alloc))?;
    assert!(rt; copy.same(&draft));
    assert_eq!(rt; draft.kind(), EntityKind::Action);
    assert_eq!(rt; draft.name().name.as_str(), "hello");
    Ok(())
}

// Of the namespace guest, without parameters or annotations.
fn package(alloc: Global, name: &str, binding: Option<&str>) -> Result<Box<Row>, Fail> {
    let name = name_of(alloc, name)?;
    match binding {
        Some(path) => {
            let bound = name_of(alloc, path)?;
            boxed(alloc, package_of(alloc, &name, Some(&bound)))
        }
        None => boxed(alloc, package_of(alloc, &name, None)),
    }
}

fn package_of(alloc: Global, name: &FullName, binding: Option<&FullName>) -> Result<Row, NoMemory> {
    let name = name.copy(alloc)?;
    let binding = match binding {
        Some(bound) => Some(bound.copy(alloc)?),
        None => None,
    };
    let package = Package {
        name,
        version: 3,
        publish: true,
        params: EntityParams::new(),
        notes: EntityParams::new(),
        binding,
    };
    Ok(Row::Package(Shared::new(alloc, package)?))
}

const SHARED: &str =
    "{\"annotations\":[],\"binding\":{},\"name\":\"p\",\"namespace\":\"guest\",\"parameters\":[],\"publish\":true,\"version\":\"0.0.3\"}";

const BOUND: &str =
    "{\"annotations\":[],\"binding\":{\"name\":\"q\",\"namespace\":\"lib\"},\"name\":\"p\",\"namespace\":\"guest\",\"parameters\":[],\"publish\":true,\"version\":\"0.0.3\"}";

const LISTED: &str =
    "{\"annotations\":[],\"name\":\"p\",\"namespace\":\"guest\",\"publish\":true,\"version\":\"0.0.3\"}";

#[test]
fn packages_are_shown_with_what_they_bind(rt: HostRuntime) -> Result<(), Fail> {
    let alloc = rt.alloc();
    let bound = package(alloc, "p", Some("/lib/q"))?;
    assert!(rt; is_seen_as(alloc, &bound, BOUND, LISTED)?);
    assert!(rt; bound.kind() == EntityKind::Package && bound.version() == 3);
    Ok(())
}

#[test]
fn packages_that_bind_nothing_show_so(rt: HostRuntime) -> Result<(), Fail> {
    let alloc = rt.alloc();
    let shared = package(alloc, "p", None)?;
    assert!(rt; is_seen_as(alloc, &shared, SHARED, LISTED)?);
    Ok(())
}

#[test]
fn an_action_over_a_row_of_another_kind_is_new(rt: HostRuntime) -> Result<(), Fail> {
    let alloc = rt.alloc();
    let package = package(alloc, "p", None)?;
    let row = put(alloc, GREETER, Some(&package))?;
    assert!(rt; shows(alloc, &row, GREETER_SHOWN)?);
    Ok(())
}
