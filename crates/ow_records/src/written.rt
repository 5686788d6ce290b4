// Records as clients see them.
ghost use Rattle.std.specs.Prelude.{◌≡◌, [], None, codes, pos, map, IfOk, OnOk};
ghost use Rattle.ow_value.specs.Find.{with_pair};
ghost use Rattle.ow_value.specs.Value.{members_of, object, text, whole};
ghost use Rattle.ow_value.specs.View.{view};
ghost use Rattle.ow_entity.specs.Written.{shown_version};
ghost use Rattle.ow_records.specs.Id.{id_text};
ghost use Rattle.ow_records.specs.Written.{lines_value, logs_value, record_members, record_value, response_value, status_text, summary_value};

use crate::written_notes::notes_value;
use crate::{Id, Record, Response};
use ow_value::{Fields, Lines, NoMemory, PlainData, Str, Val, Vals, Whole};
use std::alloc::Global;

/// The record as a client sees it.
pub fn write_record(alloc: Global, ended: &Record) -> Result<Val, NoMemory>
    ensures { IfOk result (λ v. view v ≡ record_value ended.now) }
{
    let mut fields = Fields::new(alloc);
    put_record(alloc, &mut fields, ended)?;
    if let Some(cause) = ended.cause {
        put_id(alloc, &mut fields, "cause", cause)?;
    }
    Ok(Val::Object(fields.into_params()?))
}

/// The response as a client sees it.
pub fn write_response(alloc: Global, response: &Response) -> Result<Val, NoMemory>
    ensures { IfOk result (λ v. view v ≡ response_value response.now) }
{
    let mut fields = Fields::new(alloc);
    put_response(alloc, &mut fields, response)?;
    Ok(Val::Object(fields.into_params()?))
}

/// The logs of the record, in an object.
pub fn write_logs(alloc: Global, ended: &Record) -> Result<Val, NoMemory>
    ensures { IfOk result (λ v. view v ≡ logs_value ended.now) }
{
    let mut fields = Fields::new(alloc);
    put_logs(alloc, &mut fields, &ended.logs)?;
    Ok(Val::Object(fields.into_params()?))
}

/// What lists show of the record.
pub fn write_summary(alloc: Global, ended: &Record) -> Result<Val, NoMemory>
    ensures { IfOk result (λ v. view v ≡ summary_value ended.now) }
{
    let mut fields = Fields::new(alloc);
    put_summary(alloc, &mut fields, ended)?;
    Ok(Val::Object(fields.into_params()?))
}

// Puts the members of the record, except its cause, into fields that are empty.
fn put_record(alloc: Global, fields: &mut Fields, ended: &Record) -> Result<(), NoMemory>
    requires { fields.old ≡ [] }
    ensures { OnOk result (fields.new ≡ record_members None ended.now) }
{
    put_id(alloc, fields, "activationId", ended.id)?;
    let notes = notes_value(alloc, &ended.notes)?;
    put(alloc, fields, "annotations", notes)?;
    put(alloc, fields, "duration", number(ended.span.duration()))?;
    put(alloc, fields, "end", number(ended.span.end()))?;
    put_logs(alloc, fields, &ended.logs)?;
    put_text(alloc, fields, "name", ended.name.as_str())?;
    put_text(alloc, fields, "namespace", ended.namespace.as_str())?;
    let response = write_response(alloc, &ended.response)?;
    put(alloc, fields, "response", response)?;
    put(alloc, fields, "start", number(ended.span.start()))?;
    put_text(alloc, fields, "subject", ended.subject.as_str())?;
    put_version(alloc, fields, ended.version)
}

// Puts what lists show of the record, into fields that are empty.
fn put_summary(alloc: Global, fields: &mut Fields, ended: &Record) -> Result<(), NoMemory>
    requires { fields.old ≡ [] }
    ensures { OnOk result (object (members_of fields.new) ≡ summary_value ended.now) }
{
    put_id(alloc, fields, "activationId", ended.id)?;
    put(alloc, fields, "duration", number(ended.span.duration()))?;
    put(alloc, fields, "end", number(ended.span.end()))?;
    put_text(alloc, fields, "name", ended.name.as_str())?;
    put_text(alloc, fields, "namespace", ended.namespace.as_str())?;
    put(alloc, fields, "start", number(ended.span.start()))?;
    let code = number(ended.response.code() as u64);
    put(alloc, fields, "statusCode", code)?;
    put_version(alloc, fields, ended.version)
}

// Puts the parts of the response, into fields that are empty.
fn put_response(alloc: Global, fields: &mut Fields, response: &Response) -> Result<(), NoMemory>
    requires { fields.old ≡ [] }
    ensures { OnOk result (object (members_of fields.new) ≡ response_value response.now) }
{
    let code = response.code();
    let shown = response.result().copy(alloc)?;
    put(alloc, fields, "result", Val::Object(shown))?;
    put_text(alloc, fields, "status", status_text(code))?;
    put(alloc, fields, "statusCode", number(code as u64))?;
    put(alloc, fields, "success", Val::Bool(code == 0))
}

/// The name of a code of a response.
pub fn status_text(code: u8) -> &'static str
    ensures { result.now ≡ status_text code }
{
    match code {
        0 => "success",
        1 => "application error",
        2 => "action developer error",
        _ => "whisk internal error",
    }
}

fn texts(alloc: Global, lines: &Lines) -> Result<Vals, NoMemory>
    ensures { IfOk result (λ vs. vs ≡ map text lines.now) }
{
    let mut values = Vec::new(alloc);
    for line in lines.as_slice() {
        values.push(Val::Text(line.copy(alloc)?))?;
    }
    Vals::from_vec(values)
}

// Puts the lines as `logs`.
fn put_logs(alloc: Global, fields: &mut Fields, lines: &Lines) -> Result<(), NoMemory>
    ensures { OnOk result (fields.new ≡ with_pair fields.old (codes "logs") (lines_value lines.now)) }
{
    put(alloc, fields, "logs", Val::List(texts(alloc, lines)?))
}

// Puts the text of the id.
fn put_id(alloc: Global, fields: &mut Fields, name: &str, id: Id) -> Result<(), NoMemory>
    ensures { OnOk result (fields.new ≡ with_pair fields.old name.now (text (id_text id))) }
{
    put(alloc, fields, name, Val::Text(id.text(alloc)?))
}

// Puts the text of the version.
fn put_version(alloc: Global, fields: &mut Fields, version: u32) -> Result<(), NoMemory>
    ensures { OnOk result (fields.new ≡ with_pair fields.old (codes "version") (text (shown_version version))) }
{
    let shown = format!(in alloc; "0.0.{version}")?;
    let shown = Val::Text(Str::from_string(shown)?);
    put(alloc, fields, "version", shown)
}

pub(crate) fn number(n: u64) -> Val
    ensures { view result ≡ whole (pos n) }
{
    Val::Int(Whole::of_u64(n))
}

pub(crate) fn text(alloc: Global, s: &str) -> Result<Val, NoMemory>
    ensures { IfOk result (λ v. view v ≡ text s.now) }
{
    Ok(Val::Text(Str::of(alloc, s)?))
}

pub(crate) fn put(
    alloc: Global,
    fields: &mut Fields,
    name: &str,
    value: Val,
) -> Result<(), NoMemory>
    ensures { OnOk result (fields.new ≡ with_pair fields.old name.now (view value)) }
{
    fields.set(Str::of(alloc, name)?, value)
}

// Puts a copy of the text.
fn put_text(alloc: Global, fields: &mut Fields, name: &str, s: &str) -> Result<(), NoMemory>
    ensures { OnOk result (fields.new ≡ with_pair fields.old name.now (text s.now)) }
{
    put(alloc, fields, name, text(alloc, s)?)
}
