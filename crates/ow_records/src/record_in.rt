// The record that a value is.
ghost use Rattle.std.specs.Prelude.{◌≡◌, ◌≢◌, codes, Some, None, IfOk, MatchResult, option_and_then};
ghost use Rattle.ow_value.specs.Value.{members_of, object};
ghost use Rattle.ow_value.specs.Field.{field};
ghost use Rattle.ow_value.specs.View.{view};
ghost use Rattle.ow_records.specs.RecordIn.{as_response, confirmed, head_in, is_written_as, joined, record_from, record_in, record_with, span_in, texts_in, texts_with, told_in, told_with};

use crate::fields_in::{cause_in, id_in, lines_in, name_in, number_in, text_in, version_in};
use crate::notes_in::notes_in;
use crate::{Id, Notes, Record, RecordRefusal, Response, Span, write_record};
use ow_names::EntityName;
use ow_value::{Lines, NoMemory, Params, PlainData, Str, Val, joined2, joined3};
use std::alloc::Global;

// The fields that own no memory.
#[derive(Clone, Copy, Drop)]
struct Head {
    id: Id,
    cause: Option<Id>,
    span: Span,
    version: u32,
}

#[derive(Drop)]
struct Texts {
    name: EntityName,
    namespace: EntityName,
    subject: Str,
}

// What the activation left.
#[derive(Drop)]
struct Told {
    notes: Notes,
    logs: Lines,
    response: Response,
}

/// The record that `write_record` writes as this value. There is at most one.
#[tactic(auto, unfolding(crate::specs::RecordIn::record_in))]
pub fn read_record(alloc: Global, value: &Val) -> Result<Record, RecordRefusal>
    ensures answer { MatchResult result (λ r. record_in (view value.now) ≡ Some r)
        (λ e. e ≢ RecordRefusal.NoMemory → (e ≡ RecordRefusal.BadRecord) × (record_in (view value.now) ≡ None)) }
{
    match read_fields(alloc, value)? {
        Some(found) => confirmed(alloc, found, value),
        None => Err(RecordRefusal::BadRecord),
    }
}

fn confirmed(alloc: Global, found: Record, value: &Val) -> Result<Record, RecordRefusal>
    ensures { MatchResult result (λ r. confirmed (view value.now) found ≡ Some r)
        (λ e. e ≢ RecordRefusal.NoMemory → (e ≡ RecordRefusal.BadRecord) × (confirmed (view value.now) found ≡ None)) }
{
    let fits = is_written(alloc, &found, value);
    let (found, fits) = joined2(Ok(found), fits)?;
    fits.then_some(found).ok_or(RecordRefusal::BadRecord)
}

fn is_written(alloc: Global, found: &Record, value: &Val) -> Result<bool, NoMemory>
    ensures { IfOk result (λ b. b ≡ is_written_as found.now (view value.now)) }
{
    let written = write_record(alloc, found)?;
    Ok(written.same(value))
}

/// The record that the fields of the value give. The value may be written in another form.
#[tactic(auto, unfolding(crate::specs::RecordIn::record_from))]
pub fn read_fields(alloc: Global, value: &Val) -> Result<Option<Record>, NoMemory>
    ensures { IfOk result (λ r. r ≡ record_from (view value.now)) }
{
    let Val::Object(fields) = value else {
        return Ok(None);
    };
    let texts = texts_in(alloc, fields)?;
    let told = told_in(alloc, fields)?;
    Ok(record_with(head_in(fields), texts, told))
}

fn record_with(head: Option<Head>, texts: Option<Texts>, told: Option<Told>) -> Option<Record>
    ensures { result ≡ record_with head texts told }
{
    let (head, (texts, told)) = head.zip(texts.zip(told))?;
    Some(joined(head, texts, told))
}

fn joined(head: Head, texts: Texts, told: Told) -> Record
    ensures { result ≡ joined head texts told }
{
    Record {
        id: head.id,
        name: texts.name,
        namespace: texts.namespace,
        subject: texts.subject,
        version: head.version,
        cause: head.cause,
        span: head.span,
        notes: told.notes,
        logs: told.logs,
        response: told.response,
    }
}

fn head_in(fields: &Params) -> Option<Head>
    ensures { result ≡ head_in (object (members_of fields.now)) }
{
    let id = id_in(fields, "activationId")?;
    let cause = cause_in(fields)?;
    let span = span_in(fields)?;
    let version = version_in(fields, "version")?;
    Some(Head {
        id,
        cause,
        span,
        version,
    })
}

fn texts_in(alloc: Global, fields: &Params) -> Result<Option<Texts>, NoMemory>
    ensures { IfOk result (λ t. t ≡ texts_in (object (members_of fields.now))) }
{
    let Some(subject) = text_in(fields, "subject") else {
        return Ok(None);
    };
    let name = name_in(alloc, fields, "name");
    let namespace = name_in(alloc, fields, "namespace");
    let (name, namespace, subject) = joined3(name, namespace, subject.copy(alloc))?;
    Ok(texts_with(name, namespace, Some(subject)))
}

// All three texts, if each is there.
fn texts_with(
    name: Option<EntityName>,
    namespace: Option<EntityName>,
    subject: Option<Str>,
) -> Option<Texts>
    ensures { result ≡ texts_with name namespace subject }
{
    let (name, (namespace, subject)) = name.zip(namespace.zip(subject))?;
    Some(Texts {
        name,
        namespace,
        subject,
    })
}

fn told_in(alloc: Global, fields: &Params) -> Result<Option<Told>, NoMemory>
    ensures { IfOk result (λ t. t ≡ told_in (object (members_of fields.now))) }
{
    let notes = notes_in(alloc, fields, "annotations");
    let logs = lines_in(alloc, fields, "logs");
    let response = response_in(alloc, fields);
    let (notes, logs, response) = joined3(notes, logs, response)?;
    Ok(told_with(notes, logs, response))
}

// All three parts, if each is there.
fn told_with(notes: Option<Notes>, logs: Option<Lines>, response: Option<Response>) -> Option<Told>
    ensures { result ≡ told_with notes logs response }
{
    let (notes, (logs, response)) = notes.zip(logs.zip(response))?;
    Some(Told {
        notes,
        logs,
        response,
    })
}

fn span_in(fields: &Params) -> Option<Span>
    ensures { result ≡ span_in (object (members_of fields.now)) }
{
    let start = number_in(fields, "start")?;
    let end = number_in(fields, "end")?;
    if start <= end {
        Some(Span::new(start, end))
    } else {
        None
    }
}

fn response_in(alloc: Global, fields: &Params) -> Result<Option<Response>, NoMemory>
    ensures { IfOk result (λ r. r ≡ option_and_then as_response (field (codes "response") (object (members_of fields.now)))) }
{
    match fields.find("response") {
        Some(value) => as_response(alloc, value),
        None => Ok(None),
    }
}

#[tactic(auto, using(crate::proofs::Confirmed::object_back))]
fn as_response(alloc: Global, value: &Val) -> Result<Option<Response>, NoMemory>
    ensures { IfOk result (λ r. r ≡ as_response (view value.now)) }
{
    let Val::Object(fields) = value else {
        return Ok(None);
    };
    let Some(Val::Object(object)) = fields.find("result") else {
        return Ok(None);
    };
    let Some(code) = number_in(fields, "statusCode") else {
        return Ok(None);
    };
    if code > 3 {
        return Ok(None);
    }
    Ok(Some(Response::new(code as u8, object.copy(alloc)?)))
}
