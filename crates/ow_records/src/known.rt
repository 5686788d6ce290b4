// What the types of records guarantee. These functions only read.
ghost use Rattle.std.specs.Prelude.{◌≡◌, ◌<◌, ◌^◌, IfSome};
ghost use Rattle.std.specs.List.{AllByRecursion};
ghost use Rattle.std.specs.Str.{IsUtf8};
ghost use Rattle.ow_entity.specs.FitAction.{IsFitLimits};
ghost use Rattle.ow_names.specs.FullName.{IsFullName};
ghost use Rattle.ow_records.specs.Known.{AreNotes, IsId, IsKnown, IsKnownUnrecorded, IsResponse, IsSpan};
ghost use Rattle.ow_records.specs.Unrecorded.{unrecorded_of};

use crate::{Activation, Id, Notes, Record, Response, Span, Unrecorded};
use ow_entity::Limits;
use ow_names::FullName;
use ow_value::{Lines, Shared};

/// Makes known that both numbers have 64 bits.
pub fn known_id(id: Id)
    ensures { IsId id }
{
    let Id { namespace, count } = id;
    let _ = namespace;
    let _ = count;
}

/// Makes known what the types of the fields guarantee.
pub fn known_record(ended: &Record)
    ensures { IsKnown ended.now }
{
    known_id(ended.id);
    known_cause(ended.cause);
    known_span(&ended.span);
    known_version(ended.version);
    ended.name.as_str();
    ended.namespace.as_str();
    ended.subject.as_str();
    known_notes(&ended.notes);
    known_lines(&ended.logs);
    known_response(&ended.response);
}

/// Makes known what the types of the fields guarantee.
pub fn known_unrecorded(activation: &Unrecorded)
    ensures { IsKnownUnrecorded activation.now }
{
    known_id(activation.id);
    known_moment(activation.at);
    known_binding(&activation.binding);
    known_cause(activation.cause);
    known_limits(activation.limits);
    activation.namespace.as_str();
    known_name(&activation.path);
    activation.subject.as_str();
    known_version(activation.version);
}

/// Makes known what the types of the fields guarantee of the kept part of the activation.
pub fn known_activation(activation: &Activation)
    ensures { IsKnownUnrecorded (unrecorded_of activation.now) }
{
    let action = activation.action.get();
    known_id(activation.id);
    known_moment(activation.at);
    known_binding(&activation.binding);
    known_cause(activation.cause);
    known_limits(action.limits);
    activation.namespace.as_str();
    known_name(&action.name);
    activation.subject.as_str();
    known_version(action.version);
}

/// Makes known what the types of the ids guarantee.
pub fn known_ids(ids: &[Id])
    ensures { AllByRecursion IsId ids.now }
{
    let mut rest = ids;
    while let [id, after @ ..] = rest {
        known_id(*id);
        rest = after;
    }
}

/// Makes known what the types of the records guarantee.
pub fn known_records(records: &[Shared<Record>])
    ensures { AllByRecursion IsKnown records.now }
{
    let mut rest = records;
    while let [ended, after @ ..] = rest {
        known_record(ended.get());
        rest = after;
    }
}

fn known_cause(cause: Option<Id>)
    ensures { IfSome cause IsId }
{
    match cause {
        Some(id) => known_id(id),
        None => {}
    }
}

fn known_span(span: &Span)
    ensures { IsSpan span.now }
{
    known_moment(span.end());
}

fn known_moment(moment: u64)
    ensures { moment < 2 ^ 64 }
{}

fn known_moment_given(moment: Option<u64>)
    ensures { IfSome moment (λ t. t < 2 ^ 64) }
{
    match moment {
        Some(moment) => known_moment(moment),
        None => {}
    }
}

fn known_version(version: u32)
    ensures { version < 2 ^ 32 }
{}

fn known_notes(notes: &Notes)
    ensures { AreNotes notes.now }
{
    known_binding(&notes.binding);
    known_moment_given(notes.init_time);
    known_limits_given(notes.limits);
    known_binding(&notes.path);
    known_moment_given(notes.wait_time);
}

fn known_binding(name: &Option<FullName>)
    ensures { IfSome name.now IsFullName }
{
    match name {
        Some(name) => known_name(name),
        None => {}
    }
}

fn known_name(name: &FullName)
    ensures { IsFullName name.now }
{
    name.namespace.as_str();
    if let Some(package) = &name.package {
        package.as_str();
    }
    name.name.as_str();
}

fn known_limits_given(limits: Option<Limits>)
    ensures { IfSome limits IsFitLimits }
{
    match limits {
        Some(limits) => known_limits(limits),
        None => {}
    }
}

fn known_limits(limits: Limits)
    ensures { IsFitLimits limits }
{
    limits.timeout.get();
    limits.memory.get();
    limits.logs.get();
}

fn known_lines(lines: &Lines)
    ensures { AllByRecursion IsUtf8 lines.now }
{
    let mut rest = lines.as_slice();
    while let [line, after @ ..] = rest {
        line.as_str();
        rest = after;
    }
}

fn known_response(response: &Response)
    ensures { IsResponse response.now }
{
    response.code();
    response.result().pairs();
}
