// The text of a record's row, written token by token.
ghost use Rattle.std.specs.Prelude.{◌≡◌, ◌++◌, IfOk, OnOk};
ghost use Rattle.ow_value.specs.Value.{members_of, object};
ghost use Rattle.ow_value.specs.Text.{compact, members_tokens, value_tokens};
ghost use Rattle.ow_records.specs.Id.{id_text};
ghost use Rattle.ow_records.specs.Written.{lines_value, record_value, response_value};
ghost use Rattle.ow_row_text.specs.Tokens.{from_duration, from_logs, from_notes, from_start, from_status};

use crate::notes_text::write_notes;
use crate::tokens::{put_cause, put_flag, put_number, put_text, version_text};
use ow_records::{Record, Response, status_text};
use ow_value::{Lines, NoMemory, Params, PlainData, Str, Val, Writer, write_onto, written_text};
use std::alloc::{AllocError, Global};

// Few records have longer texts.
const USUAL_SIZE: usize = 768;

/// The text of the record's row. The digits are those of its id.
pub(crate) fn done_text(alloc: Global, ended: &Record, digits: &str) -> Result<Str, NoMemory>
    requires { digits.now ≡ id_text ended.now.id }
    ensures { IfOk result (λ s. s ≡ compact (record_value ended.now)) }
{
    let mut out = Writer::new(Vec::with_capacity(alloc, USUAL_SIZE)?);
    out.begin_object()?;
    put_text(&mut out, "activationId", digits)?;
    write_from_notes(alloc, &mut out, ended)?;
    written_text(out)
}

fn write_from_notes(alloc: Global, out: &mut Writer, ended: &Record) -> Result<(), NoMemory>
    ensures ok { OnOk result (out.new.tokens ≡ out.old.tokens ++ members_tokens (members_of (from_notes ended.now))) }
    ensures before { out.new.before ≡ out.old.before }
{
    out.key("annotations")?;
    write_notes(alloc, out, &ended.notes)?;
    put_cause(alloc, out, ended.cause)?;
    write_from_duration(alloc, out, ended)
}

fn write_from_duration(alloc: Global, out: &mut Writer, ended: &Record) -> Result<(), NoMemory>
    ensures ok { OnOk result (out.new.tokens ≡ out.old.tokens ++ members_tokens (members_of (from_duration ended.now))) }
    ensures before { out.new.before ≡ out.old.before }
{
    put_number(out, "duration", ended.span.duration())?;
    put_number(out, "end", ended.span.end())?;
    write_from_logs(alloc, out, ended)
}

fn write_from_logs(alloc: Global, out: &mut Writer, ended: &Record) -> Result<(), NoMemory>
    ensures ok { OnOk result (out.new.tokens ≡ out.old.tokens ++ members_tokens (members_of (from_logs ended.now))) }
    ensures before { out.new.before ≡ out.old.before }
{
    out.key("logs")?;
    write_lines(out, &ended.logs)?;
    put_text(out, "name", ended.name.as_str())?;
    put_text(out, "namespace", ended.namespace.as_str())?;
    out.key("response")?;
    write_response(alloc, out, &ended.response)?;
    write_from_start(alloc, out, ended)
}

fn write_from_start(alloc: Global, out: &mut Writer, ended: &Record) -> Result<(), NoMemory>
    ensures ok { OnOk result (out.new.tokens ≡ out.old.tokens ++ members_tokens (members_of (from_start ended.now))) }
    ensures before { out.new.before ≡ out.old.before }
{
    let version = version_text(alloc, ended.version)?;
    put_number(out, "start", ended.span.start())?;
    put_text(out, "subject", ended.subject.as_str())?;
    put_text(out, "version", version.as_str())?;
    out.end_object()?;
    Ok(())
}

fn write_lines(out: &mut Writer, lines: &Lines) -> Result<(), AllocError>
    ensures ok { OnOk result (out.new.tokens ≡ out.old.tokens ++ value_tokens (lines_value lines.now)) }
    ensures before { out.new.before ≡ out.old.before }
{
    out.begin_array()?;
    for line in lines.as_slice() {
        out.string(line.as_str())?;
    }
    out.end_array()
}

fn write_response(alloc: Global, out: &mut Writer, response: &Response) -> Result<(), NoMemory>
    ensures ok { OnOk result (out.new.tokens ≡ out.old.tokens ++ value_tokens (response_value response.now)) }
    ensures before { out.new.before ≡ out.old.before }
{
    out.begin_object()?;
    out.key("result")?;
    write_result(alloc, out, response.result())?;
    write_from_status(out, response.code())?;
    Ok(())
}

fn write_from_status(out: &mut Writer, code: u8) -> Result<(), AllocError>
    ensures ok { OnOk result (out.new.tokens ≡ out.old.tokens ++ members_tokens (members_of (from_status code))) }
    ensures before { out.new.before ≡ out.old.before }
{
    put_text(out, "status", status_text(code))?;
    put_number(out, "statusCode", code as u64)?;
    put_flag(out, "success", code == 0)?;
    out.end_object()
}

fn write_result(alloc: Global, out: &mut Writer, given: &Params) -> Result<(), NoMemory>
    ensures ok { OnOk result (out.new.tokens ≡ out.old.tokens ++ value_tokens (object (members_of given.now))) }
    ensures before { out.new.before ≡ out.old.before }
{
    let shown = Val::Object(given.copy(alloc)?);
    write_onto(&shown, out)?;
    Ok(())
}
