// The text of the row of an activation that has not ended, written token by token.
ghost use Rattle.std.specs.Prelude.{◌≡◌, ◌++◌, IfOk, OnOk};
ghost use Rattle.ow_value.specs.Value.{members_of};
ghost use Rattle.ow_value.specs.Text.{compact, members_tokens};
ghost use Rattle.ow_records.specs.Id.{id_text};
ghost use Rattle.ow_row_text.specs.Item.{open_value};
ghost use Rattle.ow_row_text.specs.Tokens.{binding_tokens, from_at, from_cause, from_form, from_limits, from_path, from_subject};

use crate::tokens::{path_text, put_cause, put_number, put_text, version_text, write_limits};
use ow_names::{FullName, full_text};
use ow_records::Unrecorded;
use ow_value::{NoMemory, Str, Writer, written_text};
use std::alloc::Global;

// Few activations have longer texts.
const USUAL_SIZE: usize = 384;

/// The text of the activation's row. The digits are those of its id.
pub(crate) fn open_text(
    alloc: Global,
    activation: &Unrecorded,
    digits: &str,
) -> Result<Str, NoMemory>
    requires { digits.now ≡ id_text activation.now.id }
    ensures { IfOk result (λ s. s ≡ compact (open_value activation.now)) }
{
    let mut out = Writer::new(Vec::with_capacity(alloc, USUAL_SIZE)?);
    out.begin_object()?;
    put_text(&mut out, "activationId", digits)?;
    write_from_at(alloc, &mut out, activation)?;
    written_text(out)
}

fn write_from_at(alloc: Global, out: &mut Writer, activation: &Unrecorded) -> Result<(), NoMemory>
    ensures ok { OnOk result (out.new.tokens ≡ out.old.tokens ++ members_tokens (members_of (from_at activation.now))) }
    ensures before { out.new.before ≡ out.old.before }
{
    put_number(out, "at", activation.at)?;
    put_binding(alloc, out, &activation.binding)?;
    write_from_cause(alloc, out, activation)
}

fn put_binding(alloc: Global, out: &mut Writer, bound: &Option<FullName>) -> Result<(), NoMemory>
    ensures ok { OnOk result (out.new.tokens ≡ out.old.tokens ++ binding_tokens bound.now) }
    ensures before { out.new.before ≡ out.old.before }
{
    let Some(bound) = bound else {
        return Ok(());
    };
    let shown = full_text(alloc, bound)?;
    put_text(out, "binding", shown.as_str())?;
    Ok(())
}

fn write_from_cause(
    alloc: Global,
    out: &mut Writer,
    activation: &Unrecorded,
) -> Result<(), NoMemory>
    ensures ok { OnOk result (out.new.tokens ≡ out.old.tokens ++ members_tokens (members_of (from_cause activation.now))) }
    ensures before { out.new.before ≡ out.old.before }
{
    put_cause(alloc, out, activation.cause)?;
    write_from_form(alloc, out, activation)
}

fn write_from_form(alloc: Global, out: &mut Writer, activation: &Unrecorded) -> Result<(), NoMemory>
    ensures ok { OnOk result (out.new.tokens ≡ out.old.tokens ++ members_tokens (members_of (from_form activation.now))) }
    ensures before { out.new.before ≡ out.old.before }
{
    put_text(out, "form", activation.form.text())?;
    put_text(out, "kind", activation.kind.text())?;
    write_from_limits(alloc, out, activation)
}

fn write_from_limits(
    alloc: Global,
    out: &mut Writer,
    activation: &Unrecorded,
) -> Result<(), NoMemory>
    ensures ok { OnOk result (out.new.tokens ≡ out.old.tokens ++ members_tokens (members_of (from_limits activation.now))) }
    ensures before { out.new.before ≡ out.old.before }
{
    out.key("limits")?;
    write_limits(out, activation.limits)?;
    put_text(out, "namespace", activation.namespace.as_str())?;
    write_from_path(alloc, out, activation)
}

fn write_from_path(alloc: Global, out: &mut Writer, activation: &Unrecorded) -> Result<(), NoMemory>
    ensures ok { OnOk result (out.new.tokens ≡ out.old.tokens ++ members_tokens (members_of (from_path activation.now))) }
    ensures before { out.new.before ≡ out.old.before }
{
    let path = path_text(alloc, &activation.path)?;
    put_text(out, "path", path.as_str())?;
    write_from_subject(alloc, out, activation)
}

fn write_from_subject(
    alloc: Global,
    out: &mut Writer,
    activation: &Unrecorded,
) -> Result<(), NoMemory>
    ensures ok { OnOk result (out.new.tokens ≡ out.old.tokens ++ members_tokens (members_of (from_subject activation.now))) }
    ensures before { out.new.before ≡ out.old.before }
{
    let version = version_text(alloc, activation.version)?;
    put_text(out, "subject", activation.subject.as_str())?;
    put_text(out, "version", version.as_str())?;
    out.end_object()?;
    Ok(())
}
