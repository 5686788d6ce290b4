// Members of objects, written token by token.
ghost use Rattle.std.specs.Prelude.{◌≡◌, ◌∷◌, [], ◌++◌, pos, string_bytes, IfOk, OnOk};
ghost use Rattle.json.specs.Token.{key};
ghost use Rattle.ow_value.specs.Value.{boolean, text, whole};
ghost use Rattle.ow_value.specs.Text.{value_tokens};
ghost use Rattle.ow_entity.specs.Written.{limits_value, shown_version};
ghost use Rattle.ow_records.specs.WrittenNotes.{path_text};
ghost use Rattle.ow_row_text.specs.Tokens.{cause_tokens};

use ow_entity::Limits;
use ow_names::FullName;
use ow_records::Id;
use ow_value::{NoMemory, Writer};
use std::alloc::{AllocError, Global};

/// A member whose value is a text.
pub(crate) fn put_text(out: &mut Writer, name: &str, value: &str) -> Result<(), AllocError>
    ensures ok { OnOk result (out.new.tokens ≡ out.old.tokens ++ key name.now ∷ value_tokens (text value.now)) }
    ensures before { out.new.before ≡ out.old.before }
{
    out.key(name)?;
    out.string(value)
}

/// A member whose value is a number.
pub(crate) fn put_number(out: &mut Writer, name: &str, value: u64) -> Result<(), AllocError>
    ensures ok { OnOk result (out.new.tokens ≡ out.old.tokens ++ key name.now ∷ value_tokens (whole (pos value))) }
    ensures before { out.new.before ≡ out.old.before }
{
    out.key(name)?;
    out.u64(value)
}

/// A member whose value is true or false.
pub(crate) fn put_flag(out: &mut Writer, name: &str, value: bool) -> Result<(), AllocError>
    ensures ok { OnOk result (out.new.tokens ≡ out.old.tokens ++ key name.now ∷ value_tokens (boolean value)) }
    ensures before { out.new.before ≡ out.old.before }
{
    out.key(name)?;
    out.boolean(value)
}

/// A member whose value is a small number.
pub(crate) fn put_small(out: &mut Writer, name: &str, value: u32) -> Result<(), AllocError>
    ensures ok { OnOk result (out.new.tokens ≡ out.old.tokens ++ key name.now ∷ value_tokens (whole (pos value))) }
    ensures before { out.new.before ≡ out.old.before }
{
    put_number(out, name, u64::from(value))
}

/// The value of limits.
pub(crate) fn write_limits(out: &mut Writer, limits: Limits) -> Result<(), AllocError>
    ensures ok { OnOk result (out.new.tokens ≡ out.old.tokens ++ value_tokens (limits_value limits)) }
    ensures before { out.new.before ≡ out.old.before }
{
    out.begin_object()?;
    put_small(out, "logs", limits.logs.get())?;
    put_small(out, "memory", limits.memory.get())?;
    put_small(out, "timeout", limits.timeout.get())?;
    out.end_object()
}

/// The cause of an activation, if there is one.
pub(crate) fn put_cause(alloc: Global, out: &mut Writer, cause: Option<Id>) -> Result<(), NoMemory>
    ensures ok { OnOk result (out.new.tokens ≡ out.old.tokens ++ cause_tokens cause) }
    ensures before { out.new.before ≡ out.old.before }
{
    let Some(cause) = cause else {
        return Ok(());
    };
    let shown = cause.text(alloc)?;
    put_text(out, "cause", shown.as_str())?;
    Ok(())
}

/// `namespace/name` or `namespace/package/name`.
pub(crate) fn path_text(alloc: Global, name: &FullName) -> Result<String, AllocError>
    ensures { IfOk result (λ s. string_bytes s ≡ path_text name.now) }
{
    let namespace = name.namespace.as_str();
    let last = name.name.as_str();
    match &name.package {
        None => format!(in alloc; "{namespace}/{last}"),
        Some(package) => {
            let package = package.as_str();
            format!(in alloc; "{namespace}/{package}/{last}")
        }
    }
}

/// A version as it is shown.
pub(crate) fn version_text(alloc: Global, version: u32) -> Result<String, AllocError>
    ensures { IfOk result (λ s. string_bytes s ≡ shown_version version) }
{
    format!(in alloc; "0.0.{version}")
}
