// The annotations of a record, written token by token.
ghost use Rattle.std.specs.Prelude.{◌≡◌, ◌∷◌, [], ◌++◌, codes, OnOk};
ghost use Rattle.json.specs.Token.{begin_object, key, string};
ghost use Rattle.ow_value.specs.Text.{value_tokens};
ghost use Rattle.ow_records.specs.WrittenNotes.{kind_note, limits_note, mark_note, moment_note, name_note, notes_value, word_note};
ghost use Rattle.ow_row_text.specs.Tokens.{values_tokens};

use crate::tokens::{path_text, write_limits};
use ow_entity::Limits;
use ow_names::FullName;
use ow_records::{ExecKind, Notes};
use ow_value::Writer;
use std::alloc::{AllocError, Global};

/// The value of annotations.
pub(crate) fn write_notes(alloc: Global, out: &mut Writer, notes: &Notes) -> Result<(), AllocError>
    ensures ok { OnOk result (out.new.tokens ≡ out.old.tokens ++ value_tokens (notes_value notes.now)) }
    ensures before { out.new.before ≡ out.old.before }
{
    out.begin_array()?;
    put_name(alloc, out, "binding", &notes.binding)?;
    put_word(out, "causedBy", "sequence", notes.caused_by)?;
    put_moment(out, "initTime", notes.init_time)?;
    put_kind(out, notes.kind)?;
    put_limits(out, notes.limits)?;
    put_name(alloc, out, "path", &notes.path)?;
    put_mark(out, "topmost", notes.topmost)?;
    put_moment(out, "waitTime", notes.wait_time)?;
    out.end_array()
}

fn put_name(
    alloc: Global,
    out: &mut Writer,
    name: &str,
    value: &Option<FullName>,
) -> Result<(), AllocError>
    ensures ok { OnOk result (out.new.tokens ≡ out.old.tokens ++ values_tokens (name_note name.now value.now)) }
    ensures before { out.new.before ≡ out.old.before }
{
    let Some(value) = value else {
        return Ok(());
    };
    let shown = path_text(alloc, value)?;
    begin_note(out, name)?;
    out.string(shown.as_str())?;
    out.end_object()
}

fn put_moment(out: &mut Writer, name: &str, value: Option<u64>) -> Result<(), AllocError>
    ensures ok { OnOk result (out.new.tokens ≡ out.old.tokens ++ values_tokens (moment_note name.now value)) }
    ensures before { out.new.before ≡ out.old.before }
{
    let Some(value) = value else {
        return Ok(());
    };
    begin_note(out, name)?;
    out.u64(value)?;
    out.end_object()
}

fn put_kind(out: &mut Writer, value: Option<ExecKind>) -> Result<(), AllocError>
    ensures ok { OnOk result (out.new.tokens ≡ out.old.tokens ++ values_tokens (kind_note value)) }
    ensures before { out.new.before ≡ out.old.before }
{
    let Some(value) = value else {
        return Ok(());
    };
    begin_note(out, "kind")?;
    out.string(value.text())?;
    out.end_object()
}

fn put_limits(out: &mut Writer, value: Option<Limits>) -> Result<(), AllocError>
    ensures ok { OnOk result (out.new.tokens ≡ out.old.tokens ++ values_tokens (limits_note value)) }
    ensures before { out.new.before ≡ out.old.before }
{
    let Some(value) = value else {
        return Ok(());
    };
    begin_note(out, "limits")?;
    write_limits(out, value)?;
    out.end_object()
}

fn put_word(out: &mut Writer, name: &str, value: &str, marked: bool) -> Result<(), AllocError>
    ensures ok { OnOk result (out.new.tokens ≡ out.old.tokens ++ values_tokens (word_note name.now value.now marked)) }
    ensures before { out.new.before ≡ out.old.before }
{
    if !marked {
        return Ok(());
    }
    begin_note(out, name)?;
    out.string(value)?;
    out.end_object()
}

fn put_mark(out: &mut Writer, name: &str, marked: bool) -> Result<(), AllocError>
    ensures ok { OnOk result (out.new.tokens ≡ out.old.tokens ++ values_tokens (mark_note name.now marked)) }
    ensures before { out.new.before ≡ out.old.before }
{
    if !marked {
        return Ok(());
    }
    begin_note(out, name)?;
    out.boolean(true)?;
    out.end_object()
}

// A `{"key": name, "value":` whose value comes next.
fn begin_note(out: &mut Writer, name: &str) -> Result<(), AllocError>
    ensures ok { OnOk result (out.new.tokens ≡ out.old.tokens ++ begin_object ∷ key (codes "key") ∷ string name.now ∷ key (codes "value") ∷ []) }
    ensures before { out.new.before ≡ out.old.before }
{
    out.begin_object()?;
    out.key("key")?;
    out.string(name)?;
    out.key("value")
}
