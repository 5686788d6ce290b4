// Writes the text of a value.
ghost use Rattle.std.specs.Prelude.{◌≡◌, ◌≤◌, ◌++◌, ℕ, [], Ok, IfOk, OnOk};
ghost use Rattle.ow_value.specs.Value.{V, depth, items_of, members_of};
ghost use Rattle.serde_json.specs.Read.{max_depth};
ghost use Rattle.ow_value.specs.Read.{reading};
ghost use Rattle.ow_value.specs.Text.{compact, value_tokens, items_tokens, members_tokens};
ghost use Rattle.ow_value.specs.View.{view};

use crate::memory::NoMemory;
use crate::shared::held;
use crate::text::Str;
use crate::val::{Params, Val, Vals};
use crate::walk::known;
use json::Writer;
use std::alloc::{AllocError, Global};

/// The text with no space between its tokens, and the names of each object in order.
pub fn write_val(alloc: Global, v: &Val) -> Result<Vec<u8>, NoMemory>
    ensures text { IfOk result (λ b. b.items ≡ compact (view v.now)) }
    ensures reads_back { IfOk result (λ b. (limit : ℕ) → depth (view v.now) ≤ limit → limit ≤ max_depth
        → reading limit b.items ≡ Ok (view v.now)) }
{
    known(v);
    let mut out = Writer::new(Vec::with_capacity(alloc, 128)?);
    write_onto(v, &mut out)?;
    Ok(out.into_inner())
}

/// The same bytes as a text: the writer's are UTF-8, so they aren't tested again.
pub fn val_text(alloc: Global, v: &Val) -> Result<Str, NoMemory>
    ensures { IfOk result (λ s. s ≡ compact (view v.now)) }
{
    let mut out = Writer::new(Vec::with_capacity(alloc, 128)?);
    write_onto(v, &mut out)?;
    written_text(out)
}

/// What was written, as a text: that of a value, where its tokens are the value's. Nothing was there before it.
pub fn written_text(out: Writer) -> Result<Str, NoMemory>
    requires { out.before ≡ [] }
    ensures { (v : V) → out.tokens ≡ value_tokens v → IfOk result (λ s. s ≡ compact v) }
{
    let text = unsafe { String::from_utf8_unchecked(out.into_inner()) };
    Str::from_string(text)
}

/// Appends the tokens of a value to what was written.
#[cycle(written)]
pub fn write_onto(v: &Val, out: &mut Writer) -> Result<(), AllocError>
    ensures ok { OnOk result (out.new.tokens ≡ out.old.tokens ++ value_tokens (view v.now)) }
    ensures before { out.new.before ≡ out.old.before }
{
    match v {
        Val::Null => out.null(),
        Val::Bool(b) => out.boolean(*b),
        Val::Int(n) => n.write(out),
        Val::Text(s) => out.string(s.as_str()),
        Val::List(vs) => {
            out.begin_array()?;
            write_items(vs, out)
        }
        Val::Object(ps) => {
            out.begin_object()?;
            write_members(ps, out)
        }
    }
}

#[cycle(written)]
fn write_items(vs: &Vals, out: &mut Writer) -> Result<(), AllocError>
    ensures ok { OnOk result (out.new.tokens ≡ out.old.tokens ++ items_tokens (items_of vs.now)) }
    ensures before { out.new.before ≡ out.old.before }
{
    for v in held(&vs.items) {
        write_onto(v, out)?;
    }
    out.end_array()
}

#[cycle(written)]
fn write_members(ps: &Params, out: &mut Writer) -> Result<(), AllocError>
    ensures ok { OnOk result (out.new.tokens ≡ out.old.tokens ++ members_tokens (members_of ps.now)) }
    ensures before { out.new.before ≡ out.old.before }
{
    for p in held(&ps.pairs) {
        out.key(p.name.as_str())?;
        write_onto(&p.value, out)?;
    }
    out.end_object()
}
