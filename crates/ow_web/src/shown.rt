// Values as plain texts.
ghost use Rattle.std.specs.Prelude.{◌≡◌, IfOk};
ghost use Rattle.ow_value.specs.View.{view};
ghost use Rattle.ow_web.specs.Shown.{is_scalar, shown_text};

use ow_value::{NoMemory, PlainData, Str, Val, val_text};
use std::alloc::Global;

/// A text as it is, another value as compact JSON.
pub(crate) fn shown_text(alloc: Global, value: &Val) -> Result<Str, NoMemory>
    ensures { IfOk result (λ s. s ≡ shown_text (view value.now)) }
{
    match value {
        Val::Text(text) => text.copy(alloc),
        _ => val_text(alloc, value),
    }
}

/// Whether it is a text, a number or a boolean.
pub(crate) fn is_scalar(value: &Val) -> bool
    ensures { result ≡ is_scalar (view value.now) }
{
    match value {
        Val::Bool(_) | Val::Int(_) | Val::Text(_) => true,
        _ => false,
    }
}
