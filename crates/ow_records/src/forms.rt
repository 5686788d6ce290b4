// What kinds of activations there are, and what part they have in a composition.
ghost use Rattle.std.specs.Prelude.{◌≡◌, option_and_then};
ghost use Rattle.ow_value.specs.Field.{field};
ghost use Rattle.ow_value.specs.Value.{members_of, object};
ghost use Rattle.ow_value.specs.View.{view};
ghost use Rattle.ow_records.specs.Form.{as_form, form_named, form_text, is_composite, is_topmost};

use crate::Id;
use ow_value::{Params, Val};

/// What an activation does.
#[derive(Clone, Copy, Debug, PartialEq, Eq, Drop)]
pub enum Form {
    /// Its code runs.
    Leaf,
    /// Its components are called one after another.
    Sequence,
    /// Its code decides which component is called next.
    Conductor,
}

/// What part an activation has in its cause.
#[derive(Clone, Copy, Debug, PartialEq, Eq, Drop)]
pub enum Role {
    /// It has no cause.
    Alone,
    /// It is a component of a sequence or of a conductor.
    Component,
    /// It is a run of a conductor's own code.
    Run,
}

impl Form {
    /// Whether it calls other activations.
    pub fn is_composite(self) -> bool
        ensures { result ≡ is_composite self }
    {
        match self {
            Form::Leaf => false,
            Form::Sequence | Form::Conductor => true,
        }
    }

    /// As it is written among what is kept.
    pub fn text(self) -> &'static str
        ensures { result.now ≡ form_text self }
    {
        match self {
            Form::Leaf => "leaf",
            Form::Sequence => "sequence",
            Form::Conductor => "conductor",
        }
    }
}

/// Whether an activation is the first of its composition.
pub(crate) fn is_topmost(form: Form, cause: Option<Id>) -> bool
    ensures { result ≡ is_topmost form cause }
{
    match cause {
        None => form.is_composite(),
        Some(_) => false,
    }
}

/// The form that the field names.
pub fn form_in(fields: &Params, name: &str) -> Option<Form>
    ensures { result ≡ option_and_then as_form (field name.now (object (members_of fields.now))) }
{
    match fields.find(name) {
        Some(value) => as_form(value),
        None => None,
    }
}

fn as_form(value: &Val) -> Option<Form>
    ensures { result ≡ as_form (view value.now) }
{
    match value {
        Val::Text(s) => form_named(s.as_str()),
        _ => None,
    }
}

fn form_named(text: &str) -> Option<Form>
    ensures { result ≡ form_named text.now }
{
    if text == "leaf" {
        Some(Form::Leaf)
    } else if text == "sequence" {
        Some(Form::Sequence)
    } else if text == "conductor" {
        Some(Form::Conductor)
    } else {
        None
    }
}
