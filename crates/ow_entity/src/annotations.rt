// What annotations are set.
ghost use Rattle.std.specs.Prelude.{◌≡◌};
ghost use Rattle.ow_entity.specs.Annotations.{is_set, is_conductor};

use crate::actions::Action;
use ow_value::{Params, Val};

/// Whether the annotation is there with a value that isn't null, false, 0 or the empty text.
pub fn is_set(notes: &Params, name: &str) -> bool
    ensures { result ≡ is_set notes.now name.now }
{
    match notes.find(name) {
        None | Some(Val::Null) => false,
        Some(Val::Bool(b)) => *b,
        Some(Val::Int(n)) => n.get() != 0,
        Some(Val::Text(s)) => !s.is_empty(),
        Some(Val::List(_) | Val::Object(_)) => true,
    }
}

/// Whether the action decides, run by run, which action comes next in its composition. No sequence does.
pub fn is_conductor(action: &Action) -> bool
    ensures { result ≡ is_conductor action.now }
{
    !action.exec.is_sequence() && is_set(action.notes.get(), "conductor")
}
