// What an action does when it is called.
ghost use Rattle.std.specs.Prelude.{◌≡◌};
ghost use Rattle.ow_compose.specs.Refusal.{form_of};

use ow_entity::{Action, is_conductor};
use ow_records::Form;

/// What the action does when it is called.
pub fn form_of(action: &Action) -> Form
    ensures { result ≡ form_of action.now }
{
    if action.exec.is_sequence() {
        Form::Sequence
    } else if is_conductor(action) {
        Form::Conductor
    } else {
        Form::Leaf
    }
}
