// Components that can't be called, and what follows.
ghost use Rattle.std.specs.Prelude.{◌≡◌, IfOk};
ghost use Rattle.ow_compose.specs.Refusal.{refused, untold_text};

use crate::Step;
use crate::conductors::run_with_state;
use crate::members::{error_object, failed};
use ow_records::{Form, Response, Used};
use ow_value::{NoMemory, Params};
use std::alloc::Global;

/// Why a component isn't called; the first that holds counts.
#[derive(Clone, Copy, Debug, PartialEq, Eq, Drop)]
pub enum Untold {
    /// It has no name, or can't be reached.
    Missing,
    /// What it is given has a parameter of its own that can't be replaced.
    Fixed,
    /// The composition has called as many as it may.
    Components,
    /// It is a composite, and nested too deep.
    Depth,
    /// Its parameters have too many bytes.
    Bytes,
}

impl Untold {
    /// The text of the error.
    pub fn text(self) -> &'static str
        ensures { result.now ≡ untold_text self }
    {
        match self {
            Untold::Missing => "The component does not exist.",
            Untold::Fixed => "The component overrides a fixed parameter.",
            Untold::Components => "The composition has too many components.",
            Untold::Depth => "The composition is nested too deep.",
            Untold::Bytes => "The parameters have too many bytes.",
        }
    }
}

/// What a composite of this form does where a component isn't called: a sequence ends, a conductor runs its code. `own` are a conductor's
/// own parameters, and `conducted` is what its code answered last.
pub fn refused(
    alloc: Global,
    form: Form,
    own: &Params,
    used: Used,
    conducted: &Option<Response>,
    why: Untold,
) -> Result<Step, NoMemory>
    ensures { IfOk result (λ s. s ≡ refused form own.now used conducted.now why) }
{
    match form {
        Form::Leaf | Form::Sequence => failed(alloc, why.text()),
        Form::Conductor => {
            let error = error_object(alloc, why.text())?;
            run_with_state(alloc, own, used, conducted, &error)
        }
    }
}
