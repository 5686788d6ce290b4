// The steps of sequences.
ghost use Rattle.std.specs.Prelude.{◌≡◌, IfOk};
ghost use Rattle.std.specs.Option.{option_copied};
ghost use Rattle.ow_compose.specs.Sequence.{after_child, call_of, call_or_done, first_call, seq_step_of};

use crate::Step;
use ow_names::{FullName, full_text};
use ow_records::{Frame, Response};
use ow_value::{NoMemory, Params, PlainData, Str};
use std::alloc::Global;

/// What the sequence of these components does next, or none while its last child is open. It was called with these parameters.
pub fn seq_next(
    alloc: Global,
    components: &[FullName],
    params: &Params,
    frame: &Frame,
) -> Result<Option<Step>, NoMemory>
    ensures { IfOk result (λ s. s ≡ seq_step_of components.now params.now frame.now) }
{
    let count = frame.children.len();
    if count == 0 {
        return first_call(alloc, components.first(), params);
    }
    match &frame.last {
        None => Ok(None),
        Some(heard) => {
            let step = after_child(alloc, components.get(count), &heard.response)?;
            Ok(Some(step))
        }
    }
}

fn first_call(
    alloc: Global,
    first: Option<&FullName>,
    params: &Params,
) -> Result<Option<Step>, NoMemory>
    ensures { IfOk result (λ s. s ≡ first_call (option_copied first.entry) params.now) }
{
    match first {
        None => Ok(None),
        Some(name) => Ok(Some(call_of(alloc, name, params)?)),
    }
}

fn after_child(
    alloc: Global,
    next: Option<&FullName>,
    response: &Response,
) -> Result<Step, NoMemory>
    ensures { IfOk result (λ s. s ≡ after_child (option_copied next.entry) response.now) }
{
    if response.code() == 0 {
        call_or_done(alloc, next, response)
    } else {
        done(alloc, response)
    }
}

fn call_or_done(
    alloc: Global,
    next: Option<&FullName>,
    response: &Response,
) -> Result<Step, NoMemory>
    ensures { IfOk result (λ s. s ≡ call_or_done (option_copied next.entry) response.now) }
{
    match next {
        None => done(alloc, response),
        Some(name) => call_of(alloc, name, response.result()),
    }
}

fn call_of(alloc: Global, name: &FullName, params: &Params) -> Result<Step, NoMemory>
    ensures { IfOk result (λ s. s ≡ call_of name.now params.now) }
{
    let params = params.copy(alloc)?;
    let text = Str::from_string(full_text(alloc, name)?)?;
    Ok(Step::Named { text, params })
}

/// Ends with this response.
pub(crate) fn done(alloc: Global, response: &Response) -> Result<Step, NoMemory>
    ensures { IfOk result (λ s. s ≡ Step.Done response.now) }
{
    Ok(Step::Done {
        response: response.copy(alloc)?,
    })
}
