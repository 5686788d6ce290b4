// The steps of conductors.
ghost use Rattle.std.specs.Prelude.{◌≡◌, ◌<◌, option_map, IfOk};
ghost use Rattle.std.specs.Option.{option_copied};
ghost use Rattle.ow_value.specs.View.{view};
ghost use Rattle.ow_compose.specs.Conductor.{after_answer, after_part, after_run, conduct_step_of, final_result, handed, run_or_end, state_of, text_or_empty};
ghost use Rattle.ow_value.specs.Find.{merge};

use crate::members::{as_object, boxed, done_with, failed, fitting, unless_null};
use crate::sequences::done;
use crate::{MOST_RUNS, Step};
use ow_records::{Frame, Heard, Response, Role, Used};
use ow_value::{NoMemory, Params, PlainData, Str, Val, merge};
use std::alloc::Global;

/// What the conductor does next, or none while its last child is open. It was called with `params`, its action has the parameters `own`,
/// and `used` is what its tree has used.
pub fn conduct_next(
    alloc: Global,
    own: &Params,
    params: &Params,
    used: Used,
    frame: &Frame,
) -> Result<Option<Step>, NoMemory>
    ensures { IfOk result (λ s. s ≡ conduct_step_of own.now params.now used frame.now) }
{
    if frame.children.len() == 0 {
        let step = run_or_end(alloc, own, used, params)?;
        return Ok(Some(step));
    }
    match &frame.last {
        None => Ok(None),
        Some(heard) => {
            let step = after_part(alloc, own, used, &frame.conducted, heard)?;
            Ok(Some(step))
        }
    }
}

fn after_part(
    alloc: Global,
    own: &Params,
    used: Used,
    conducted: &Option<Response>,
    heard: &Heard,
) -> Result<Step, NoMemory>
    ensures { IfOk result (λ s. s ≡ after_part own.now used conducted.now heard.now.role heard.now.response) }
{
    match heard.role {
        Role::Run => after_run(alloc, &heard.response),
        Role::Component | Role::Alone => {
            run_with_state(alloc, own, used, conducted, heard.response.result())
        }
    }
}

/// The code runs with these, and the state over them.
pub(crate) fn run_with_state(
    alloc: Global,
    own: &Params,
    used: Used,
    conducted: &Option<Response>,
    given: &Params,
) -> Result<Step, NoMemory>
    ensures { IfOk result (λ s. s ≡ run_or_end own.now used (merge given.now (state_of conducted.now))) }
{
    let state = state_of(alloc, conducted)?;
    let input = merge(alloc, given, &state)?;
    run_or_end(alloc, own, used, &input)
}

fn run_or_end(alloc: Global, own: &Params, used: Used, input: &Params) -> Result<Step, NoMemory>
    ensures { IfOk result (λ s. s ≡ run_or_end own.now used input.now) }
{
    if used.conductors >= MOST_RUNS {
        return failed(alloc, "The composition has too many conductor runs.");
    }
    match fitting(alloc, own, input)? {
        Some(params) => Ok(Step::Conductor { params }),
        None => failed(alloc, "The parameters have too many bytes."),
    }
}

// The state that the last run of the code left.
fn state_of(alloc: Global, conducted: &Option<Response>) -> Result<Params, NoMemory>
    ensures { IfOk result (λ ps. ps ≡ state_of conducted.now) }
{
    let Some(response) = conducted else {
        return Ok(Params::new());
    };
    let Some(value) = response.result().find("state") else {
        return Ok(Params::new());
    };
    match as_object(value) {
        Some(state) => state.copy(alloc),
        None => Ok(Params::new()),
    }
}

fn after_run(alloc: Global, response: &Response) -> Result<Step, NoMemory>
    ensures { IfOk result (λ s. s ≡ after_run response.now) }
{
    if response.code() != 0 {
        return done(alloc, response);
    }
    let result = response.result();
    let action = unless_null(result, "action");
    let params = unless_null(result, "params");
    after_answer(alloc, action, params, response)
}

fn after_answer(
    alloc: Global,
    action: Option<&Val>,
    params: Option<&Val>,
    response: &Response,
) -> Result<Step, NoMemory>
    ensures { IfOk result (λ s. s ≡ after_answer (option_map (λ v. view v.now) action.entry) (option_map (λ v. view v.now) params.entry) response.now) }
{
    match action {
        Some(action) => {
            let params = handed(alloc, params)?;
            let text = Str::of(alloc, text_or_empty(action))?;
            Ok(Step::Named { text, params })
        }
        None => {
            let members = final_result(alloc, response.result(), params)?;
            Ok(done_with(members))
        }
    }
}

fn text_or_empty(value: &Val) -> &str
    ensures { result.now ≡ text_or_empty (view value.now) }
{
    match value {
        Val::Text(s) => s.as_str(),
        _ => "",
    }
}

fn handed(alloc: Global, params: Option<&Val>) -> Result<Params, NoMemory>
    ensures { IfOk result (λ ps. ps ≡ handed (option_map (λ v. view v.now) params.entry)) }
{
    match params {
        Some(value) => boxed(alloc, value),
        None => Ok(Params::new()),
    }
}

fn final_result(alloc: Global, whole: &Params, params: Option<&Val>) -> Result<Params, NoMemory>
    ensures { IfOk result (λ ps. ps ≡ final_result whole.now (option_map (λ v. view v.now) params.entry)) }
{
    match params {
        Some(value) => boxed(alloc, value),
        None => whole.copy(alloc),
    }
}
