// What an activation answers, by what ended it.
ghost use Rattle.std.specs.Prelude.{◌≡◌, ◌≤◌, ◌↔◌, IsTrue, IfOk};
ghost use Rattle.ow_value.specs.View.{view};
ghost use Rattle.ow_records.specs.Outcome.{failure, of_exit, of_object, of_overrun, of_reply, of_text, of_value, outcome};

use crate::{Id, Response};
use ow_entity::Limits;
use ow_traits::RunReply;
use ow_value::{
    Fields, Items, MEGABYTE, NoMemory, Params, PlainData, Scratch, Str, Val, ValueRefusal, copied2,
    read_val_in,
};
use std::alloc::Global;

/// What ended an activation.
#[derive(Drop)]
pub enum Ending {
    /// A run ended with this reply.
    Replied(RunReply),
    /// A run exceeded the time limit.
    Overran,
    /// The service was opened again.
    Abandoned,
    /// A composite was done with its children.
    Composed {
        /// What it answers.
        response: Response,
        /// Its direct children, by their acceptance.
        children: Items<Id>,
    },
}

impl PlainData for Ending {
    fn same(&self, other: &Ending) -> bool {
        match (self, other) {
            (Ending::Replied(reply), Ending::Replied(other_reply)) => reply.same(other_reply),
            (Ending::Overran, Ending::Overran) => true,
            (Ending::Abandoned, Ending::Abandoned) => true,
            (
                Ending::Composed { response, children },
                Ending::Composed {
                    response: other_response,
                    children: other_children,
                },
            ) => response.same(other_response) && children.same(other_children),
            _ => false,
        }
    }

    fn copy(&self, alloc: Global) -> Result<Ending, NoMemory> {
        match self {
            Ending::Replied(reply) => Ok(Ending::Replied(reply.copy(alloc)?)),
            Ending::Overran => Ok(Ending::Overran),
            Ending::Abandoned => Ok(Ending::Abandoned),
            Ending::Composed { response, children } => {
                let (response, children) = copied2(alloc, response, children)?;
                Ok(Ending::Composed { response, children })
            }
        }
    }
}

/// The response of an activation that ended so.
pub fn outcome(alloc: Global, ending: &Ending, limits: &Limits) -> Result<Response, NoMemory>
    ensures { IfOk result (λ r. r ≡ outcome ending.now limits.now) }
{
    outcome_in(alloc, &mut Scratch::new(alloc), ending, limits)
}

/// As `outcome`, with a scratch for reading answers that is kept from one to the next.
#[tactic(auto, unfolding(crate::specs::Outcome::outcome))]
pub fn outcome_in(
    alloc: Global,
    scratch: &mut Scratch,
    ending: &Ending,
    limits: &Limits,
) -> Result<Response, NoMemory>
    ensures { IfOk result (λ r. r ≡ outcome ending.now limits.now) }
{
    match ending {
        Ending::Replied(reply) => replied(alloc, scratch, reply),
        Ending::Overran => overran(alloc, limits.timeout.get()),
        Ending::Abandoned => failed(alloc, 3, "The activation was abandoned."),
        Ending::Composed { response, .. } => response.copy(alloc),
    }
}

fn replied(alloc: Global, scratch: &mut Scratch, reply: &RunReply) -> Result<Response, NoMemory>
    ensures { IfOk result (λ r. r ≡ of_reply reply.now) }
{
    match reply {
        RunReply::Answer { text, .. } => answered(alloc, scratch, text.as_str()),
        RunReply::Exit { code, .. } => ended(alloc, *code),
        RunReply::NoStart { .. } => failed(alloc, 3, "The action did not start."),
        RunReply::Fault => failed(alloc, 3, "The runner failed."),
    }
}

// The text has at most 1 MB, which is Apache OpenWhisk's limit for a result.
fn answered(alloc: Global, scratch: &mut Scratch, text: &str) -> Result<Response, NoMemory>
    ensures { IfOk result (λ r. r ≡ of_text text.now) }
{
    if text.len() as u64 > MEGABYTE {
        return failed(alloc, 2, "The result has too many bytes.");
    }
    match read_val_in(alloc, scratch, text.as_bytes()) {
        Ok(value) => valued(alloc, value),
        Err(ValueRefusal::NoMemory) => Err(NoMemory),
        Err(_) => failed(alloc, 2, "The result is no JSON value of whole numbers."),
    }
}

fn valued(alloc: Global, value: Val) -> Result<Response, NoMemory>
    ensures { IfOk result (λ r. r ≡ of_value (view value)) }
{
    match value {
        Val::Object(object) => Ok(told(object)),
        _ => failed(alloc, 2, "The result is no JSON object."),
    }
}

// An object with the name `error` is an error that the action reports.
fn told(object: Params) -> Response
    ensures { result ≡ of_object object }
{
    let code = if object.find("error").is_some() { 1 } else { 0 };
    Response::new(code, object)
}

fn ended(alloc: Global, code: i32) -> Result<Response, NoMemory>
    ensures { IfOk result (λ r. r ≡ of_exit code) }
{
    let text = format!(in alloc; "The program ended with status {code}.")?;
    failure_of(alloc, 2, Str::from_string(text)?)
}

fn overran(alloc: Global, timeout: u32) -> Result<Response, NoMemory>
    ensures { IfOk result (λ r. r ≡ of_overrun timeout) }
{
    let text = format!(in alloc; "The action exceeded its time limit of {timeout} milliseconds.")?;
    failure_of(alloc, 2, Str::from_string(text)?)
}

fn failed(alloc: Global, code: u8, text: &str) -> Result<Response, NoMemory>
    requires { code ≤ 3 }
    ensures { IfOk result (λ r. r ≡ failure code text.now) }
{
    failure_of(alloc, code, Str::of(alloc, text)?)
}

fn failure_of(alloc: Global, code: u8, text: Str) -> Result<Response, NoMemory>
    requires { code ≤ 3 }
    ensures { IfOk result (λ r. r ≡ failure code text) }
{
    let mut object = Fields::new(alloc);
    object.set(Str::of(alloc, "error")?, Val::Text(text))?;
    Ok(Response::new(code, object.into_params()?))
}
