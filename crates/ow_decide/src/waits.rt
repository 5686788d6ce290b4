// Who waits for the end of an activation, and how that is answered.
ghost use Rattle.std.specs.Prelude.{◌≡◌, IfOk};
ghost use Rattle.ow_value.specs.View.{view};
ghost use Rattle.ow_decide.specs.Waiting.{accepted_answer, id_value, invoked_reply, shows_of, waits_of};

use crate::replies::Reply;
use ow_http::Answer;
use ow_records::Id;
use ow_value::{Bytes, Fields, NoMemory, Pairs, Str, Val, write_val};
use ow_web::Extension;
use std::alloc::Global;

/// What is shown to one who waits.
#[derive(Clone, Copy, Debug, PartialEq, Eq)]
pub enum Shows {
    /// The record.
    Whole,
    /// The result that the action gave.
    ResultAlone,
    /// What a web action answers, as the extension of the path says.
    Web(Extension),
}

/// One who waits for an end.
#[derive(Clone, Copy, Debug, PartialEq, Eq)]
pub struct Wait {
    /// The activation.
    pub id: Id,
    /// What is shown of it.
    pub shows: Shows,
}

/// What becomes of those who wait.
#[derive(Clone, Copy, Debug, PartialEq, Eq)]
pub enum Waits {
    /// They wait on.
    Keep,
    /// One more waits.
    Add(Wait),
    /// Nobody waits any more.
    Clear,
}

/// What is shown to one who waits for the result alone, or for the record.
pub fn shows_of(result_only: bool) -> Shows
    ensures { result ≡ shows_of result_only }
{
    if result_only {
        Shows::ResultAlone
    } else {
        Shows::Whole
    }
}

/// One more request waits, where it has a moment until which it waits.
pub fn waits_of(id: Id, shows: Shows, until: Option<u64>) -> Waits
    ensures { result ≡ waits_of id shows until }
{
    match until {
        Some(_) => Waits::Add(Wait { id, shows }),
        None => Waits::Keep,
    }
}

/// The answer to an invocation, which may wait until a moment.
pub fn invoked_reply(alloc: Global, id: Id, until: Option<u64>) -> Result<Reply, NoMemory>
    ensures { IfOk result (λ r. r ≡ invoked_reply id until) }
{
    match until {
        Some(until) => Ok(Reply::Waiting { id, until }),
        None => Ok(Reply::Now(accepted_answer(alloc, id)?)),
    }
}

/// The answer that an activation was accepted.
pub fn accepted_answer(alloc: Global, id: Id) -> Result<Answer, NoMemory>
    ensures { IfOk result (λ a. a ≡ accepted_answer id) }
{
    let value = id_value(alloc, id)?;
    let body = Bytes::from_vec(write_val(alloc, &value)?)?;
    Ok(Answer {
        status: 202,
        headers: Pairs::new(),
        body,
    })
}

fn id_value(alloc: Global, id: Id) -> Result<Val, NoMemory>
    ensures { IfOk result (λ v. view v ≡ id_value id) }
{
    let mut object = Fields::new(alloc);
    object.set(Str::of(alloc, "activationId")?, Val::Text(id.text(alloc)?))?;
    Ok(Val::Object(object.into_params()?))
}
