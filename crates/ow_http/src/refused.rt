// Refusals as texts and as answers.
ghost use Rattle.std.specs.Prelude.{◌≡◌, IfOk};
ghost use Rattle.ow_http.specs.Reason.{text_of};
ghost use Rattle.ow_http.specs.Refused.{refusal_of, error_object};

use crate::answer::Answer;
use crate::notice::notice_of;
use crate::reason::Reason;
use ow_value::{Bytes, Fields, NoMemory, Pairs, Str, Val, Whole, write_val};
use std::alloc::Global;

/// The text of a refusal, for people.
pub fn reason_text(alloc: Global, r: &Reason) -> Result<Str, NoMemory>
    ensures { IfOk result (λ t. t ≡ text_of r.now) }
{
    let notice = notice_of(alloc, r)?;
    Ok(notice.text)
}

/// The answer that reports a refusal: an object with the number and the text.
pub fn refusal(alloc: Global, r: &Reason) -> Result<Answer, NoMemory>
    ensures { IfOk result (λ a. a ≡ refusal_of r.now) }
{
    let notice = notice_of(alloc, r)?;
    let status = notice.status;
    Ok(Answer {
        status,
        headers: Pairs::new(),
        body: Bytes::from_vec(error_object(alloc, r.number(), notice.text)?)?,
    })
}

fn error_object(alloc: Global, number: u32, text: Str) -> Result<Vec<u8>, NoMemory>
    ensures { IfOk result (λ v. v.items ≡ error_object number text) }
{
    let mut object = Fields::new(alloc);
    object.set(
        Str::of(alloc, "code")?,
        Val::Int(Whole::of_u64(number as u64)),
    )?;
    object.set(Str::of(alloc, "error")?, Val::Text(text))?;
    write_val(alloc, &Val::Object(object.into_params()?))
}
