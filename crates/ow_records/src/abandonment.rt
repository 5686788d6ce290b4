// The records of activations that are abandoned.
ghost use Rattle.std.specs.Prelude.{◌≡◌, IfOk};
ghost use Rattle.ow_records.specs.Unrecorded.{abandoned_notes, abandoned_record};

use crate::forms::is_topmost;
use crate::{Ending, Notes, Record, Span, Unrecorded, outcome};
use ow_value::{Lines, NoMemory, PlainData, copied3, joined3};
use std::alloc::Global;

/// The record of the activation, which is abandoned at this moment, in milliseconds. The record starts at the acceptance, and ends no
/// sooner.
pub fn abandoned(alloc: Global, activation: &Unrecorded, at: u64) -> Result<Record, NoMemory>
    ensures { IfOk result (λ r. r ≡ abandoned_record activation.now at) }
{
    let (name, namespace) = (&activation.path.name, &activation.namespace);
    let texts = copied3(alloc, name, namespace, &activation.subject);
    let notes = abandoned_notes(alloc, activation);
    let response = outcome(alloc, &Ending::Abandoned, &activation.limits);
    let ((name, namespace, subject), notes, response) = joined3(texts, notes, response)?;
    Ok(Record {
        id: activation.id,
        name,
        namespace,
        subject,
        version: activation.version,
        cause: activation.cause,
        span: Span::new(activation.at, activation.at.max(at)),
        notes,
        logs: Lines::new(),
        response,
    })
}

fn abandoned_notes(alloc: Global, activation: &Unrecorded) -> Result<Notes, NoMemory>
    ensures { IfOk result (λ n. n ≡ abandoned_notes activation.now) }
{
    let path = activation.path.copy(alloc)?;
    let binding = activation.binding.copy(alloc)?;
    Ok(Notes {
        binding,
        caused_by: activation.cause.is_some(),
        init_time: None,
        kind: Some(activation.kind),
        limits: Some(activation.limits),
        path: Some(path),
        topmost: is_topmost(activation.form, activation.cause),
        wait_time: None,
    })
}
