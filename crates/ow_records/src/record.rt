// Records of activations that have ended.
ghost use Rattle.std.specs.Prelude.{◌≡◌, ◌↔◌, IsTrue, IfOk};
ghost use Rattle.ow_records.specs.Logs.{logs_of};
ghost use Rattle.ow_records.specs.Outcome.{outcome};
ghost use Rattle.ow_records.specs.Record.{init_of, notes_of, record_of, start_of, wait_of};

use crate::forms::is_topmost;
use crate::logs::logs_of;
use crate::{Activation, Ending, ExecKind, Id, Notes, Response, Span, outcome_in};
use ow_entity::Limits;
use ow_names::EntityName;
use ow_value::{Lines, NoMemory, PlainData, Scratch, Str, copied3, joined2, joined3};
use std::alloc::Global;

/// What is kept of an activation that has ended.
#[derive(Drop)]
pub struct Record {
    /// The activation.
    pub id: Id,
    /// What the action is called.
    pub name: EntityName,
    /// The namespace that is charged for it.
    pub namespace: EntityName,
    /// In whose name it was run.
    pub subject: Str,
    /// The version of the action.
    pub version: u32,
    /// The activation that it is a part of.
    pub cause: Option<Id>,
    /// From its start to its end.
    pub span: Span,
    /// The annotations.
    pub notes: Notes,
    /// What was written beside the answer.
    pub logs: Lines,
    /// What it answers.
    pub response: Response,
}

/// The record of an activation that ended with `ending` at the moment `at`. Its last run, if any, was ordered at `started`. That run began
/// at `begun`, where a container was initialised for it. Moments are in milliseconds. The scratch is for reading answers.
pub fn record_of(
    alloc: Global,
    scratch: &mut Scratch,
    task: &Activation,
    ending: &Ending,
    started: Option<u64>,
    begun: Option<u64>,
    at: u64,
) -> Result<Record, NoMemory>
    ensures { IfOk result (λ r. r ≡ record_of task.now ending.now started begun at) }
{
    let action = task.action.get();
    let start = start_of(task.at, ending, started);
    let texts = copied3(alloc, &action.name.name, &task.namespace, &task.subject);
    let told = told_of(alloc, scratch, ending, &action.limits);
    let notes = notes_of(alloc, task, ending, start, begun);
    let ((name, namespace, subject), notes, (logs, response)) = joined3(texts, notes, told)?;
    Ok(Record {
        id: task.id,
        name,
        namespace,
        subject,
        version: action.version,
        cause: task.cause,
        span: Span::new(start, start.max(at)),
        notes,
        logs,
        response,
    })
}

// The logs and the response.
fn told_of(
    alloc: Global,
    scratch: &mut Scratch,
    ending: &Ending,
    limits: &Limits,
) -> Result<(Lines, Response), NoMemory>
    ensures { IfOk result (λ t. t ≡ (logs_of limits.now.logs ending.now, outcome ending.now limits.now)) }
{
    let logs = logs_of(alloc, ending, limits.logs.get());
    let response = outcome_in(alloc, scratch, ending, limits);
    joined2(logs, response)
}

fn start_of(accepted: u64, ending: &Ending, started: Option<u64>) -> u64
    ensures { result ≡ start_of accepted ending.now started }
{
    match (ending, started) {
        (Ending::Replied(_) | Ending::Overran, Some(moment)) => moment,
        _ => accepted,
    }
}

fn notes_of(
    alloc: Global,
    task: &Activation,
    ending: &Ending,
    start: u64,
    begun: Option<u64>,
) -> Result<Notes, NoMemory>
    ensures { IfOk result (λ r. r ≡ notes_of task.now ending.now start begun) }
{
    let action = task.action.get();
    let path = action.name.copy(alloc)?;
    let binding = task.binding.copy(alloc)?;
    Ok(Notes {
        binding,
        caused_by: task.cause.is_some(),
        init_time: init_of(ending, start, begun),
        kind: Some(ExecKind::of(&action.exec)),
        limits: Some(action.limits),
        path: Some(path),
        topmost: is_topmost(task.form, task.cause),
        wait_time: wait_of(task.at, ending, start),
    })
}

fn init_of(ending: &Ending, start: u64, begun: Option<u64>) -> Option<u64>
    ensures { result ≡ init_of ending.now start begun }
{
    match (ending, begun) {
        (Ending::Replied(_) | Ending::Overran, Some(moment)) => Some(moment.saturating_sub(start)),
        _ => None,
    }
}

fn wait_of(accepted: u64, ending: &Ending, start: u64) -> Option<u64>
    ensures { result ≡ wait_of accepted ending.now start }
{
    match ending {
        Ending::Replied(_) | Ending::Overran => Some(start.saturating_sub(accepted)),
        Ending::Abandoned | Ending::Composed { .. } => None,
    }
}

impl PlainData for Record {
    fn same(&self, other: &Record) -> bool {
        self.id == other.id
            && self.name.same(&other.name)
            && self.namespace.same(&other.namespace)
            && self.subject.same(&other.subject)
            && self.version == other.version
            && self.cause == other.cause
            && self.span == other.span
            && self.notes.same(&other.notes)
            && self.logs.same(&other.logs)
            && self.response.same(&other.response)
    }

    fn copy(&self, alloc: Global) -> Result<Record, NoMemory> {
        let texts = copied3(alloc, &self.name, &self.namespace, &self.subject);
        let told = copied3(alloc, &self.notes, &self.logs, &self.response);
        let ((name, namespace, subject), (notes, logs, response)) = joined2(texts, told)?;
        Ok(Record {
            id: self.id,
            name,
            namespace,
            subject,
            version: self.version,
            cause: self.cause,
            span: self.span,
            notes,
            logs,
            response,
        })
    }
}
