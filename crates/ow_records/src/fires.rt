// Fires of triggers, and their records.
ghost use Rattle.std.specs.Prelude.{◌≡◌};
ghost use Rattle.ow_records.specs.Fire.{no_notes, trigger_record};

use crate::{Id, Notes, Record, Response, Span};
use ow_names::EntityName;
use ow_value::{Lines, Params, Str};

/// One fire of a trigger.
#[derive(Drop)]
pub struct Fire {
    /// The next id of its namespace.
    pub id: Id,
    /// The moment of the fire, in milliseconds.
    pub at: u64,
    /// What the trigger is called.
    pub name: EntityName,
    /// The namespace of the trigger, which is charged for the fire.
    pub namespace: EntityName,
    /// In whose name it is fired.
    pub subject: Str,
    /// The version of the trigger.
    pub version: u32,
    /// The parameters of the trigger, merged with those of the event.
    pub params: Params,
}

/// The record of a fire, with one line for each rule. It has no annotations, takes no time and always succeeds. This takes no memory.
pub fn trigger_record(fire: Fire, lines: Lines) -> Record
    ensures { result ≡ trigger_record fire lines }
{
    let Fire {
        id,
        at,
        name,
        namespace,
        subject,
        version,
        params,
    } = fire;
    Record {
        id,
        name,
        namespace,
        subject,
        version,
        cause: None,
        span: Span::new(at, at),
        notes: no_notes(),
        logs: lines,
        response: Response::new(0, params),
    }
}

fn no_notes() -> Notes
    ensures { result ≡ no_notes }
{
    Notes {
        binding: None,
        caused_by: false,
        init_time: None,
        kind: None,
        limits: None,
        path: None,
        topmost: false,
        wait_time: None,
    }
}
