// The logs of an activation that has ended.
ghost use Rattle.std.specs.Prelude.{◌≡◌, ◌++◌, ◌∷◌, [], IfOk, codes, map};
ghost use Rattle.ow_records.specs.Id.{id_text};
ghost use Rattle.ow_records.specs.Logs.{fitting, kept_lines, lines_of, logs_of, reply_lines};

use crate::{Ending, Id};
use ow_traits::RunReply;
use ow_value::{Lines, MEGABYTE, NoMemory, PlainData, Str, copy_slice};
use std::alloc::Global;

/// The logs of the record of an activation with this ending. The limit is in MB.
pub(crate) fn logs_of(alloc: Global, ending: &Ending, limit: u32) -> Result<Lines, NoMemory>
    ensures { IfOk result (λ r. r ≡ logs_of limit ending.now) }
{
    let lines = lines_of(alloc, ending)?;
    match ending {
        Ending::Composed { .. } => Ok(lines),
        _ => fitting(alloc, limit as u64 * MEGABYTE, &lines),
    }
}

fn lines_of(alloc: Global, ending: &Ending) -> Result<Lines, NoMemory>
    ensures { IfOk result (λ r. r ≡ lines_of ending.now) }
{
    match ending {
        Ending::Replied(reply) => reply_lines(alloc, reply),
        Ending::Overran | Ending::Abandoned => Ok(Lines::new()),
        Ending::Composed { children, .. } => id_texts(alloc, children.as_slice()),
    }
}

fn id_texts(alloc: Global, ids: &[Id]) -> Result<Lines, NoMemory>
    ensures { IfOk result (λ r. r ≡ map id_text ids.now) }
{
    let mut lines = Vec::with_capacity(alloc, ids.len())?;
    for id in ids {
        lines.push(id.text(alloc)?)?;
    }
    Lines::from_vec(lines)
}

fn reply_lines(alloc: Global, reply: &RunReply) -> Result<Lines, NoMemory>
    ensures { IfOk result (λ r. r ≡ reply_lines reply.now) }
{
    match reply {
        RunReply::Answer { logs, .. } => logs.copy(alloc),
        RunReply::Exit { logs, .. } => logs.copy(alloc),
        RunReply::NoStart { text } => one_line(alloc, text),
        RunReply::Fault => Ok(Lines::new()),
    }
}

fn one_line(alloc: Global, text: &Str) -> Result<Lines, NoMemory>
    ensures { IfOk result (λ r. r ≡ text.now ∷ []) }
{
    let mut lines = Vec::with_capacity(alloc, 1)?;
    lines.push(text.copy(alloc)?)?;
    Lines::from_vec(lines)
}

// The lines that have room together, each with one byte more than its own.
fn fitting(alloc: Global, room: u64, lines: &Lines) -> Result<Lines, NoMemory>
    ensures { IfOk result (λ r. r ≡ fitting room lines.now) }
{
    let items = lines.as_slice();
    let mut left = room;
    for (i, line) in items.iter().enumerate() {
        let bytes = line.len() as u64;
        if left <= bytes {
            return truncated(alloc, &items[..i]);
        }
        left -= bytes + 1;
    }
    lines.copy(alloc)
}

fn truncated(alloc: Global, kept: &[Str]) -> Result<Lines, NoMemory>
    ensures { IfOk result (λ r. r ≡ kept.now ++ codes "Logs were truncated." ∷ []) }
{
    let mut lines = copy_slice(alloc, kept)?;
    lines.push(Str::of(alloc, "Logs were truncated.")?)?;
    Lines::from_vec(lines)
}
