// How many bytes the book counts of what it holds.
ghost use Rattle.std.specs.Prelude.{◌≡◌, ◌+◌, ◌<◌, ◌^◌, length, map, sum, IfSome};
ghost use Rattle.ow_hall.specs.History.{event_bytes, reply_bytes, told_bytes};

use ow_decide::{Event, HallCollected, Reply, Told};
use ow_traits::RunReply;
use ow_value::Str;

/// How many bytes an entry counts beside its 64, unless they pass the type.
pub(crate) fn entry_bytes(event: &Event, told: &Told) -> Option<u64>
    ensures { IfSome result (λ n. n ≡ event_bytes event.now + told_bytes told.now) }
{
    event_bytes(event)?.checked_add(told_bytes(told))
}

fn event_bytes(event: &Event) -> Option<u64>
    ensures { IfSome result (λ n. n ≡ event_bytes event.now) }
{
    match event {
        Event::Asked(request) => Some(request.get().size),
        Event::Answered { reply, .. } => reply_bytes(reply),
        _ => Some(0),
    }
}

fn told_bytes(told: &Told) -> u64
    ensures { result ≡ told_bytes told.now }
{
    match told {
        Told::Asked(Reply::Now(answer)) | Told::Collected(HallCollected::Reply(answer)) => {
            answer.body.as_slice().len() as u64
        }
        _ => 0,
    }
}

fn reply_bytes(reply: &RunReply) -> Option<u64>
    ensures { IfSome result (λ n. n ≡ reply_bytes reply.now) }
{
    match reply {
        RunReply::Answer { text, logs } => {
            let lines = lines_bytes(logs.as_slice())?;
            lines.checked_add(text.len() as u64)
        }
        RunReply::Exit { logs, .. } => lines_bytes(logs.as_slice()),
        RunReply::NoStart { text } => Some(text.len() as u64),
        RunReply::Fault => Some(0),
    }
}

fn lines_bytes(lines: &[Str]) -> Option<u64>
    ensures { IfSome result (λ n. n ≡ sum (map length lines.now)) }
{
    let mut total: u64 = 0;
    for line in lines {
        total = total.checked_add(line.len() as u64)?;
    }
    Some(total)
}
