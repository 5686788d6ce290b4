// What a program wrote, and how it ended, as a reply.
ghost use Rattle.std.specs.Prelude.{◌≡◌, ◌+◌, ◌<◌, ◌∷◌, IfOk, length, position};
ghost use Rattle.std.specs.Process.{exit_code};
ghost use Rattle.std.specs.Str.Lossy.{utf8_lossy};
ghost use Rattle.ow_runners.specs.Program.{is_newline, lines_in, logs_in, reply_of};

use ow_traits::RunReply;
use ow_value::{Lines, NoMemory, Str};
use std::alloc::Global;
use std::process::Output;

// The status in the reply of a program that ended without one.
const NO_STATUS: i32 = -1;

/// The reply of a program that has ended. What is no UTF-8 in what it wrote becomes U+FFFD.
pub(crate) fn reply_of(alloc: Global, output: &Output) -> Result<RunReply, NoMemory>
    ensures { IfOk result (λ r. r ≡ reply_of (exit_code output.now.status) output.now.stdout.items output.now.stderr.items) }
{
    match output.status.code() {
        Some(0) => Ok(RunReply::Answer {
            text: text_of(alloc, &output.stdout)?,
            logs: logs_of(alloc, &output.stderr)?,
        }),
        Some(code) => exit(alloc, code, &output.stderr),
        None => exit(alloc, NO_STATUS, &output.stderr),
    }
}

fn exit(alloc: Global, code: i32, errors: &[u8]) -> Result<RunReply, NoMemory>
    ensures { IfOk result (λ r. r ≡ RunReply.Exit code (logs_in errors.now)) }
{
    Ok(RunReply::Exit {
        code,
        logs: logs_of(alloc, errors)?,
    })
}

// The lines of the bytes, without what ends them.
fn logs_of(alloc: Global, bytes: &[u8]) -> Result<Lines, NoMemory>
    ensures { IfOk result (λ r. r ≡ logs_in bytes.now) }
{
    let mut logs = Vec::new(alloc);
    let mut rest = bytes;
    while !rest.is_empty() {
        let (line, behind) = first_line(rest);
        logs.push(text_of(alloc, line)?)?;
        rest = behind;
    }
    Lines::from_vec(logs)
}

// The first line without its newline, and the bytes after that newline.
fn first_line(bytes: &[u8]) -> (&[u8], &[u8])
    requires some { 0 < length bytes.now }
    ensures lines { lines_in bytes.now ≡ result.0.now ∷ lines_in result.1.now }
    ensures rest { length result.1.now < length bytes.now }
{
    match newline_in(bytes) {
        Some(place) => (&bytes[..place], &bytes[place + 1..]),
        None => (bytes, &[]),
    }
}

// The place of the first newline.
fn newline_in(bytes: &[u8]) -> Option<usize>
    ensures { result ≡ position is_newline bytes.now }
{
    bytes.iter().position(|b| *b == b'\n')
}

fn text_of(alloc: Global, bytes: &[u8]) -> Result<Str, NoMemory>
    ensures { IfOk result (λ s. s ≡ utf8_lossy bytes.now) }
{
    Str::from_string(String::from_utf8_lossy(alloc, bytes)?)
}
