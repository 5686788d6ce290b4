// The lines of logs that follow a statement.
ghost use Rattle.std.specs.Prelude.{◌≡◌, ◌<◌, ◌≤◌, ◌++◌, [], ◌∷◌, length, drop, position, IfOk, OnOk};
ghost use Rattle.ow_runners.specs.Program.{is_newline};
ghost use Rattle.ow_day.specs.Day.{first_line, line_with, log_text};
ghost use Rattle.ow_day.specs.Line.{lines_of};
ghost use Rattle.ow_day.specs.Logs.{EndsSo, IsLineWithin, line_said};

use crate::line::{LONGEST_LINE, text_of};
use ow_value::{Lines, NoMemory, Str};
use std::alloc::Global;

/// The first line of logs of bytes.
#[derive(Clone, Copy)]
pub enum LogLine<'a> {
    /// A line, and the number of its bytes together with what ends it.
    Read(&'a str, usize),
    /// None.
    Wrong,
    /// One whose end isn't among them.
    Cut,
}

/// Where lines of logs end.
#[derive(Clone, Copy, Debug, PartialEq, Eq)]
pub enum LogLines {
    /// After this many bytes.
    Found(usize),
    /// One of them is no line of logs.
    Wrong,
    /// Their end isn't among the bytes.
    Cut,
}

/// The place of the first newline.
pub fn newline_in(bytes: &[u8]) -> Option<usize>
    ensures { result ≡ position is_newline bytes.now }
{
    bytes.iter().position(|c| *c == b'\n')
}

/// The first line of logs. `more` says that more bytes may come.
#[tactic(auto, unfolding(crate::specs::Day::first_line))]
pub fn first_line(more: bool, bytes: &[u8]) -> LogLine<'_>
    ensures line { line_said bytes.now result ≡ first_line more bytes.now }
    ensures within { IsLineWithin bytes.now result }
{
    if bytes.is_empty() {
        return if more { LogLine::Cut } else { LogLine::Wrong };
    }
    match newline_in(bytes) {
        Some(place) => line_with(&bytes[..place], bytes, place + 1),
        None => {
            if bytes.len() <= LONGEST_LINE && more {
                return LogLine::Cut;
            }
            line_with(bytes, bytes, bytes.len())
        }
    }
}

fn line_with<'a>(line: &'a [u8], bytes: &[u8], used: usize) -> LogLine<'a>
    requires some { 0 < used }
    requires within { used ≤ length bytes.now }
    ensures line { line_said bytes.now result ≡ line_with (log_text line.now) (drop used bytes.now) }
    ensures within { IsLineWithin bytes.now result }
{
    if line.len() > LONGEST_LINE {
        return LogLine::Wrong;
    }
    match text_of(line) {
        Some(text) => LogLine::Read(text, used),
        None => LogLine::Wrong,
    }
}

/// Where `count` lines of logs end.
pub fn lines_end(more: bool, count: u64, bytes: &[u8]) -> LogLines
    ensures { EndsSo more count bytes.now result }
{
    let mut left = count;
    let mut from = 0;
    while left > 0 {
        match first_line(more, &bytes[from..]) {
            LogLine::Read(_, used) => {
                from += used;
                left -= 1;
            }
            LogLine::Wrong => return LogLines::Wrong,
            LogLine::Cut => return LogLines::Cut,
        }
    }
    LogLines::Found(from)
}

/// The first `count` lines of logs of bytes; none at all where one of them is no line of logs.
pub fn lines_of(alloc: Global, count: u64, bytes: &[u8]) -> Result<Lines, NoMemory>
    ensures { IfOk result (λ lines. lines ≡ lines_of count bytes.now) }
{
    let mut lines = Vec::new(alloc);
    let mut left = count;
    let mut from = 0;
    while left > 0 {
        match first_line(false, &bytes[from..]) {
            LogLine::Read(text, used) => {
                push_line(alloc, &mut lines, text)?;
                from += used;
                left -= 1;
            }
            LogLine::Wrong => return Ok(Lines::new()),
            LogLine::Cut => return Ok(Lines::new()),
        }
    }
    Lines::from_vec(lines)
}

fn push_line(alloc: Global, lines: &mut Vec<Str>, text: &str) -> Result<(), NoMemory>
    ensures { OnOk result (lines.new.items ≡ lines.old.items ++ text.now ∷ []) }
{
    let line = Str::of(alloc, text)?;
    lines.push(line)?;
    Ok(())
}
