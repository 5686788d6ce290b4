// The first statement of bytes that were read of a day.
ghost use Rattle.std.specs.Prelude.{◌≡◌, ◌≤◌, ◌<◌, ◌&&◌, if◌then◌else◌, Some, None, length, drop, nat_lt, not, option_map, position};
ghost use Rattle.ow_runners.specs.Program.{is_newline};
ghost use Rattle.ow_day.specs.Statement.{Logs};
ghost use Rattle.ow_day.specs.Limits.{most_line};
ghost use Rattle.ow_day.specs.Line.{reading};
ghost use Rattle.ow_day.specs.Day.{asked, behind_line, first_statement, lines_in, logged};
ghost use Rattle.ow_day.specs.First.{AwaitsBehind, AwaitsLines, AwaitsNone, IsWithin, first_of};

use crate::line::{LONGEST_LINE, Line, Statement, line_of};
use crate::logs::{LogLines, lines_end};

/// How bytes begin.
#[derive(Clone, Copy)]
pub enum First<'a> {
    /// A statement, which has `used` bytes together with what ends it.
    Found {
        statement: Statement<'a>,
        used: usize,
    },
    /// No statement.
    Wrong,
    /// One whose end isn't among them.
    Cut,
    /// One whose lines of logs aren't all among them: it has `left` of them, of which the first begins at `line`.
    Awaits {
        line: usize,
        left: u64,
    },
}

/// The first statement of the bytes, whose first newline is at this place. `more` says that more bytes may come.
#[tactic(auto, unfolding(crate::specs::Day::first_statement))]
pub fn first_statement(more: bool, bytes: &[u8], newline: Option<usize>) -> First<'_>
    requires { newline ≡ position is_newline bytes.now }
    ensures first { first_of bytes.now result ≡ first_statement more bytes.now }
    ensures within { IsWithin bytes.now result }
    ensures awaits { AwaitsLines bytes.now result }
{
    match newline {
        Some(place) => behind_line(more, line_of(&bytes[..place]), bytes, place + 1),
        None => without_newline(more, bytes),
    }
}

#[tactic(auto, unfolding(crate::specs::Day::first_statement))]
fn without_newline(more: bool, bytes: &[u8]) -> First<'_>
    requires { position is_newline bytes.now ≡ None }
    ensures first { first_of bytes.now result ≡ first_statement more bytes.now }
    ensures within { IsWithin bytes.now result }
    ensures awaits { AwaitsLines bytes.now result }
{
    if is_cut(more, bytes) {
        return First::Cut;
    }
    behind_line(more, line_of(bytes), bytes, bytes.len())
}

fn is_cut(more: bool, bytes: &[u8]) -> bool
    ensures { result ≡ not (nat_lt most_line (length bytes.now)) && more }
{
    bytes.len() <= LONGEST_LINE && more
}

// What begins with this line. `behind` is how many bytes the line has together with what ends it.
fn behind_line<'a>(more: bool, line: Option<Line<'a>>, bytes: &'a [u8], behind: usize) -> First<'a>
    requires within { behind ≤ length bytes.now }
    requires some { 0 < length bytes.now → 0 < behind }
    ensures first { first_of bytes.now result ≡ behind_line more (option_map reading line.entry) (drop behind bytes.now) }
    ensures within { IsWithin bytes.now result }
    ensures awaits { AwaitsBehind more (option_map reading line.entry) behind result }
{
    match line {
        Some(Line::Whole(statement)) => First::Found {
            statement,
            used: behind,
        },
        Some(Line::Asks(count)) => asked(more, count, bytes, behind),
        Some(Line::Logs(run, count, text)) => { logged(more, run, count, text, bytes, behind) }
        None => First::Wrong,
    }
}

// The answer of a run, with `count` lines of logs after the first `behind` bytes.
fn logged<'a>(
    more: bool,
    run: u64,
    count: u64,
    text: &'a str,
    bytes: &'a [u8],
    behind: usize,
) -> First<'a>
    requires within { behind ≤ length bytes.now }
    requires some { 0 < length bytes.now → 0 < behind }
    ensures first { first_of bytes.now result ≡ logged run text.now (lines_in more count (drop behind bytes.now)) }
    ensures within { IsWithin bytes.now result }
    ensures awaits { AwaitsBehind more (Some (Logs run count text.now)) behind result }
{
    let logs = &bytes[behind..];
    match lines_end(more, count, logs) {
        LogLines::Found(end) => First::Found {
            statement: Statement::Logged(run, text, count, logs),
            used: behind + end,
        },
        LogLines::Wrong => First::Wrong,
        LogLines::Cut => First::Awaits {
            line: behind,
            left: count,
        },
    }
}

// The request of `count` bytes after the first `behind` bytes.
#[tactic(auto, unfolding(crate::specs::Day::asked))]
fn asked(more: bool, count: usize, bytes: &[u8], behind: usize) -> First<'_>
    requires within { behind ≤ length bytes.now }
    requires some { 0 < length bytes.now → 0 < behind }
    ensures first { first_of bytes.now result ≡ asked more count (drop behind bytes.now) }
    ensures within { IsWithin bytes.now result }
    ensures awaits { AwaitsNone result }
{
    let rest = &bytes[behind..];
    if rest.len() < count {
        return at_end(more, First::Wrong);
    }
    if rest.len() == count {
        let statement = Statement::Ask(rest);
        return at_end(
            more,
            First::Found {
                statement,
                used: bytes.len(),
            },
        );
    }
    if rest[count] != b'\n' {
        return First::Wrong;
    }
    First::Found {
        statement: Statement::Ask(&rest[..count]),
        used: behind + count + 1,
    }
}

// What is so only where no more bytes come.
fn at_end(more: bool, first: First<'_>) -> First<'_>
    ensures first { result ≡ (if more then First.Cut else first.entry) }
    ensures awaits { AwaitsNone first.entry → AwaitsNone result }
{
    if more { First::Cut } else { first }
}
