// How far bytes were searched for newlines, so that none of them is searched twice.
ghost use Rattle.std.specs.Prelude.{◌≡◌, ◌<◌, ◌≤◌, ℕ, true, List, None, length, drop, position, IfSome};
ghost use Rattle.ow_runners.specs.Program.{is_newline};
ghost use Rattle.ow_day.specs.Search.{Awaits, IsCut, IsSearched};

use crate::line::LONGEST_LINE;
use crate::logs::{LogLine, first_line, newline_in};

/// Places in the pending bytes.
#[derive(Clone, Copy, Debug, PartialEq, Eq)]
pub struct Search {
    /// Where a line begins.
    pub line: usize,
    /// From `line` up to this place there is no newline.
    pub searched: usize,
    /// How many lines of logs from `line` on belong to the first statement, or 0 where none are known to.
    pub left: u64,
}

impl Search {
    /// Nothing is searched.
    pub fn new() -> Search
        ensures { (bytes : List ℕ) → IsSearched bytes result }
    {
        Search {
            line: 0,
            searched: 0,
            left: 0,
        }
    }
}

/// `left` lines of logs are awaited, of which the first begins at `line`.
pub fn search_lines(bytes: &[u8], line: usize, left: u64) -> Search
    requires within { line ≤ length bytes.now }
    requires awaits { Awaits bytes.now line left }
    ensures { IsSearched bytes.now result }
{
    Search {
        line,
        searched: line,
        left,
    }
}

/// The place of the first newline, and the search from which to go on.
pub fn search_on(bytes: &[u8], search: Search) -> (Option<usize>, Search)
    requires { IsSearched bytes.now search }
    ensures place { result.0 ≡ position is_newline bytes.now }
    ensures search { IsSearched bytes.now result.1 }
{
    if search.line != 0 {
        return (newline_in(bytes), Search::new());
    }
    match newline_in(&bytes[search.searched..]) {
        Some(place) => (Some(search.searched + place), search),
        None => (None, searched_whole(bytes)),
    }
}

// The bytes have no newline.
fn searched_whole(bytes: &[u8]) -> Search
    requires { position is_newline bytes.now ≡ None }
    ensures { IsSearched bytes.now result }
{
    Search {
        line: 0,
        searched: bytes.len(),
        left: 0,
    }
}

/// Goes over the lines of logs that are awaited, and returns whether the first statement is still cut.
pub fn go_over(bytes: &[u8], search: Search) -> (bool, Search)
    requires { IsSearched bytes.now search }
    ensures cut { IsCut true bytes.now result.0 }
    ensures search { IsSearched bytes.now result.1 }
{
    let mut search = search;
    while search.left > 0 {
        if newline_in(&bytes[search.searched..]).is_none() {
            return line_goes_on(bytes, search);
        }
        match behind_line(bytes, search) {
            Some(next) => search = next,
            None => return (false, Search::new()),
        }
    }
    (false, search)
}

// The line has no newline yet.
fn line_goes_on(bytes: &[u8], search: Search) -> (bool, Search)
    requires searched { IsSearched bytes.now search }
    requires none { position is_newline (drop search.searched bytes.now) ≡ None }
    requires left { 0 < search.left }
    ensures cut { IsCut true bytes.now result.0 }
    ensures search { IsSearched bytes.now result.1 }
{
    let next = Search {
        line: search.line,
        searched: bytes.len(),
        left: search.left,
    };
    (bytes.len() - search.line <= LONGEST_LINE, next)
}

// The search after the line at `search.line`, or none where no complete line of logs begins there.
fn behind_line(bytes: &[u8], search: Search) -> Option<Search>
    requires searched { IsSearched bytes.now search }
    requires left { 0 < search.left }
    ensures search { IfSome result (IsSearched bytes.now) }
    ensures falls { IfSome result (λ next. next.left < search.left) }
{
    match first_line(true, &bytes[search.line..]) {
        LogLine::Read(_, used) => {
            let line = search.line + used;
            Some(Search {
                line,
                searched: line,
                left: search.left - 1,
            })
        }
        LogLine::Wrong | LogLine::Cut => None,
    }
}
