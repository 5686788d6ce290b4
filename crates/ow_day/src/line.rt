// The lines of a day, and the statements that they are.
ghost use Rattle.std.specs.Prelude.{◌≡◌, ◌==◌, position};
ghost use Rattle.std.specs.Option.{option_map};
ghost use Rattle.ow_day.specs.Statement.{answer_of, ask_of, at_of, begun_of, call_of, collect_of, container_of, exit_of, fault_of, gone_of, line_of, logged_of, lost_of, no_start_of, numbered, parted, reply_of, utf8_text, worded};
ghost use Rattle.ow_day.specs.Line.{reading};

use ow_keep::GREATEST_MOMENT;
use ow_records::Id;
use ow_value::decimal_of;

/// The most bytes of a line, without its newline.
pub const LONGEST_LINE: usize = 8_388_608;

/// The most bytes of a request.
const MOST_ASKED: u64 = 8_388_608;

/// The greatest number of a slot, and of a generation.
const GREATEST_OF_SLOT: u64 = 4_294_967_295;

/// A statement, its words and its request lent from the day.
#[derive(Clone, Copy)]
pub enum Statement<'a> {
    /// The moment is this, in milliseconds.
    At(u64),
    /// A call of the action whose full name this is, percent-encoded, with the object that the text is as JSON.
    Call(&'a str, &'a str),
    /// A request of these bytes.
    Ask(&'a [u8]),
    /// A runner asks what is to be done.
    Next,
    /// The container of the run of this number is up.
    Begun(u64),
    /// A runner's answer to the run of this number.
    Answer(u64, &'a str),
    /// The same, with this many lines of logs at the start of these bytes.
    Logged(u64, &'a str, u64, &'a [u8]),
    /// The program of the run of this number ended with this status, and gave no result.
    Exit(u64, u8),
    /// What the run of this number was to run did not start, for the reason in the text.
    NoStart(u64, &'a str),
    /// The runner of the run of this number failed.
    Fault(u64),
    /// No reply to the run of this number comes any more.
    Lost(u64),
    /// The container in the slot of this number, of this generation, is gone.
    Gone(u32, u32),
    /// What has run longer than it may is ended.
    Sweep,
    /// The answer to the request that waits for the activation of this id.
    Collect(Id),
    /// What is to be done is done, and reported.
    Turn,
    /// No more calls are taken from now on.
    Drain,
    /// The service is reopened.
    Reopen,
    /// The day ends.
    End,
}

/// What a line is.
#[derive(Clone, Copy)]
pub enum Line<'a> {
    /// A whole statement.
    Whole(Statement<'a>),
    /// A request of this many bytes follows it.
    Asks(usize),
    /// An answer of the run of this number, with this many lines of logs after it.
    Logs(u64, u64, &'a str),
}

/// What a line is, which has no newline.
#[tactic(auto, unfolding(crate::specs::Statement::line_of))]
pub fn line_of(line: &[u8]) -> Option<Line<'_>>
    ensures { option_map reading result ≡ line_of line.now }
{
    if line.len() > LONGEST_LINE {
        return None;
    }
    if line == b"next".as_slice() {
        return Some(Line::Whole(Statement::Next));
    }
    if line == b"turn".as_slice() {
        return Some(Line::Whole(Statement::Turn));
    }
    if line == b"sweep".as_slice() {
        return Some(Line::Whole(Statement::Sweep));
    }
    if line == b"drain".as_slice() {
        return Some(Line::Whole(Statement::Drain));
    }
    if line == b"reopen".as_slice() {
        return Some(Line::Whole(Statement::Reopen));
    }
    if line == b"end".as_slice() {
        return Some(Line::Whole(Statement::End));
    }
    let (word, rest) = parted(line)?;
    worded(word, rest)
}

// The line that begins with this word.
#[tactic(auto, unfolding(crate::specs::Statement::worded))]
fn worded<'a>(word: &[u8], rest: &'a [u8]) -> Option<Line<'a>>
    ensures { option_map reading result ≡ worded word.now rest.now }
{
    if word == b"call".as_slice() {
        return call_of(rest);
    }
    if word == b"answer".as_slice() {
        return answer_of(rest);
    }
    if word == b"at".as_slice() {
        return at_of(rest);
    }
    if word == b"ask".as_slice() {
        return ask_of(rest);
    }
    if word == b"collect".as_slice() {
        return collect_of(rest);
    }
    reply_of(word, rest)
}

// The line of another reply of a runner.
#[tactic(auto, unfolding(crate::specs::Statement::reply_of))]
fn reply_of<'a>(word: &[u8], rest: &'a [u8]) -> Option<Line<'a>>
    ensures { option_map reading result ≡ reply_of word.now rest.now }
{
    if word == b"logged".as_slice() {
        return logged_of(rest);
    }
    if word == b"exit".as_slice() {
        return exit_of(rest);
    }
    if word == b"nostart".as_slice() {
        return no_start_of(rest);
    }
    if word == b"fault".as_slice() {
        return fault_of(rest);
    }
    container_of(word, rest)
}

// A line that reports on a container.
#[tactic(auto, unfolding(crate::specs::Statement::container_of))]
fn container_of<'a>(word: &[u8], rest: &'a [u8]) -> Option<Line<'a>>
    ensures { option_map reading result ≡ container_of word.now rest.now }
{
    if word == b"begun".as_slice() {
        return begun_of(rest);
    }
    if word == b"lost".as_slice() {
        return lost_of(rest);
    }
    if word == b"gone".as_slice() {
        return gone_of(rest);
    }
    None
}

#[tactic(auto, unfolding(crate::specs::Statement::call_of))]
fn call_of(rest: &[u8]) -> Option<Line<'_>>
    ensures { option_map reading result ≡ call_of rest.now }
{
    let (name, text) = parted(rest)?;
    if name.is_empty() {
        return None;
    }
    let name = text_of(name)?;
    let text = text_of(text)?;
    Some(Line::Whole(Statement::Call(name, text)))
}

#[tactic(auto, unfolding(crate::specs::Statement::answer_of))]
fn answer_of(rest: &[u8]) -> Option<Line<'_>>
    ensures { option_map reading result ≡ answer_of rest.now }
{
    let (run, text) = numbered(rest)?;
    let text = text_of(text)?;
    Some(Line::Whole(Statement::Answer(run, text)))
}

#[tactic(auto, unfolding(crate::specs::Statement::no_start_of))]
fn no_start_of(rest: &[u8]) -> Option<Line<'_>>
    ensures { option_map reading result ≡ no_start_of rest.now }
{
    let (run, text) = numbered(rest)?;
    let text = text_of(text)?;
    Some(Line::Whole(Statement::NoStart(run, text)))
}

#[tactic(auto, unfolding(crate::specs::Statement::logged_of))]
fn logged_of(rest: &[u8]) -> Option<Line<'_>>
    ensures { option_map reading result ≡ logged_of rest.now }
{
    let (run, rest) = numbered(rest)?;
    let (count, text) = numbered(rest)?;
    let text = text_of(text)?;
    Some(Line::Logs(run, count, text))
}

#[tactic(auto, unfolding(crate::specs::Statement::exit_of))]
fn exit_of(rest: &[u8]) -> Option<Line<'_>>
    ensures { option_map reading result ≡ exit_of rest.now }
{
    let (run, code) = numbered(rest)?;
    let code = decimal_of(code)?;
    if code > 255 {
        return None;
    }
    Some(Line::Whole(Statement::Exit(run, code as u8)))
}

#[tactic(auto, unfolding(crate::specs::Statement::fault_of))]
fn fault_of(rest: &[u8]) -> Option<Line<'_>>
    ensures { option_map reading result ≡ fault_of rest.now }
{
    let run = decimal_of(rest)?;
    Some(Line::Whole(Statement::Fault(run)))
}

#[tactic(auto, unfolding(crate::specs::Statement::begun_of))]
fn begun_of(rest: &[u8]) -> Option<Line<'_>>
    ensures { option_map reading result ≡ begun_of rest.now }
{
    let run = decimal_of(rest)?;
    Some(Line::Whole(Statement::Begun(run)))
}

#[tactic(auto, unfolding(crate::specs::Statement::lost_of))]
fn lost_of(rest: &[u8]) -> Option<Line<'_>>
    ensures { option_map reading result ≡ lost_of rest.now }
{
    let run = decimal_of(rest)?;
    Some(Line::Whole(Statement::Lost(run)))
}

#[tactic(auto, unfolding(crate::specs::Statement::gone_of))]
fn gone_of(rest: &[u8]) -> Option<Line<'_>>
    ensures { option_map reading result ≡ gone_of rest.now }
{
    let (slot, generation) = numbered(rest)?;
    let generation = decimal_of(generation)?;
    if slot > GREATEST_OF_SLOT {
        return None;
    }
    if generation > GREATEST_OF_SLOT {
        return None;
    }
    Some(Line::Whole(Statement::Gone(slot as u32, generation as u32)))
}

#[tactic(auto, unfolding(crate::specs::Statement::collect_of))]
fn collect_of(rest: &[u8]) -> Option<Line<'_>>
    ensures { option_map reading result ≡ collect_of rest.now }
{
    let id = Id::of_lower(rest)?;
    Some(Line::Whole(Statement::Collect(id)))
}

#[tactic(auto, unfolding(crate::specs::Statement::at_of))]
fn at_of(rest: &[u8]) -> Option<Line<'_>>
    ensures { option_map reading result ≡ at_of rest.now }
{
    let moment = decimal_of(rest)?;
    if moment > GREATEST_MOMENT {
        return None;
    }
    Some(Line::Whole(Statement::At(moment)))
}

#[tactic(auto, unfolding(crate::specs::Statement::ask_of))]
fn ask_of(rest: &[u8]) -> Option<Line<'_>>
    ensures { option_map reading result ≡ ask_of rest.now }
{
    let count = decimal_of(rest)?;
    if count > MOST_ASKED {
        return None;
    }
    Some(Line::Asks(count as usize))
}

/// The bytes as text, where they are UTF-8.
pub fn text_of(bytes: &[u8]) -> Option<&str>
    ensures { option_map (λ s. s.now) result ≡ utf8_text bytes.now }
{
    match std::str::from_utf8(bytes) {
        Ok(text) => Some(text),
        Err(_) => None,
    }
}

// The number before the first space, and what follows the space.
#[tactic(auto, unfolding(crate::specs::Statement::numbered))]
fn numbered(rest: &[u8]) -> Option<(u64, &[u8])>
    ensures { option_map (λ p. (p.0, p.1.now)) result ≡ numbered rest.now }
{
    let (number, rest) = parted(rest)?;
    let number = decimal_of(number)?;
    Some((number, rest))
}

// The word up to the first space, and what follows the space.
#[tactic(auto, unfolding(crate::specs::Statement::parted))]
fn parted(line: &[u8]) -> Option<(&[u8], &[u8])>
    ensures { option_map (λ p. (p.0.now, p.1.now)) result ≡ parted line.now }
{
    let k = space_in(line)?;
    Some((&line[..k], &line[k + 1..]))
}

fn space_in(text: &[u8]) -> Option<usize>
    ensures { result ≡ position (λ c. c == 32) text.now }
{
    text.iter().position(|c| *c == b' ')
}
