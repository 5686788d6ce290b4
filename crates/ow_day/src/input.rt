// The bytes of a day as they come: read in pieces, kept until they are carried out.
ghost use Rattle.std.specs.Prelude.{◌≡◌, ◌≤◌, ◌<◌, ◌+◌, ◌-◌, [], length, drop, position, vec_capacity, vec_len, IfOk, OnOk, OnErr, Err, ◌++◌};
ghost use Rattle.ow_traits.specs.Streams.{Rose};
ghost use Rattle.ow_day.specs.Input.{Fills, IsPast, ReadsBehind};
ghost use Rattle.ow_day.specs.Search.{Awaits, IsCut};
ghost use Rattle.ow_runners.specs.Program.{is_newline};

use crate::search::{Search, go_over, search_lines, search_on};
use ow_traits::{Source, read_some};
use std::alloc::Global;
use std::marker::Model;

/// The most bytes of a day.
pub const MOST_BYTES: usize = 1_073_741_824;

/// The most bytes that are read at once.
const PIECE: usize = 65_536;

/// What was read of a day and isn't carried out yet.
#[derive(Drop)]
pub struct Input {
    // The first `start` bytes are carried out. The pending bytes follow them.
    bytes: Vec<u8>,
    start: usize,
    // How far the pending bytes were searched.
    search: Search,
    // How many bytes were read in all.
    taken: usize,
    // Each piece is read into it.
    room: Vec<u8>,
}

impl Model for Input {
    ghost use Rattle.std.specs.Prelude.{drop};
    ghost use Rattle.ow_day.specs.Input.{InputView, IsInput};

    ghost Value = { InputView };

    ghost view = { λ i. record { pending = drop i.start i.bytes.items; taken = i.taken } };

    ghost invariant = { λ i. IsInput i.bytes.items i.start i.search i.taken i.room.items };
}

/// What a read found.
#[derive(Clone, Copy, Debug, PartialEq, Eq)]
pub enum Filled {
    /// More bytes of the day.
    More,
    /// The end of the day.
    End,
    /// One byte more than a day may have.
    Past,
}

/// Why a read gave nothing.
#[derive(Clone, Copy, Debug, PartialEq, Eq)]
pub enum FillError {
    /// The source failed.
    Failed,
    /// There is no memory.
    NoMemory,
}

impl Input {
    /// Nothing is read. Takes the memory for one piece.
    pub fn new(alloc: Global) -> Result<Self, FillError>
        ensures value { IfOk result (λ i. i ≡ record { pending = []; taken = 0 }) }
        ensures cause { OnErr result (result ≡ Err FillError.NoMemory) }
    {
        let Ok(room) = vec![in alloc; 0u8; PIECE] else {
            return Err(FillError::NoMemory);
        };
        Ok(Input {
            bytes: Vec::new(alloc),
            start: 0,
            search: Search::new(),
            taken: 0,
            room,
        })
    }

    /// How many bytes wait.
    pub fn len(&self) -> usize
        ensures { result ≡ length self.now.pending }
    {
        self.bytes.len() - self.start
    }

    /// The bytes that wait.
    pub fn pending(&self) -> &[u8]
        ensures { result.now ≡ self.now.pending }
    {
        &self.bytes[self.start..]
    }

    /// The place of the first newline. No byte is searched twice.
    pub fn newline(&mut self) -> Option<usize>
        ensures place { result ≡ position is_newline self.old.pending }
        ensures same { self.new ≡ self.old }
    {
        let (place, search) = search_on(&self.bytes[self.start..], self.search);
        self.search = search;
        place
    }

    /// The first statement awaits `left` lines of logs, of which the first begins at `line`.
    pub fn await_lines(&mut self, line: usize, left: u64)
        requires within { line ≤ length self.old.pending }
        requires awaits { Awaits self.old.pending line left }
        ensures same { self.new ≡ self.old }
    {
        self.search = search_lines(&self.bytes[self.start..], line, left);
    }

    /// Whether the first statement is known to be cut, where `more` bytes may come. No byte of the lines that it awaits
    /// is searched again.
    pub fn is_cut(&mut self, more: bool) -> bool
        ensures cut { IsCut more self.old.pending result }
        ensures same { self.new ≡ self.old }
    {
        if !more {
            return false;
        }
        let (cut, search) = go_over(&self.bytes[self.start..], self.search);
        self.search = search;
        cut
    }

    /// Drops the first `n` pending bytes.
    pub fn skip(&mut self, n: usize)
        requires { n ≤ length self.old.pending }
        ensures pending { self.new.pending ≡ drop n self.old.pending }
        ensures taken { self.new.taken ≡ self.old.taken }
    {
        self.start += n;
        self.search = Search::new();
    }

    // Moves the pending bytes to the start of their memory.
    fn compact(&mut self)
        ensures { self.new ≡ self.old }
    {
        if self.start == 0 {
            return;
        }
        drop_front(&mut self.bytes, self.start);
        self.start = 0;
    }

    /// Reads a piece of what is left of the day, in one call of the source.
    pub fn fill<S: Source>(&mut self, source: &mut S) -> Result<Filled, FillError>
        ensures told { Fills (S.left source.old) (S.left source.new) self.old self.new result }
        ensures faults_grow { S.faults source.old ≤ S.faults source.new }
        ensures cause { result ≡ Err FillError.Failed → Rose (S.faults source.old) (S.faults source.new) }
    {
        self.compact();
        let window = MOST_BYTES - self.taken;
        if window == 0 {
            return read_past(source, &mut self.room);
        }
        let n = read_behind(&mut self.bytes, source, &mut self.room, window.min(PIECE))?;
        if n == 0 {
            return Ok(Filled::End);
        }
        self.taken += n;
        Ok(Filled::More)
    }
}

// Reads up to `space` bytes, and appends them to `bytes`. The memory for them is taken before the read.
fn read_behind<S: Source>(
    bytes: &mut Vec<u8>,
    source: &mut S,
    room: &mut [u8],
    space: usize,
) -> Result<usize, FillError>
    requires some { 0 < space }
    requires within { space ≤ length room.old }
    ensures told { ReadsBehind (S.left source.old) (S.left source.new) bytes.old.items bytes.new.items space result }
    ensures faults_grow { S.faults source.old ≤ S.faults source.new }
    ensures cause { result ≡ Err FillError.Failed → Rose (S.faults source.old) (S.faults source.new) }
{
    if bytes.reserve(space).is_err() {
        return Err(FillError::NoMemory);
    }
    let Ok(n) = read_some(source, room, space) else {
        return Err(FillError::Failed);
    };
    append(bytes, &room[..n])?;
    Ok(n)
}

fn append(bytes: &mut Vec<u8>, piece: &[u8]) -> Result<(), FillError>
    ensures ok { OnOk result (bytes.new.items ≡ bytes.old.items ++ piece.now) }
    ensures err { OnErr result (bytes.new.items ≡ bytes.old.items) }
    ensures cause { OnErr result (result ≡ Err FillError.NoMemory) }
    ensures full { OnErr result (vec_capacity bytes.old < vec_len bytes.old + length piece.now) }
{
    match bytes.extend_from_slice(piece) {
        Ok(()) => Ok(()),
        Err(_) => Err(FillError::NoMemory),
    }
}

// Whether a byte follows after the most bytes that a day may have.
fn read_past<S: Source>(source: &mut S, room: &mut [u8]) -> Result<Filled, FillError>
    requires { 0 < length room.old }
    ensures told { IsPast (S.left source.old) (S.left source.new) result }
    ensures faults_grow { S.faults source.old ≤ S.faults source.new }
    ensures cause { result ≡ Err FillError.Failed → Rose (S.faults source.old) (S.faults source.new) }
{
    match read_some(source, room, 1) {
        Ok(0) => Ok(Filled::End),
        Ok(_) => Ok(Filled::Past),
        Err(_) => Err(FillError::Failed),
    }
}

// Takes the first `n` bytes out.
fn drop_front(bytes: &mut Vec<u8>, n: usize)
    requires { n ≤ length bytes.old.items }
    ensures { bytes.new.items ≡ drop n bytes.old.items }
{
    let len = bytes.len();
    bytes.copy_within(n..len, 0);
    bytes.truncate(len - n);
}
