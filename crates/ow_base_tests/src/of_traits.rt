// Sources, sinks, keepers and replies.
use crate::held::{boxed, equals, held, holds, is_told_from};
use ow_traits::{
    Change, Changes, Failed, Keeper, KeeperError, MemoryKeeper, MemorySink, MemorySource,
    ReaderSource, Rows, RunReply, Sink, Source, WriterSink, read_some, write_all,
};
use ow_value::{Lines, NoMemory, PlainData, Str};
use std::alloc::{AllocError, Global};
use std::io;
use std::test::Fail;

// Reads two bytes at a call, and fails at the second.
#[derive(Drop)]
struct FailingReader {
    calls: u8,
}

impl io::Read for FailingReader {
    fn read(&mut self, room: &mut [u8]) -> io::Result<usize> {
        self.calls = self.calls.saturating_add(1);
        if self.calls == 2 {
            return Err(io::Error::from(io::ErrorKind::TimedOut));
        }
        let n = room.len().min(2);
        room[..n].fill(b'a');
        Ok(n)
    }
}

// Writes two bytes at a call, fails at the second, and takes nothing at the fourth.
#[derive(Drop)]
struct FailingWriter {
    calls: u8,
}

impl io::Write for FailingWriter {
    fn write(&mut self, piece: &[u8]) -> io::Result<usize> {
        self.calls = self.calls.saturating_add(1);
        match self.calls {
            2 => Err(io::Error::from(io::ErrorKind::TimedOut)),
            4 => Ok(0),
            _ => Ok(piece.len().min(2)),
        }
    }

    fn flush(&mut self) -> io::Result<()> {
        Ok(())
    }
}

// How many bytes a call gives or takes, and how many faults there are then.
type Done = (Result<usize, Failed>, u64);

const READ_BY_TWO: [Done; 3] = [(Ok(2), 0), (Err(Failed), 1), (Ok(2), 1)];

const WRITTEN_BY_TWO: [Done; 4] = [(Ok(2), 0), (Err(Failed), 1), (Ok(2), 1), (Err(Failed), 2)];

#[test]
fn a_reader_and_a_writer_fail_in_mid_stream(rt: HostRuntime) {
    let mut source = ReaderSource::new(FailingReader { calls: 0 });
    let mut room = [0u8; 4];
    for done in READ_BY_TWO.iter() {
        assert_eq!(rt; (source.read(&mut room), source.faults()), *done);
    }
    let mut sink = WriterSink::new(FailingWriter { calls: 0 });
    for done in WRITTEN_BY_TWO.iter() {
        assert_eq!(rt; (sink.write(b"abc"), sink.faults()), *done);
    }
}

// What a read into a room of one byte gives, and the byte that is in it then.
const BYTES: [(Result<usize, Failed>, u8); 5] = [
    (Ok(1), b'a'),
    (Ok(1), b'b'),
    (Ok(1), b'c'),
    (Ok(0), b'c'),
    (Ok(0), b'c'),
];

// A room of one byte is where half of the room has no byte in it.
#[test]
fn a_reader_is_read_to_its_end_byte_by_byte(rt: HostRuntime) {
    let mut source = ReaderSource::new(b"abc".as_slice());
    let mut room = [0u8; 1];
    for read in BYTES.iter() {
        assert_eq!(rt; (source.read(&mut room), room[0]), *read);
    }
    assert_eq!(rt; source.faults(), 0);
}

// A list of this one number.
fn only(alloc: Global, number: u64) -> Result<Vec<u64>, AllocError> {
    [number].to_vec(alloc)
}

// A source whose second call fails.
fn source(alloc: Global, bytes: &[u8]) -> Result<Box<MemorySource>, Fail> {
    let bytes = bytes.to_vec(alloc)?;
    let failing = only(alloc, 1)?;
    held(alloc, MemorySource::new(bytes, failing))
}

// What a read of three bytes gives, how many faults there are then, and what is left.
const READS: [(Done, &str); 4] = [
    ((Ok(3), 0), "lo"),
    ((Err(Failed), 1), "lo"),
    ((Ok(2), 1), ""),
    ((Ok(0), 1), ""),
];

#[test]
fn a_fault_of_a_source_loses_no_byte(rt: HostRuntime) -> Result<(), Fail> {
    let mut source = source(rt.alloc(), b"hello")?;
    let mut room = [0u8; 4];
    for (done, left) in READS.iter() {
        let read = read_some(&mut *source, &mut room, 3);
        assert_eq!(rt; (read, source.faults()), *done);
        assert!(rt; source.bytes() == left.as_bytes());
    }
    assert!(rt; room.as_slice() == b"lol\0".as_slice());
    Ok(())
}

// A sink whose second call fails.
fn sink(alloc: Global) -> Result<Box<MemorySink>, Fail> {
    let failing = only(alloc, 1)?;
    held(alloc, MemorySink::new(alloc, failing))
}

// What is written, what that gives, how many faults there are then, and what was taken.
const WRITES: [(&str, Result<(), Failed>, u64, &str); 4] = [
    ("ab", Ok(()), 0, "ab"),
    ("cd", Err(Failed), 1, "ab"),
    ("", Ok(()), 1, "ab"),
    ("ef", Ok(()), 1, "abef"),
];

#[test]
fn a_fault_of_a_sink_loses_no_byte(rt: HostRuntime) -> Result<(), Fail> {
    let mut sink = sink(rt.alloc())?;
    for (piece, wrote, faults, taken) in WRITES.iter() {
        let done = write_all(&mut *sink, piece.as_bytes());
        assert_eq!(rt; (done, sink.faults()), (*wrote, *faults));
        assert!(rt; sink.bytes() == taken.as_bytes());
    }
    Ok(())
}

fn put(alloc: Global, key: &str, text: &str) -> Result<Change, NoMemory> {
    let key = Str::of(alloc, key)?;
    let text = Str::of(alloc, text)?;
    Ok(Change::Put(key, text))
}

fn drop_of(alloc: Global, key: &str) -> Result<Change, NoMemory> {
    Ok(Change::Drop(Str::of(alloc, key)?))
}

fn retire(alloc: Global, key: &str, text: &str) -> Result<Change, NoMemory> {
    let key = Str::of(alloc, key)?;
    let text = Str::of(alloc, text)?;
    Ok(Change::Retire(key, text))
}

const PUTS: [(&str, &str); 4] = [("b", "1"), ("a", "2"), ("b", "3"), ("c", "4")];

fn sample(alloc: Global) -> Result<Changes, NoMemory> {
    let mut changes = Vec::new(alloc);
    for (key, text) in PUTS.iter() {
        changes.push(put(alloc, key, text)?)?;
    }
    changes.push(drop_of(alloc, "c")?)?;
    changes.push(drop_of(alloc, "d")?)?;
    changes.push(retire(alloc, "a", "5")?)?;
    changes.push(retire(alloc, "e", "6")?)?;
    Changes::from_vec(changes)
}

// The rows as a text.
fn shown(alloc: Global, rows: &Rows) -> Result<String, AllocError> {
    let mut text = String::new(alloc);
    for (key, value) in rows.as_slice() {
        text.push_str(key.as_str())?;
        text.push_str(value.as_str())?;
    }
    Ok(text)
}

// A keeper of no rows whose first call fails.
fn keeper(alloc: Global) -> Result<Box<MemoryKeeper>, Fail> {
    let failing = only(alloc, 0)?;
    held(alloc, MemoryKeeper::holding(Rows::new(alloc), failing))
}

fn commit(alloc: Global, keeper: &mut MemoryKeeper) -> Result<Result<(), KeeperError>, Fail> {
    let changes = boxed(alloc, sample(alloc))?;
    Ok(keeper.commit(alloc, &changes))
}

fn loads(alloc: Global, keeper: &mut MemoryKeeper, count: usize) -> bool {
    let loaded = keeper.load(alloc);
    match &loaded {
        Ok(rows) => rows.len() == count,
        Err(_) => false,
    }
}

// What a commit gives, how many faults there are then, the rows, and the old rows.
const COMMITS: [(Result<(), KeeperError>, u64, &str, &str); 3] = [
    (Err(KeeperError::Failed), 1, "", ""),
    (Ok(()), 1, "b3", "a5e6"),
    (Ok(()), 1, "b3", "a5e6"),
];

#[test]
fn a_keeper_makes_all_changes_or_none(rt: HostRuntime) -> Result<(), Fail> {
    let alloc = rt.alloc();
    let mut keeper = keeper(alloc)?;
    for (committed, faults, rows, old_rows) in COMMITS.iter() {
        let done = commit(alloc, &mut keeper)?;
        assert_eq!(rt; (done, keeper.faults()), (*committed, *faults));
        equals(shown(alloc, keeper.rows())?, rows)?;
        equals(shown(alloc, keeper.old_rows())?, old_rows)?;
    }
    assert!(rt; loads(alloc, &mut keeper, 1));
    Ok(())
}

#[test]
fn changes_are_copied_and_told_apart(rt: HostRuntime) -> Result<(), Fail> {
    let alloc = rt.alloc();
    let changes = boxed(alloc, sample(alloc))?;
    holds(is_told_from(alloc, &*changes, &Changes::new())?, "changes")
}

fn sample_rows(alloc: Global) -> Result<Rows, NoMemory> {
    let mut rows = Rows::new(alloc);
    let mut old_rows = Rows::new(alloc);
    rows.apply(&mut old_rows, alloc, &sample(alloc)?)?;
    Ok(rows)
}

#[test]
fn rows_are_copied_and_told_apart(rt: HostRuntime) -> Result<(), Fail> {
    let alloc = rt.alloc();
    let rows = boxed(alloc, sample_rows(alloc))?;
    let none = held(alloc, Rows::new(alloc))?;
    holds(is_told_from(alloc, &*rows, &*none)?, "rows")?;
    assert!(rt; has_text(&rows, "b", "3") && rows.find("c").is_none());
    Ok(())
}

fn has_text(rows: &Rows, key: &str, text: &str) -> bool {
    match rows.find(key) {
        Some(found) => found.as_str() == text,
        None => false,
    }
}

fn line(alloc: Global, text: &str) -> Result<Lines, NoMemory> {
    let mut lines = Vec::new(alloc);
    lines.push(Str::of(alloc, text)?)?;
    Lines::from_vec(lines)
}

fn reply(alloc: Global, number: u8) -> Result<RunReply, NoMemory> {
    match number {
        0 => Ok(RunReply::Answer {
            text: Str::of(alloc, "{}")?,
            logs: line(alloc, "a")?,
        }),
        1 => Ok(RunReply::Exit {
            code: -1,
            logs: line(alloc, "a")?,
        }),
        2 => Ok(RunReply::Exit {
            code: -1,
            logs: line(alloc, "b")?,
        }),
        3 => Ok(RunReply::NoStart {
            text: Str::of(alloc, "{}")?,
        }),
        _ => Ok(RunReply::Fault),
    }
}

// Whether the copy of one reply is the same as another.
fn is_copied_as(alloc: Global, one: u8, other: u8) -> Result<bool, Fail> {
    let one = boxed(alloc, reply(alloc, one))?;
    let copied = boxed(alloc, one.copy(alloc))?;
    let other = boxed(alloc, reply(alloc, other))?;
    Ok(copied.same(&other))
}

#[test]
fn replies_are_copied_and_told_apart(rt: HostRuntime) -> Result<(), Fail> {
    let alloc = rt.alloc();
    for i in 0..5 {
        for j in 0..5 {
            assert!(rt; is_copied_as(alloc, i, j)? == (i == j));
        }
    }
    Ok(())
}
