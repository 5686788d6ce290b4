// Sources and sinks over the system's readers and writers. They report no bytes; what the reader or the writer itself reports still holds.
ghost use Rattle.std.specs.Prelude.{◌≡◌, ◌≤◌, ◌<◌, length, None, IfOk, OnOk};
ghost use Rattle.std.specs.Io.KnownBytes.{ReadConsumes, WriteAppends};
ghost use Rattle.ow_traits.specs.Adapters.{unread, written};
ghost use Rattle.ow_traits.specs.Streams.{HasCause, Reads, Rose, Writes};

use crate::{Failed, Sink, Source};
use std::io::{Read, Write};

/// A source over a reader. Each error of the reader is a fault.
#[derive(Drop)]
pub struct ReaderSource<R: Read + Drop> {
    reader: R,
    faults: u64,
}

impl<R: Read + Drop> ReaderSource<R> {
    /// A source that owns the reader, with no fault yet.
    pub fn new(reader: R) -> Self
        ensures bytes { unread R.remaining result ≡ R.remaining reader }
        ensures faults { ⟦<ReaderSource<R> as Source>⟧.faults result ≡ 0 }
    {
        ReaderSource { reader, faults: 0 }
    }
}

impl<R: Read + Drop> Source for ReaderSource<R> {
    ghost left = { λ s. None };

    ghost faults = { λ s. s.faults };

    fn faults(&self) -> u64 {
        self.faults
    }

    fn read(&mut self, room: &mut [u8]) -> Result<usize, Failed>
        ensures count { IfOk result (λ n. n ≤ length room.new) }
        ensures told { Reads None None room.new result }
        ensures bytes { ReadConsumes (unread R.remaining self.old) (unread R.remaining self.new) result room.new }
        ensures counted { OnOk result (⟦<ReaderSource<R> as Source>⟧.faults self.new ≡ ⟦<ReaderSource<R> as Source>⟧.faults self.old) }
        ensures cause { HasCause (⟦<ReaderSource<R> as Source>⟧.faults self.old) (⟦<ReaderSource<R> as Source>⟧.faults self.new) result }
    {
        match self.reader.read(room) {
            Ok(n) => Ok(n),
            Err(_) => {
                self.faults = self.faults.saturating_add(1);
                Err(Failed)
            }
        }
    }
}

/// A sink over a writer. Each error of the writer is a fault, and so is a write that takes nothing.
#[derive(Drop)]
pub struct WriterSink<W: Write + Drop> {
    writer: W,
    faults: u64,
}

impl<W: Write + Drop> WriterSink<W> {
    /// A sink that owns the writer, with no fault yet.
    pub fn new(writer: W) -> Self
        ensures bytes { written W.contents result ≡ W.contents writer }
        ensures faults { ⟦<WriterSink<W> as Sink>⟧.faults result ≡ 0 }
    {
        WriterSink { writer, faults: 0 }
    }
}

impl<W: Write + Drop> Sink for WriterSink<W> {
    ghost taken = { λ s. None };

    ghost faults = { λ s. s.faults };

    fn faults(&self) -> u64 {
        self.faults
    }

    fn write(&mut self, piece: &[u8]) -> Result<usize, Failed>
        ensures count { IfOk result (λ n. n ≤ length piece.now) }
        ensures told { Writes None None piece.now result }
        ensures nothing { IfOk result (λ n. n ≡ 0 → 0 < length piece.now
            → Rose (⟦<WriterSink<W> as Sink>⟧.faults self.old) (⟦<WriterSink<W> as Sink>⟧.faults self.new)) }
        ensures bytes { WriteAppends (written W.contents self.old) (written W.contents self.new) result piece.now }
        ensures counted { OnOk result (⟦<WriterSink<W> as Sink>⟧.faults self.new ≡ ⟦<WriterSink<W> as Sink>⟧.faults self.old) }
        ensures cause { HasCause (⟦<WriterSink<W> as Sink>⟧.faults self.old) (⟦<WriterSink<W> as Sink>⟧.faults self.new) result }
    {
        let wrote = self.writer.write(piece);
        let Ok(n) = wrote else {
            self.faults = self.faults.saturating_add(1);
            return Err(Failed);
        };
        if n == 0 && !piece.is_empty() {
            self.faults = self.faults.saturating_add(1);
            return Err(Failed);
        }
        Ok(n)
    }
}
