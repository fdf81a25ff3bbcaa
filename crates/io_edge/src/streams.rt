//! The system's streams.

ghost use Rattle.std.specs.Prelude.{◌≡◌, ◌<◌, IfOk, None, length};
ghost use Rattle.std.specs.Io.{ReadsAtMost, WritesAtMost};
ghost use Rattle.std.specs.Io.KnownBytes.{ReadConsumes};

use crate::fault::Failed;
use crate::sink::Sink;
use crate::source::Source;
use std::io::{ErrorKind, Read, Write};

/// How often a read or a write is tried that signals interrupt.
const MAX_TRIES: u64 = 1 << 32;

/// A source over a reader. It tells what the reader tells: of what is left of standard input, nothing.
///
/// A read that a signal interrupts is tried again, and is no fault; the 2^32nd such read is one.
#[derive(Drop)]
pub struct ReaderSource<R: Drop> {
    reader: R,
    faults: u64,
}

impl<R: Read + Drop> ReaderSource<R> {
    /// Makes a source over a reader. Takes no memory.
    pub fn new(reader: R) -> ReaderSource<R>
        ensures left { (⟦<ReaderSource<R> as Source>⟧.shown result).left ≡ R.remaining reader }
        ensures faults { (⟦<ReaderSource<R> as Source>⟧.shown result).faults ≡ 0 }
    {
        ReaderSource { reader, faults: 0 }
    }
}

impl<R: Read + Drop> Source for ReaderSource<R> {
    ghost shown = { λ source. record { left = R.remaining source.reader; faults = source.faults } };

    fn take(&mut self, buf: &mut [u8]) -> Result<usize, Failed> {
        let count = read_some(&mut self.reader, buf);
        if count.is_err() {
            self.faults = self.faults.saturating_add(1);
        }
        count
    }
}

// Reads, and tries again where a signal interrupted the read. A read that fails consumes nothing.
fn read_some<R: Read>(reader: &mut R, buf: &mut [u8]) -> Result<usize, Failed>
    ensures bound { ReadsAtMost result buf.new }
    ensures bytes { ReadConsumes (R.remaining reader.old) (R.remaining reader.new) result buf.new }
{
    for _ in 0..MAX_TRIES {
        match reader.read(buf) {
            Ok(count) => return Ok(count),
            Err(error) if error.kind() == ErrorKind::Interrupted => {}
            Err(_) => return Err(Failed),
        }
    }
    Err(Failed)
}

/// A sink over a writer, as standard output. It tells nothing of what it holds.
///
/// A write that a signal interrupts is tried again, and is no fault; the 2^32nd such write is one.
#[derive(Drop)]
pub struct WriterSink<W: Drop> {
    writer: W,
    faults: u64,
}

impl<W: Write + Drop> WriterSink<W> {
    /// Makes a sink over a writer. Takes no memory.
    pub fn new(writer: W) -> WriterSink<W>
        ensures { (⟦<WriterSink<W> as Sink>⟧.shown result).faults ≡ 0 }
    {
        WriterSink { writer, faults: 0 }
    }

    /// Gives the writer up. Takes no memory.
    pub fn into_writer(self) -> W
        ensures { result ≡ self.writer }
    {
        self.writer
    }
}

impl<W: Write + Drop> Sink for WriterSink<W> {
    ghost shown = { λ sink. record { holds = None; faults = sink.faults } };

    // A write of no bytes of a piece that has some is a fault.
    fn give(&mut self, bytes: &[u8]) -> Result<usize, Failed> {
        if bytes.is_empty() {
            return Ok(0);
        }
        let count = write_some(&mut self.writer, bytes);
        if count.is_err() {
            self.faults = self.faults.saturating_add(1);
        }
        count
    }
}

// Writes, and tries again where a signal interrupted the write. A write of no bytes of a piece that has some is a fault.
fn write_some<W: Write>(writer: &mut W, bytes: &[u8]) -> Result<usize, Failed>
    ensures bound { WritesAtMost result bytes.now }
    ensures some { IfOk result (λ n. 0 < length bytes.now → 0 < n) }
{
    for _ in 0..MAX_TRIES {
        match writer.write(bytes) {
            Ok(0) if !bytes.is_empty() => return Err(Failed),
            Ok(count) => return Ok(count),
            Err(error) if error.kind() == ErrorKind::Interrupted => {}
            Err(_) => return Err(Failed),
        }
    }
    Err(Failed)
}
