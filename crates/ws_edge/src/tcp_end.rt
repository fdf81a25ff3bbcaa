//! The server's end of a TCP connection.

use std::alloc::Global;
use std::io::{self, Cursor, ErrorKind, Read, Write};
use std::net::{OpenStream, Shutdown};
use std::time::{Clock, Duration};

/// How many bytes are passed over at once.
const PIECE: usize = 16_384;

/// For how many seconds a write waits at once. Behind them it tells how much the peer has taken, so that who takes more is waited for anew.
const WRITE_SLICE_SECONDS: u64 = 1;

/// How many reads in a row may wait in vain; the next one that does is told that the connection is aborted.
const SILENT_READS: u32 = 119;

/// A stream that waits for its peer only so long: all its reads together until a deadline, or each read; and each write. Bytes that were taken of it may be put back.
#[derive(Drop)]
pub struct TcpEnd<S, R> {
    stream: S,
    runtime: R,
    // bytes that were put back
    back: Cursor<Vec<u8>>,
    // until when all reads together may wait
    deadline: Option<Duration>,
    // how many reads in a row have waited in vain, where each may wait for itself; none where they aren't counted
    silent: Option<u32>,
    // how long a peer may take nothing of a write
    patience: Duration,
}

impl<S: Read + OpenStream, R: Clock> TcpEnd<S, R> {
    /// A stream all of whose reads together wait for so long. So does each write. Takes no memory.
    pub fn until(
        alloc: Global,
        stream: S,
        runtime: R,
        patience: Duration,
    ) -> io::Result<TcpEnd<S, R>>
    where
        S: Drop,
        R: Drop,
    {
        stream.set_nodelay(true)?;
        stream.set_write_timeout(Some(Duration::from_secs(WRITE_SLICE_SECONDS)))?;
        let deadline = runtime.monotonic()?.saturating_add(patience);
        Ok(TcpEnd {
            stream,
            runtime,
            back: Cursor::new(Vec::new(alloc)),
            deadline: Some(deadline),
            silent: Some(0),
            patience,
        })
    }

    /// Has these bytes read again before any others. Takes no memory.
    pub fn put_back(&mut self, bytes: Vec<u8>) {
        self.back = Cursor::new(bytes);
    }

    /// Has a peer be silent for as long as it likes, where each read waits for itself. Takes no memory.
    pub fn allow_silence(&mut self) {
        self.silent = None;
    }

    /// Has each read wait for so long from now on, and the connection aborted where 120 in a row wait in vain. Takes no memory.
    pub fn wait_at_each_call(&mut self, patience: Duration) -> io::Result<()> {
        self.deadline = None;
        self.stream.set_read_timeout(Some(patience))
    }

    /// Ends what is written, and passes over what the peer still sends, for so long at most, so that a reset doesn't take the last message from it. Takes no memory.
    pub fn pass_over(&mut self, patience: Duration) {
        let Ok(now) = self.runtime.monotonic() else {
            return;
        };
        if self.stream.shutdown(Shutdown::Write).is_err() {
            return;
        }
        self.deadline = Some(now.saturating_add(patience));
        let mut piece = [0; PIECE];
        for _ in 0..u64::MAX {
            match self.read(&mut piece) {
                Ok(0) | Err(_) => return,
                Ok(_) => {}
            }
        }
    }

    // What a read is told that failed so.
    fn noted(&mut self, error: io::Error) -> io::Error {
        if self.deadline.is_some() || !is_for_later(&error) {
            return error;
        }
        match self.silent {
            Some(silent) if silent >= SILENT_READS => {
                return io::Error::from(ErrorKind::ConnectionAborted);
            }
            Some(silent) => self.silent = Some(silent.saturating_add(1)),
            None => {}
        }
        error
    }

    // How long a read may still wait.
    fn set_patience(&self, deadline: Duration) -> io::Result<()> {
        let rest = deadline.saturating_sub(self.runtime.monotonic()?);
        if rest.is_zero() {
            return Err(io::Error::from(ErrorKind::TimedOut));
        }
        self.stream.set_read_timeout(Some(rest))
    }
}

impl<S: Read + OpenStream, R: Clock> Read for TcpEnd<S, R> {
    // A read that a signal interrupts is made again.
    fn read(&mut self, buf: &mut [u8]) -> io::Result<usize> {
        let again = self.back.read(buf)?;
        if again > 0 {
            return Ok(again);
        }
        for _ in 0..u64::MAX {
            if let Some(deadline) = self.deadline {
                self.set_patience(deadline)?;
            }
            match self.stream.read(buf) {
                Err(error) if error.kind() == ErrorKind::Interrupted => {}
                Err(error) => return Err(self.noted(error)),
                Ok(count) => {
                    self.silent = self.silent.and(Some(0));
                    return Ok(count);
                }
            }
        }
        Err(io::Error::from(ErrorKind::TimedOut))
    }
}

impl<S: Write, R: Clock> Write for TcpEnd<S, R> {
    // A write that a signal interrupts is made again, and so is one of which the peer took nothing, while it may wait.
    fn write(&mut self, buf: &[u8]) -> io::Result<usize> {
        let deadline = self.runtime.monotonic()?.saturating_add(self.patience);
        for _ in 0..u64::MAX {
            match self.stream.write(buf) {
                Err(error) if is_for_later(&error) && is_before(&self.runtime, deadline) => {}
                written => return written,
            }
        }
        Err(io::Error::from(ErrorKind::TimedOut))
    }

    fn flush(&mut self) -> io::Result<()> {
        self.stream.flush()
    }
}

// Whether nothing came of a read or a write, of which more may come.
fn is_for_later(error: &io::Error) -> bool {
    matches!(
        error.kind(),
        ErrorKind::WouldBlock | ErrorKind::TimedOut | ErrorKind::Interrupted
    )
}

// Whether a moment of the clock is still to come; not where it can't be told.
fn is_before<R: Clock>(runtime: &R, moment: Duration) -> bool {
    match runtime.monotonic() {
        Ok(now) => now < moment,
        Err(_) => false,
    }
}
