//! A queue of lines with a bound, and who writes them.

use crate::pending::{MOST_PENDING, Pending};
use std::alloc::{AllocError, Global};
use std::io::Write;
use std::mem;
use std::sync::{Condvar, Mutex, Wait};
use std::time::{Clock, Duration};

/// How many milliseconds lines gather before they are written, so that who tells one seldom wakes who writes.
const GATHER_MILLISECONDS: u64 = 5;

/// Lines that many threads tell and one writes. Where more wait than there is room for, lines are dropped and counted: who tells one never waits for who writes.
#[derive(Drop)]
pub struct LineQueue {
    alloc: Global,
    pending: Mutex<Pending>,
    came: Condvar,
    done: Condvar,
}

impl LineQueue {
    /// An empty queue. Takes memory for the lines that may wait.
    pub fn new(alloc: Global) -> Result<LineQueue, AllocError> {
        Ok(LineQueue {
            alloc,
            pending: Mutex::new(Pending::new(alloc)?),
            came: Condvar::new(),
            done: Condvar::new(),
        })
    }

    /// Adds a line, or counts it where there is no room. It waits for others that add one, and for none that writes. Takes no memory.
    pub fn add<R: Wait>(&self, runtime: &R, line: &str) {
        let mut pending = self.pending.lock(runtime);
        let is_first = pending.is_waiting();
        pending.add(line);
        drop(pending);
        if is_first {
            self.came.notify_one();
        }
    }

    /// Writes all lines, until the queue is closed. What can't be written is passed over.
    ///
    /// It waits for lines. Takes memory for as many bytes as may wait: where there is none, no line is written.
    pub fn write_to<R: Wait + Clock, W: Write>(&self, runtime: &R, writer: &mut W) {
        if let Ok(bytes) = Vec::with_capacity(self.alloc, MOST_PENDING) {
            self.write_by(runtime, writer, bytes);
        }
        self.pending.lock(runtime).is_done = true;
        self.done.notify_all();
    }

    // Writes all lines, which are moved into these bytes first.
    fn write_by<R: Wait + Clock, W: Write>(&self, runtime: &R, writer: &mut W, mut bytes: Vec<u8>) {
        for _ in runtime.forever() {
            self.await_lines(runtime);
            let (dropped, is_last) = self.take(runtime, &mut bytes);
            let _ = writer.write_all(&bytes);
            bytes.clear();
            if dropped > 0 {
                let _ = write_dropped(self.alloc, writer, dropped);
            }
            if is_last {
                return;
            }
        }
    }

    // Waits until there are lines to write, and a while for more of them.
    fn await_lines<R: Wait + Clock>(&self, runtime: &R) {
        let pending = self
            .came
            .wait_while(runtime, self.pending.lock(runtime), |pending| {
                pending.is_waiting()
            });
        let is_last = pending.is_closed;
        drop(pending);
        if !is_last {
            runtime.sleep(Duration::from_millis(GATHER_MILLISECONDS));
        }
    }

    // Takes the lines that wait into bytes that are empty. Says how many were dropped, and whether no more come.
    fn take<R: Wait>(&self, runtime: &R, bytes: &mut Vec<u8>) -> (u64, bool) {
        let mut pending = self.pending.lock(runtime);
        let pending = &mut *pending;
        mem::swap(&mut pending.bytes, bytes);
        let dropped = pending.dropped;
        pending.dropped = 0;
        (dropped, pending.is_closed)
    }

    /// Closes the queue, and waits until its lines are written, but no longer than so many milliseconds.
    pub fn close<R: Wait + Clock>(&self, runtime: &R, milliseconds: u64) {
        let mut pending = self.pending.lock(runtime);
        pending.is_closed = true;
        self.came.notify_one();
        let limit = Duration::from_millis(milliseconds);
        let _ = self
            .done
            .wait_timeout_while(runtime, pending, limit, |pending| !pending.is_done);
    }
}

// Tells of lines for which there was no room.
fn write_dropped<W: Write>(alloc: Global, writer: &mut W, dropped: u64) -> Result<(), AllocError> {
    let line = format!(in alloc; "jmapd: {dropped} lines were dropped\n")?;
    let _ = writer.write_all(line.as_bytes());
    Ok(())
}
