//! Who is told by lines.

use crate::lines::Lines;
use crate::queue::LineQueue;
use std::alloc::{AllocError, Global};
use std::io::Write;
use std::sync::{Arc, Wait};
use std::thread::{Builder, Threads};
use std::time::Clock;

/// How many milliseconds the lines that are left have at the end.
const LAST_MILLISECONDS: u64 = 1_000;

/// The bytes of the writing thread's stack.
const STACK: usize = 1 << 18;

/// Who reads lines that a thread of its own writes, or nobody.
#[derive(Drop)]
pub struct Operator<R> {
    alloc: Global,
    runtime: R,
    queue: Option<Arc<LineQueue>>,
}

impl<R: Wait + Clock + Threads + Copy + Send + Drop + 'static> Operator<R> {
    /// Nobody. Takes no memory.
    pub fn nobody(alloc: Global, runtime: R) -> Operator<R> {
        Operator {
            alloc,
            runtime,
            queue: None,
        }
    }

    /// Who reads what the writer is given. Where there is no memory or no thread for that, nobody.
    pub fn reading<W: Write + Send + Drop + 'static>(
        alloc: Global,
        runtime: R,
        writer: W,
    ) -> Operator<R> {
        Operator {
            alloc,
            runtime,
            queue: start_writing(alloc, runtime, writer).ok(),
        }
    }

    /// Lines by which others tell the operator, with one for each request or without.
    pub fn lines(&self, has_requests: bool) -> Lines<R> {
        match self.shared_queue() {
            Some(queue) => Lines::new(self.alloc, self.runtime, queue, has_requests),
            None => Lines::silent(self.alloc, self.runtime),
        }
    }

    fn shared_queue(&self) -> Option<Arc<LineQueue>> {
        match &self.queue {
            Some(queue) => Arc::try_clone(queue).ok(),
            None => None,
        }
    }

    /// Waits until all lines are written, but no longer than a second.
    pub fn close(&self) {
        if let Some(queue) = &self.queue {
            queue.close(&self.runtime, LAST_MILLISECONDS);
        }
    }
}

// A queue whose lines a thread of its own writes. The thread isn't joined: it may wait for ever for who reads.
fn start_writing<
    R: Wait + Clock + Threads + Copy + Send + Drop + 'static,
    W: Write + Send + Drop + 'static,
>(alloc: Global, runtime: R, writer: W) -> Result<Arc<LineQueue>, AllocError> {
    let queue = Arc::new(alloc, LineQueue::new(alloc)?)?;
    let theirs = Arc::try_clone(&queue)?;
    let builder = Builder::new().stack_size(STACK);
    match builder.spawn(&runtime, move || {
        let mut writer = writer;
        theirs.write_to(&runtime, &mut writer);
    }) {
        Ok(_) => Ok(queue),
        Err(_) => Err(AllocError),
    }
}
