//! What tells an operator by lines.

use crate::line::request_line;
use crate::queue::LineQueue;
use crate::request::{AnsweredRequest, RequestLog};
use spec_time::moment::Moment;
use std::alloc::{AllocError, Global};
use std::sync::{Arc, Wait};
use std::time::{Clock, SystemTime, UNIX_EPOCH};

/// Tells an operator by the lines of a queue, which others share, or by none. Of requests it tells where that is asked for.
#[derive(Drop)]
pub struct Lines<R> {
    alloc: Global,
    runtime: R,
    queue: Option<Arc<LineQueue>>,
    has_requests: bool,
}

impl<R: Wait + Clock + Copy> Lines<R> {
    /// Lines that are told to nobody. Takes no memory.
    pub fn silent(alloc: Global, runtime: R) -> Lines<R> {
        Lines {
            alloc,
            runtime,
            queue: None,
            has_requests: false,
        }
    }

    /// Lines that go to a queue, with one for each request or without. Takes no memory.
    pub fn new(alloc: Global, runtime: R, queue: Arc<LineQueue>, has_requests: bool) -> Lines<R> {
        Lines {
            alloc,
            runtime,
            queue: Some(queue),
            has_requests,
        }
    }

    /// Lines of the same queue. Takes no memory.
    pub fn share(&self) -> Result<Lines<R>, AllocError> {
        let queue = match &self.queue {
            Some(queue) => Some(Arc::try_clone(queue)?),
            None => None,
        };
        Ok(Lines {
            alloc: self.alloc,
            runtime: self.runtime,
            queue,
            has_requests: self.has_requests,
        })
    }

    /// Tells a line.
    pub fn say(&self, line: &str) {
        if let Some(queue) = &self.queue {
            queue.add(&self.runtime, line);
        }
    }

    /// Tells where connections are accepted from now on, by how many workers, and for how many accounts, where memory suffices for the line.
    pub fn say_serving(&self, port: u16, workers: u32, accounts: u32) {
        let worker = noun(workers, "worker", "workers");
        let account = noun(accounts, "account", "accounts");
        let line = format!(in self.alloc;
            "listening on 127.0.0.1:{port}, {workers} {worker}, {accounts} {account}"
        );
        if let Ok(line) = line {
            self.say(line.as_str());
        }
    }

    // The microseconds of a clock that never goes back; 0 where the system doesn't tell it.
    fn microseconds(&self) -> u64 {
        match self.runtime.monotonic() {
            Ok(since) => since
                .as_secs()
                .saturating_mul(1_000_000)
                .saturating_add(u64::from(since.subsec_micros())),
            Err(_) => 0,
        }
    }

    // The moment of now; 1970 where the system tells none.
    fn now(&self) -> Moment {
        let seconds = match SystemTime::now(&self.runtime) {
            Ok(time) => match time.duration_since(UNIX_EPOCH) {
                Ok(since) => since.as_secs(),
                Err(_) => 0,
            },
            Err(_) => 0,
        };
        Moment::clamped(i64::try_from(seconds).unwrap_or(i64::MAX))
    }
}

impl<R: Wait + Clock + Copy> RequestLog for Lines<R> {
    fn begin(&self) -> Option<u64> {
        if self.has_requests {
            Some(self.microseconds())
        } else {
            None
        }
    }

    // Where there is no memory for a line, the request isn't told.
    fn tell(&self, request: &AnsweredRequest<'_>) {
        let taken = self.microseconds().saturating_sub(request.begun);
        if let Ok(line) = request_line(self.alloc, self.now(), request, taken) {
            self.say(line.as_str());
        }
    }
}

// The word for so many of a thing.
fn noun(count: u32, one: &'static str, many: &'static str) -> &'static str {
    if count == 1 { one } else { many }
}
