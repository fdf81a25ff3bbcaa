//! Listeners in memory.
ghost use Rattle.std.specs.Prelude.{◌≡◌, ◌+◌, ◌≤◌, [], IfOk, Some, length, map, vec_capacity};
ghost use Rattle.io_edge.specs.FailingCalls.{faults_of};

use crate::listener::Listener;
use io_edge::failing_calls::FailingCalls;
use io_edge::fault::Failed;
use io_edge::memory_sink::MemSink;
use io_edge::memory_source::MemSource;
use io_edge::sink::Sink;
use io_edge::source::Source;
use request_log::request::{AnsweredRequest, RequestLog};
use spec_connection::served::Served;
use std::alloc::{AllocError, Global};
use std::snapshot::Snapshot;

/// A connection in memory.
#[derive(Drop)]
pub struct MemConnection {
    /// What is read.
    pub input: MemSource,
    /// What is written.
    pub output: MemSink,
}

/// A connection in memory that came back.
#[derive(Drop)]
pub struct MemReturned {
    /// What is left to read.
    pub input: MemSource,
    /// What was written.
    pub output: MemSink,
    /// How it was served.
    pub served: Served,
}

/// Hands out its connections in order, and tells them. It fails at the calls that it lists, and where it has no more connections.
#[derive(Drop)]
pub struct MemListener {
    waiting: Vec<MemConnection>,
    handed: Vec<Snapshot<MemConnection>>,
    back: Vec<MemReturned>,
    failing: FailingCalls,
    missed: u64,
    ghost hands_all: { length handed.items + length waiting.items ≤ vec_capacity handed },
    ghost takes_all: { length handed.items + length waiting.items ≤ vec_capacity back },
    ghost balanced: { length back.items ≤ length handed.items },
}

impl MemListener {
    ghost use Rattle.listen_edge.specs.MemoryForms.{failing_accepts};

    /// Makes a listener of these connections. The calls of `accept` whose numbers, from 0, stand in `failing` fail.
    ///
    /// Takes all the memory that it needs.
    pub fn new(
        alloc: Global,
        connections: Vec<MemConnection>,
        failing: Vec<u64>,
    ) -> Result<MemListener, AllocError>
        ensures connections { IfOk result (λ l. (⟦<MemListener as Listener>⟧.shown l).connections ≡ Some (record { handed = []; back = [] })) }
        ensures faults { IfOk result (λ l. (⟦<MemListener as Listener>⟧.shown l).faults ≡ 0) }
        ensures failing { IfOk result (λ l. failing_accepts l ≡ failing.items) }
    {
        let handed = Vec::with_capacity(alloc, connections.len())?;
        let back = Vec::with_capacity(alloc, connections.len())?;
        Ok(MemListener {
            waiting: connections,
            handed,
            back,
            failing: FailingCalls::new(failing),
            missed: 0,
        })
    }

    /// The connections that came back, in order.
    pub fn back(&self) -> &[MemReturned]
        ensures { result.now ≡ self.now.back.items }
    {
        &self.back
    }
}

// Nobody is told of requests.
impl RequestLog for MemListener {
    fn begin(&self) -> Option<u64> {
        None
    }

    fn tell(&self, _request: &AnsweredRequest<'_>) {}
}

impl Listener for MemListener {
    type In = MemSource;

    type Out = MemSink;

    ghost use Rattle.listen_edge.specs.MemoryForms.{no_more_mapped};

    ghost shown = { λ l. record {
      connections = Some (record {
        handed = map (λ c. record { input = ⟦<MemSource as Source>⟧.shown c.value.input; output = ⟦<MemSink as Sink>⟧.shown c.value.output }) l.handed.items;
        back = map (λ c. record { input = ⟦<MemSource as Source>⟧.shown c.input; output = ⟦<MemSink as Sink>⟧.shown c.output; served = c.served }) l.back.items;
      });
      faults = faults_of l.failing + l.missed;
    } };

    fn accept(&mut self) -> Result<(MemSource, MemSink), Failed> {
        if self.failing.next_fails() {
            return Err(Failed);
        }
        if self.waiting.is_empty() {
            self.missed = self.missed.saturating_add(1);
            return Err(Failed);
        }
        let next = self.waiting.remove(0);
        self.handed.push_reserved(Snapshot::of(&next));
        Ok((next.input, next.output))
    }

    fn ended(&mut self, input: MemSource, output: MemSink, served: Served) {
        self.back.push_reserved(MemReturned {
            input,
            output,
            served,
        });
    }

    ghost balanced = { λ l. no_more_mapped _ _ l.back.items l.handed.items l.balanced };
}
