//! Hosts in memory.
ghost use Rattle.std.specs.Prelude.{◌≡◌, ◌+◌, [], IfOk, None, Some};
ghost use Rattle.io_edge.specs.FailingCalls.{faults_of};

use crate::host::{Host, HostError};
use crate::listener::{Listener, ThreadListener};
use crate::memory_listener::MemConnection;
use io_edge::failing_calls::FailingCalls;
use io_edge::fault::Failed;
use io_edge::memory_sink::MemSink;
use io_edge::memory_source::MemSource;
use request_log::request::{AnsweredRequest, RequestLog};
use spec_connection::served::Served;
use std::alloc::{AllocError, Global};
use std::sync::{Arc, Mutex, Wait};

/// What was written of a connection of a host in memory.
#[derive(Drop)]
pub struct Shelved {
    /// The worker whose listener it came back to.
    pub worker: u32,
    /// What was written.
    pub output: MemSink,
}

type Shelf = Arc<Mutex<Vec<Shelved>>>;

/// Hands out its connections in order, and tells none of them. What is written of them comes on the shelf of its host.
#[derive(Drop)]
pub struct ShelfListener<W> {
    runtime: W,
    worker: u32,
    waiting: Vec<MemConnection>,
    shelf: Shelf,
    faults: u64,
}

// Nobody is told of requests.
impl<W> RequestLog for ShelfListener<W> {
    fn begin(&self) -> Option<u64> {
        None
    }

    fn tell(&self, _request: &AnsweredRequest<'_>) {}
}

impl<W: Wait + Send + Drop + 'static> Listener for ShelfListener<W> {
    type In = MemSource;

    type Out = MemSink;

    ghost shown = { λ l. record { connections = None; faults = l.faults } };

    fn accept(&mut self) -> Result<(MemSource, MemSink), Failed> {
        if self.waiting.is_empty() {
            self.faults = self.faults.saturating_add(1);
            return Err(Failed);
        }
        let next = self.waiting.remove(0);
        Ok((next.input, next.output))
    }

    // Memory for the shelf was taken when the host was made.
    fn ended(&mut self, _input: MemSource, output: MemSink, _served: Served) {
        let mut shelf = self.shelf.lock(&self.runtime);
        let _ = shelf.push(Shelved {
            worker: self.worker,
            output,
        });
    }

    ghost balanced = { λ l. tt };
}

impl<W: Wait + Send + Drop + 'static> ThreadListener for ShelfListener<W> {}

/// Makes listeners of its connections, those of the first listener first, and tells what it was asked for. It fails at the calls that it lists.
#[derive(Drop)]
pub struct MemHost<W> {
    alloc: Global,
    runtime: W,
    waiting: Vec<Vec<MemConnection>>,
    asked: Vec<(u16, u32)>,
    shelf: Shelf,
    failing: FailingCalls,
}

impl<W: Wait + Copy + Send + Drop + 'static> MemHost<W> {
    ghost use Rattle.listen_edge.specs.MemoryForms.{failing_listeners};

    /// Makes a host with a list of connections for each listener. The calls of `listener` whose numbers, from 0, stand in `failing` fail.
    ///
    /// Takes memory for the shelf: for what is written of all connections.
    pub fn new(
        alloc: Global,
        runtime: W,
        waiting: Vec<Vec<MemConnection>>,
        failing: Vec<u64>,
    ) -> Result<MemHost<W>, AllocError>
        ensures asked { IfOk result (λ h. (⟦<MemHost<W> as Host>⟧.shown h).asked ≡ Some []) }
        ensures faults { IfOk result (λ h. (⟦<MemHost<W> as Host>⟧.shown h).faults ≡ 0) }
        ensures failing { IfOk result (λ h. failing_listeners h ≡ failing.items) }
    {
        let mut all = 0usize;
        for connections in &waiting {
            all = all.saturating_add(connections.len());
        }
        let shelf = Vec::with_capacity(alloc, all)?;
        Ok(MemHost {
            alloc,
            runtime,
            waiting,
            asked: Vec::new(alloc),
            shelf: Arc::new(alloc, Mutex::new(shelf))?,
            failing: FailingCalls::new(failing),
        })
    }

    /// Takes the first output from the shelf that came back to the listener of this worker, where there is one. It waits for those who put outputs there.
    pub fn take_output(&self, worker: u32) -> Option<MemSink> {
        let mut shelf = self.shelf.lock(&self.runtime);
        let place = shelf.iter().position(|shelved| shelved.worker == worker)?;
        Some(shelf.remove(place).output)
    }
}

impl<W: Wait + Copy + Send + Drop + 'static> Host for MemHost<W> {
    type L = ShelfListener<W>;

    ghost shown = { λ h. record { asked = Some h.asked.items; faults = faults_of h.failing } };

    fn listener(&mut self, port: u16, worker: u32) -> Result<ShelfListener<W>, HostError> {
        if self.asked.push((port, worker)).is_err() {
            return Err(HostError::NoMemory);
        }
        if self.failing.next_fails() {
            return Err(HostError::Failed);
        }
        let waiting = match self.waiting.is_empty() {
            true => Vec::new(self.alloc),
            false => self.waiting.remove(0),
        };
        Ok(ShelfListener {
            runtime: self.runtime,
            worker,
            waiting,
            shelf: Arc::try_clone(&self.shelf)?,
            faults: 0,
        })
    }

    fn tell_serving(&self, _port: u16, _workers: u32, _accounts: u32) {}
}
