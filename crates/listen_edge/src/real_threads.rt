//! The system's threads.
ghost use Rattle.std.specs.Prelude.{◌≡◌};

use crate::in_place::Counts;
use crate::job::WorkerDone;
use crate::spawner::Spawner;
use std::thread::Threads;

/// Runs each job in a thread of its own, over the runtime.
#[derive(Drop)]
pub struct RealThreads<R> {
    runtime: R,
    counts: Counts,
}

impl<R: Threads> RealThreads<R> {
    /// Makes a spawner over the runtime. Takes no memory.
    pub fn new(runtime: R) -> RealThreads<R>
        ensures { (⟦<RealThreads<R> as Spawner>⟧.faults result ≡ 0) × (⟦<RealThreads<R> as Spawner>⟧.served result ≡ 0) }
    {
        RealThreads {
            runtime,
            counts: Counts::new(),
        }
    }
}

impl<R: Threads> Spawner for RealThreads<R> {
    type Runtime = R;

    ghost faults = { λ s. s.counts.faults };

    ghost served = { λ s. s.counts.served };

    fn runtime(&self) -> &R {
        &self.runtime
    }

    fn is_in_place(&self) -> bool {
        false
    }

    fn count(&mut self, done: WorkerDone) {
        self.counts.count(done);
    }
}
