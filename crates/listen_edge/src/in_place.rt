//! A spawner for tests, which runs each job as it is started.
ghost use Rattle.std.specs.Prelude.{◌≡◌};
ghost use Rattle.listen_edge.specs.Ending.{counted, faults_in};

use crate::job::{WorkerDone, WorkerEnd};
use crate::spawner::Spawner;
use std::thread::Threads;

/// What a spawner counts.
#[derive(Clone, Copy, Debug, PartialEq, Eq, Drop)]
pub(crate) struct Counts {
    pub(crate) faults: u64,
    pub(crate) served: u64,
}

impl Counts {
    /// Nothing was counted.
    pub(crate) fn new() -> Counts
        ensures { (result.faults ≡ 0) × (result.served ≡ 0) }
    {
        Counts {
            faults: 0,
            served: 0,
        }
    }

    /// Counts how a job ended.
    pub(crate) fn count(&mut self, done: WorkerDone)
        ensures faults { self.new.faults ≡ counted self.old.faults (faults_in done.end) }
        ensures served { self.new.served ≡ counted self.old.served done.served }
    {
        self.faults = self.faults.saturating_add(faults_in(done.end));
        self.served = self.served.saturating_add(done.served);
    }
}

fn faults_in(end: WorkerEnd) -> u64
    ensures { result ≡ faults_in end }
{
    match end {
        WorkerEnd::AcceptFault => 1,
        WorkerEnd::All | WorkerEnd::PassSpent => 0,
    }
}

/// Runs each job as it is started, in the thread that starts it.
#[derive(Drop)]
pub struct InPlace<R> {
    runtime: R,
    counts: Counts,
}

impl<R: Threads> InPlace<R> {
    /// Makes a spawner. Takes no memory.
    pub fn new(runtime: R) -> InPlace<R>
        ensures { (⟦<InPlace<R> as Spawner>⟧.faults result ≡ 0) × (⟦<InPlace<R> as Spawner>⟧.served result ≡ 0) }
    {
        InPlace {
            runtime,
            counts: Counts::new(),
        }
    }
}

impl<R: Threads> Spawner for InPlace<R> {
    type Runtime = R;

    ghost faults = { λ s. s.counts.faults };

    ghost served = { λ s. s.counts.served };

    fn runtime(&self) -> &R {
        &self.runtime
    }

    fn is_in_place(&self) -> bool {
        true
    }

    fn count(&mut self, done: WorkerDone) {
        self.counts.count(done);
    }
}
