//! Spawners: what runs jobs.
ghost use Rattle.std.specs.Prelude.{◌≡◌, ℕ};

use crate::job::{Finished, Job, WorkerDone};
use std::marker::Model;
use std::snapshot::Snapshot;
use std::thread::{Builder, Promise, PromisedHandle, Threads};

/// The bytes of a thread's stack. The system gives a thread what it has used of them, and counts all of them against a limit of addresses.
const STACK: usize = 2 << 20;

/// The promise that a job gives an answer that it may give.
#[derive(Drop)]
pub struct KeptJob<J>(pub Snapshot<J>);

impl<J: Job> Promise<J::Back> for KeptJob<J> {
    ghost kept_by = { λ promise back. J.may_answer promise.0.value back };
}

#[derive(Drop)]
enum Running<J: Job> {
    // It runs in a thread of its own.
    Thread(PromisedHandle<J::Back, KeptJob<J>>),
    // It was run as it was started.
    Here(J::Back),
}

/// A job that was started. Contracts see the job.
#[derive(Drop)]
pub struct Started<J: Job> {
    job: Snapshot<J>,
    running: Running<J>,
}

impl<J: Job> Model for Started<J> {
    ghost use Rattle.std.specs.Prelude.{◌≡◌};
    ghost use Rattle.listen_edge.specs.declared.spawner.Running.TheVariants.{Here, Thread};

    ghost Value = { J };

    ghost view = { λ s. s.job.value };

    // What it gives is an answer that its job may give.
    ghost invariant = { λ s. (back : J.Back) → elim s.running as (λ _. Type 0) [ Thread h ↦ J.may_answer h.promise.0.value back | Here b ↦ back ≡ b ] → J.may_answer s.job.value back };
}

/// Starts jobs, and gives what they answer. Contracts see how many jobs ended as `AcceptFault`, and how many connections all served; both counts stand at
/// the last value of a u64.
///
/// A job runs in a thread of its own, or as it is started: where the spawner is in place, or no thread can be made.
pub trait Spawner {
    ghost use Rattle.listen_edge.specs.Ending.{counted, faults_in};

    /// What makes threads.
    type Runtime: Threads;

    ghost faults: { Self → ℕ };

    ghost served: { Self → ℕ };

    /// What makes threads and joins them.
    fn runtime(&self) -> &Self::Runtime;

    /// Whether each job is run as it is started.
    fn is_in_place(&self) -> bool;

    /// Counts how a job ended. Takes no memory.
    fn count(&mut self, done: WorkerDone)
        ensures faults { faults self.new ≡ counted (faults self.old) (faults_in done.end) }
        ensures served { served self.new ≡ counted (served self.old) done.served };

    /// Starts a job. It may wait.
    final fn start<J: Job>(&mut self, job: J) -> Started<J>
        ensures counts { (faults self.new ≡ faults self.old) × (served self.new ≡ served self.old) }
        ensures job { result ≡ job }
    {
        if self.is_in_place() {
            Started {
                job: Snapshot::of(&job),
                running: Running::Here(job.go()),
            }
        } else {
            start_thread(self.runtime(), job)
        }
    }

    /// Gives what a job answered, for which it may wait, and counts how it ended.
    final fn join<J: Job>(&mut self, started: Started<J>) -> J::Back
        ensures back { J.may_answer started result }
        ensures faults { faults self.new ≡ counted (faults self.old) (faults_in (J.Back.ended result).end) }
        ensures served { served self.new ≡ counted (served self.old) (J.Back.ended result).served }
    {
        let Started { job: _, running } = started;
        let back = match running {
            Running::Thread(handle) => handle.join(self.runtime()),
            Running::Here(back) => back,
        };
        self.count(back.done());
        back
    }
}

// Starts a job in a thread of its own, or runs it here where no thread can be made.
fn start_thread<R: Threads, J: Job>(runtime: &R, job: J) -> Started<J>
    ensures { result ≡ job }
{
    let of = Snapshot::of(&job);
    let promise = KeptJob(Snapshot::of(&job));
    let builder = Builder::new().stack_size(STACK);
    let running = match builder.spawn_with(runtime, promise, move || job.go()) {
        Ok(handle) => Running::Thread(handle),
        Err(refused) => Running::Here((refused.value)()),
    };
    Started { job: of, running }
}
