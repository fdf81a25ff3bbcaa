//! Jobs: what is run in a thread of its own.
ghost use Rattle.std.specs.Prelude.{◌≡◌};

/// How a worker ended.
#[derive(Clone, Copy, Debug, PartialEq, Eq, Drop)]
pub enum WorkerEnd {
    /// It served as many connections as it was to serve.
    All,
    /// Its listener failed.
    AcceptFault,
    /// Its desk made as many calls as it may.
    PassSpent,
}

/// What a worker did.
#[derive(Clone, Copy, Debug, PartialEq, Eq, Drop)]
pub struct WorkerDone {
    /// How many connections it served.
    pub served: u64,
    /// How it ended.
    pub end: WorkerEnd,
}

/// What a job answers: it tells how the job ended.
pub trait Finished: Send + Drop + 'static {
    ghost use Rattle.listen_edge.specs.declared.job.WorkerDone.{WorkerDone};

    ghost ended: { Self → WorkerDone };

    /// How the job ended. Takes no memory.
    fn done(&self) -> WorkerDone
        ensures { result ≡ ended self.now };
}

/// What can be run once, in any thread.
pub trait Job: Send + Drop + 'static {
    /// What it answers.
    type Back: Finished;

    // The answers that a job may give.
    ghost may_answer: { Self → Self.Back → Type 0 };

    /// Runs the job. It may wait.
    fn go(self) -> Self::Back
        ensures { may_answer self result };
}
