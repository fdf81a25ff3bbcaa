//! Jobs that run at the same time.
ghost use Rattle.std.specs.Prelude.{◌≡◌, ◌<◌, ◌≤◌, [], IfOk, OnErr, length, sum_by, vec_capacity};
ghost use Rattle.std.specs.List.{AllZip, list_all};
ghost use Rattle.listen_edge.specs.Ending.{counted, faults_in};
ghost use Rattle.listen_workers.specs.Crew.{is_all};

use listen_edge::job::{Finished, Job, WorkerEnd};
use listen_edge::spawner::{Spawner, Started};
use std::alloc::{AllocError, Global};

/// Runs all jobs at the same time: starts them, in order, and then joins them, in order. Gives what each answered.
///
/// Takes memory for the lists of them, before the first is started. It waits for the jobs.
pub fn run_all<J: Job, S: Spawner>(
    alloc: Global,
    spawner: &mut S,
    jobs: Vec<J>,
) -> Result<Vec<J::Back>, AllocError>
    requires some { 0 < length jobs.items }
    ensures none { OnErr result ((S.faults spawner.new ≡ S.faults spawner.old) × (S.served spawner.new ≡ S.served spawner.old)) }
    ensures each { IfOk result (λ backs. AllZip J.may_answer jobs.items backs.items) }
    ensures faults { IfOk result (λ backs. S.faults spawner.new ≡ counted (S.faults spawner.old) (sum_by (λ back. faults_in (J.Back.ended back).end) backs.items)) }
    ensures served { IfOk result (λ backs. S.served spawner.new ≡ counted (S.served spawner.old) (sum_by (λ back. (J.Back.ended back).served) backs.items)) }
{
    let backs = Vec::with_capacity(alloc, jobs.len())?;
    let started = start_all(alloc, spawner, jobs)?;
    Ok(join_all(spawner, started, backs))
}

// Starts all jobs, in order. Takes memory for the list of them, before the first is started.
fn start_all<J: Job, S: Spawner>(
    alloc: Global,
    spawner: &mut S,
    jobs: Vec<J>,
) -> Result<Vec<Started<J>>, AllocError>
    ensures counts { (S.faults spawner.new ≡ S.faults spawner.old) × (S.served spawner.new ≡ S.served spawner.old) }
    ensures started { IfOk result (λ started. started.items ≡ jobs.items) }
{
    let mut started = Vec::with_capacity(alloc, jobs.len())?;
    for job in jobs {
        started.push_reserved(spawner.start(job));
    }
    Ok(started)
}

// Joins all jobs, in order, and puts what each answered into a list that has room for it.
fn join_all<J: Job, S: Spawner>(
    spawner: &mut S,
    started: Vec<Started<J>>,
    mut backs: Vec<J::Back>,
) -> Vec<J::Back>
    requires some { 0 < length started.items }
    requires room { (backs.items ≡ []) × (length started.items ≤ vec_capacity backs) }
    ensures each { AllZip J.may_answer started.items result.items }
    ensures faults { S.faults spawner.new ≡ counted (S.faults spawner.old) (sum_by (λ back. faults_in (J.Back.ended back).end) result.items) }
    ensures served { S.served spawner.new ≡ counted (S.served spawner.old) (sum_by (λ back. (J.Back.ended back).served) result.items) }
{
    for job in started {
        backs.push_reserved(spawner.join(job));
    }
    backs
}

/// Whether each of these workers served as many connections as it was to.
pub fn all_served<F: Finished>(backs: &[F]) -> bool
    ensures { result ≡ list_all (λ back. is_all (F.ended back).end) backs.now }
{
    backs.iter().all(|back| is_all(back.done().end))
}

fn is_all(end: WorkerEnd) -> bool
    ensures { result ≡ is_all end }
{
    match end {
        WorkerEnd::All => true,
        WorkerEnd::AcceptFault | WorkerEnd::PassSpent => false,
    }
}
