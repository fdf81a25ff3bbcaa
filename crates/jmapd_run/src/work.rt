//! The command `workload`: the requests that a generator gives, and what came of them.
ghost use Rattle.std.specs.Prelude.{◌≤◌, IfOk, string_bytes};
ghost use Rattle.jmapd_run.specs.Headline.{IsWorkText};
ghost use Rattle.jmapd_run.specs.Runs.{WorkloadEnds};

use crate::status::Status;
use account_desk::sole_desk::open_account;
use command_line::workload::Workload;
use io_edge::sink::{Sink, put_all};
use session_doc::Site;
use std::alloc::{AllocError, Global};
use workload::work::work;

/// Makes the requests of a workload on a fresh account of the site without a configuration, and writes what came of them.
pub(crate) fn run_workload<K: Sink>(alloc: Global, asked: Workload, output: &mut K) -> Status
    ensures later { (K.shown output.old).faults ≤ (K.shown output.new).faults }
    ensures how { WorkloadEnds (K.shown output.old) (K.shown output.new) asked.number asked.size result }
{
    let Ok(text) = text_of(alloc, asked) else {
        return Status::NoMemory;
    };
    match put_all(output, text.as_str().as_bytes()) {
        Ok(()) => Status::Done,
        Err(_) => Status::WriteFault,
    }
}

// The four lines of a workload.
fn text_of(alloc: Global, asked: Workload) -> Result<String, AllocError>
    ensures { IfOk result (λ text. IsWorkText asked.number asked.size (string_bytes text)) }
{
    let site = Site::built_in(alloc)?;
    let mut account = open_account(alloc, &site, 0)?;
    let numbers = work(alloc, &mut account, asked.number, asked.size)?;
    numbers.lines(alloc)
}
