//! The commands, over any opener, input, output and clock.
ghost use Rattle.std.specs.Prelude.{◌≡◌, ◌≤◌, ◌+◌, option_map};
ghost use Rattle.command_line.specs.Shown.{command_shown};
ghost use Rattle.jmapd_run.specs.Runs.{Runs, streamed};

use crate::batch::run_batch;
use crate::start::{Start, start_from};
use crate::status::Status;
use crate::stdio::run_stdio;
use crate::work::run_workload;
use command_line::command::Command;
use io_edge::clock::Clock;
use io_edge::opener::Opener;
use io_edge::sink::Sink;
use io_edge::source::Source;
use std::alloc::Global;

/// Runs a command over streams; it is `None` where the words were no command's.
///
/// `batch` reads one request, answers it on fresh accounts, and writes the response or the problem with a line feed (RFC 8620
/// section 3). `stdio` serves one HTTP connection over fresh accounts. `workload` makes the requests that a generator gives on a fresh account, and writes what came of
/// them. No command is `Usage`, and so is `listen`, which has no use for streams. The command is looked at first, then the
/// configuration, which is loaded once at most, then the name of the user; the input and the output aren't touched before.
pub fn run<O: Opener, S: Source, K: Sink, C: Clock>(
    alloc: Global,
    command: Option<Command<'_>>,
    opener: &mut O,
    input: &mut S,
    output: &mut K,
    clock: &mut C,
) -> Status
    ensures runs { Runs (record { input = S.shown input.old; output = K.shown output.old; clock = C.moments clock.old })
        (record { input = S.shown input.new; output = K.shown output.new; clock = C.moments clock.new })
        (O.shown opener.old) (O.shown opener.new) (streamed (option_map command_shown command.entry)) result }
    ensures files { (O.shown opener.new).files ≡ (O.shown opener.old).files }
    ensures once { (O.shown opener.new).loads ≤ (O.shown opener.old).loads + 1 }
{
    match start_from(alloc, command, opener) {
        Ok(Start::Batch(site, user)) => run_batch(alloc, &site, user, input, output, clock),
        Ok(Start::Stdio(site)) => run_stdio(alloc, &site, input, output, clock),
        Ok(Start::Workload(work)) => run_workload(alloc, work, output),
        Err(status) => status,
    }
}
