//! The command `stdio`: one connection.
ghost use Rattle.std.specs.Prelude.{◌≡◌, ◌≢◌, ◌⊎◌, Some};
ghost use Rattle.jmapd_run.specs.declared.status.Status.TheVariants.{NoMemory};
ghost use Rattle.jmapd_run.specs.Runs.{RunsStdio, status_of};

use crate::status::Status;
use account_desk::sole_desk::SoleDesk;
use conn_serve::serve::serve_connection;
use io_edge::clock::Clock;
use io_edge::sink::Sink;
use io_edge::source::Source;
use request_log::request::NoLog;
use session_doc::Site;
use spec_connection::served::ConnEnd;
use std::alloc::Global;

/// Serves one connection over fresh accounts.
pub(crate) fn run_stdio<S: Source, K: Sink, C: Clock>(
    alloc: Global,
    site: &Site,
    input: &mut S,
    output: &mut K,
    clock: &mut C,
) -> Status
    ensures { RunsStdio (record { input = S.shown input.old; output = K.shown output.old; clock = C.moments clock.old })
        (record { input = S.shown input.new; output = K.shown output.new; clock = C.moments clock.new }) site.now result
        ⊎ ((result ≡ NoMemory) × (S.shown input.new ≡ S.shown input.old) × (K.shown output.new ≡ K.shown output.old) × (C.moments clock.new ≡ C.moments clock.old)) }
{
    let Ok(mut desk) = SoleDesk::open(alloc, site) else {
        return Status::NoMemory;
    };
    let served = serve_connection(alloc, site, input, output, &mut desk, clock, &NoLog);
    desk.all_entries_are_its_own();
    status_of(served.end)
}

// How the command ends, by how its connection ended. A desk over fresh accounts is asked for at most 160,000 calls, so its end isn't `PassSpent`.
fn status_of(end: ConnEnd) -> Status
    requires { end ≢ ConnEnd.PassSpent }
    ensures { status_of end ≡ Some result }
{
    match end {
        ConnEnd::Closed | ConnEnd::CloseAsked => Status::Done,
        ConnEnd::BadHead(_) | ConnEnd::Truncated | ConnEnd::Quota => Status::Cut,
        ConnEnd::ReadFault => Status::ReadFault,
        ConnEnd::WriteFault => Status::WriteFault,
        ConnEnd::NoMemory => Status::NoMemory,
        ConnEnd::PassSpent => unreachable!(),
    }
}
