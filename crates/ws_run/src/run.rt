//! The command `websocket`.
ghost use Rattle.std.specs.Prelude.{◌≡◌, ◌≤◌, ◌+◌};
ghost use Rattle.account_desk.specs.FreshDesk.{fresh_desk};
ghost use Rattle.account_desk.specs.SoleDesk.{shown_of};
ghost use Rattle.command_line.specs.Shown.{websocket_shown};
ghost use Rattle.ws_run.specs.Runs.{HostsSite, RunsSockets};

use account_desk::sole_desk::SoleDesk;
use command_line::websocket::Websocket;
use io_edge::clock::Clock;
use io_edge::opener::Opener;
use jmapd_run::start::load_site;
use jmapd_run::status::Status;
use session_doc::Site;
use std::alloc::Global;
use ws_edge::accept::WsAccept;
use ws_edge::link::LinkError;
use ws_serve::host::{HostEnd, host_sockets};

/// Runs the command `websocket`: serves the users of a site over WebSockets of a port, one after the other, on fresh accounts.
///
/// The configuration is loaded once (`OpenFault`, `Config`), and then the port is opened (`OpenFault`). Where the port fails later it ends with `OpenFault` too. A socket that
/// runs out of memory ends alone. It waits for sockets and their messages: nothing promises that it returns.
pub fn listen_ws<O: Opener, A: WsAccept, C: Clock>(
    alloc: Global,
    asked: &Websocket<'_>,
    opener: &mut O,
    accepter: &mut A,
    clock: &mut C,
) -> Status
    ensures runs { RunsSockets (websocket_shown asked.now) (O.shown opener.old) (O.shown opener.new) (A.shown accepter.old) (A.shown accepter.new) (C.moments clock.old) (C.moments clock.new) result }
    ensures files { (O.shown opener.new).files ≡ (O.shown opener.old).files }
    ensures once { (O.shown opener.new).loads ≤ (O.shown opener.old).loads + 1 }
{
    let site = match load_site(alloc, opener, asked.config) {
        Ok(site) => site,
        Err(status) => return status,
    };
    let Ok(mut desk) = SoleDesk::open(alloc, &site) else {
        return Status::NoMemory;
    };
    host_site(alloc, asked, &site, accepter, &mut desk, clock)
}

// Serves the users of a site, by a desk over its fresh accounts.
fn host_site<A: WsAccept, C: Clock>(
    alloc: Global,
    asked: &Websocket<'_>,
    site: &Site,
    accepter: &mut A,
    desk: &mut SoleDesk,
    clock: &mut C,
) -> Status
    requires { shown_of desk.old ≡ fresh_desk site.now }
    ensures { HostsSite (A.shown accepter.old) (A.shown accepter.new) (C.moments clock.old) (C.moments clock.new) site.now (websocket_shown asked.now) result }
{
    match accepter.open(asked.port) {
        Ok(()) => {}
        Err(LinkError::Failed) => return Status::OpenFault,
        Err(LinkError::NoMemory) => return Status::NoMemory,
    }
    match host_sockets(alloc, site, asked.connections, accepter, desk, clock) {
        HostEnd::All => Status::Done,
        HostEnd::AcceptFault => Status::OpenFault,
        HostEnd::NoMemory => Status::NoMemory,
    }
}
