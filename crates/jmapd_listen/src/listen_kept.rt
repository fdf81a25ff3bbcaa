//! The command `listen` over accounts whose entries are kept.
ghost use Rattle.std.specs.Prelude.{◌≡◌, ◌≤◌, ◌+◌};
ghost use Rattle.command_line.specs.Shown.{listen_shown};
ghost use Rattle.jmapd_listen.specs.ListensKept.{ListensKept};

use crate::listen::serve_site;
use crate::office::Office;
use command_line::listen::Listen;
use io_edge::clock::Clock;
use io_edge::opener::Opener;
use jmapd_run::kept_status::KeptStatus;
use jmapd_run::start::load_site;
use listen_edge::host::Host;
use listen_edge::spawner::Spawner;
use std::alloc::Global;
use ws_edge::socket_host::SocketHost;

/// Runs the command `listen` over accounts that are kept: workers share the accounts of a site, each of which goes on from what its keeper has of it, and each worker serves one
/// connection of its listener after the other, or one socket, until each has taken as many as it is to.
///
/// The configuration is loaded once, and then all accounts are opened, before a listener is asked for: an account that doesn't open ends it, with the status that tells why. From
/// there it is `listen` over these desks.
///
/// It waits for connections, sockets and their messages, and for turns on accounts: nothing promises that it returns.
pub fn listen_kept<
    O: Opener,
    F: Office,
    H: Host,
    G: SocketHost,
    S: Spawner,
    C: Clock + Copy + Send + Drop + 'static,
>(
    alloc: Global,
    asked: &Listen<'_>,
    opener: &mut O,
    office: &mut F,
    host: &mut H,
    socket_host: &mut G,
    spawner: &mut S,
    clock: C,
) -> KeptStatus
    ensures listens { ListensKept (F.shown office.old) (F.shown office.new)
        (record { connections = H.shown host.old; sockets = G.shown socket_host.old }) (record { connections = H.shown host.new; sockets = G.shown socket_host.new })
        (record { faults = S.faults spawner.old; served = S.served spawner.old }) (record { faults = S.faults spawner.new; served = S.served spawner.new })
        (O.shown opener.old) (O.shown opener.new) (listen_shown asked.now) result }
    ensures told { (F.shown office.new).told ≡ (F.shown office.old).told }
    ensures files { (O.shown opener.new).files ≡ (O.shown opener.old).files }
    ensures once { (O.shown opener.new).loads ≤ (O.shown opener.old).loads + 1 }
{
    let site = match load_site(alloc, opener, asked.config) {
        Ok(site) => site,
        Err(status) => return KeptStatus::Plain(status),
    };
    match office.desks(alloc, &site, asked.all_workers()) {
        Ok(desks) => KeptStatus::Plain(serve_site(
            alloc,
            asked,
            site,
            desks,
            host,
            socket_host,
            spawner,
            clock,
        )),
        Err(status) => status,
    }
}
