//! What hands out links to workers of sockets.
ghost use Rattle.std.specs.Prelude.{◌≡◌, ◌≤◌, IfOk, length};
ghost use Rattle.listen_workers.specs.Listeners.{OpensHow};

use listen_edge::host::HostError;
use std::alloc::Global;
use ws_edge::socket_host::SocketHost;

/// What hands out the links of a port to each of so many workers, from worker 0 on. The first one that the host fails to make ends it.
///
/// Takes memory for the list of them, and what the host takes.
pub fn open_accepters<G: SocketHost>(
    alloc: Global,
    host: &mut G,
    port: u16,
    workers: u32,
) -> Result<Vec<G::A>, HostError>
    ensures how { OpensHow port workers (G.shown host.old) (G.shown host.new) result }
    ensures count { IfOk result (λ accepters. length accepters.items ≡ workers) }
    ensures later { (G.shown host.old).faults ≤ (G.shown host.new).faults }
{
    let Ok(mut accepters) = Vec::with_capacity(alloc, workers as usize) else {
        return Err(HostError::NoMemory);
    };
    for worker in 0..workers {
        match host.accepter(port, worker) {
            Ok(accepter) => accepters.push_reserved(accepter),
            Err(error) => return Err(error),
        }
    }
    Ok(accepters)
}
