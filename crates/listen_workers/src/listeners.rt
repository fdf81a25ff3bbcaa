//! The listeners of workers.
ghost use Rattle.std.specs.Prelude.{◌≡◌, ◌≤◌, IfOk, length};
ghost use Rattle.listen_workers.specs.Listeners.{OpensHow};

use listen_edge::host::{Host, HostError};
use std::alloc::Global;

/// A listener of a port for each of so many workers, from worker 0 on. The first one that the host fails to make ends it.
///
/// Takes memory for the list of them, and what the host takes.
pub fn open_listeners<H: Host>(
    alloc: Global,
    host: &mut H,
    port: u16,
    workers: u32,
) -> Result<Vec<H::L>, HostError>
    ensures how { OpensHow port workers (H.shown host.old) (H.shown host.new) result }
    ensures count { IfOk result (λ listeners. length listeners.items ≡ workers) }
    ensures later { (H.shown host.old).faults ≤ (H.shown host.new).faults }
{
    let Ok(mut listeners) = Vec::with_capacity(alloc, workers as usize) else {
        return Err(HostError::NoMemory);
    };
    for worker in 0..workers {
        match host.listener(port, worker) {
            Ok(listener) => listeners.push_reserved(listener),
            Err(error) => return Err(error),
        }
    }
    Ok(listeners)
}
