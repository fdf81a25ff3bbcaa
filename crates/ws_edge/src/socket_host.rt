//! Hosts of sockets: what makes what hands out links.
ghost use Rattle.std.specs.Prelude.{◌≡◌, ◌⊎◌, ◌≤◌, Err, OnOk};
ghost use Rattle.io_edge.specs.Outside.{Rose};
ghost use Rattle.listen_edge.specs.Listening.{Asks, HostShown};

use crate::accept::ThreadAccept;
use listen_edge::host::HostError;

/// Makes what hands out the links of a port, one for each worker.
pub trait SocketHost {
    /// What it makes.
    type A: ThreadAccept;

    /// What contracts see of the host.
    ghost shown: { Self → HostShown };

    /// What hands out links of a port, which is open, to the worker of a number.
    fn accepter(&mut self, port: u16, worker: u32) -> Result<Self::A, HostError>
        ensures asked { OnOk result (Asks (shown self.old) (shown self.new) port worker) }
        ensures asked_in_vain { result ≡ Err HostError.Failed → Asks (shown self.old) (shown self.new) port worker }
        ensures no_memory { result ≡ Err HostError.NoMemory → Asks (shown self.old) (shown self.new) port worker ⊎ ((shown self.new).asked ≡ (shown self.old).asked) }
        ensures later { (shown self.old).faults ≤ (shown self.new).faults }
        ensures failed { result ≡ Err HostError.Failed → Rose (shown self.old).faults (shown self.new).faults };

    /// Tells an operator that so many workers serve the sockets of a port from now on. It doesn't wait until somebody has read of it.
    fn tell_serving(&self, port: u16, workers: u32);
}
