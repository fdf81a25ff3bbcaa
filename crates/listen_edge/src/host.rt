//! Hosts: what makes listeners.
ghost use Rattle.std.specs.Prelude.{◌≡◌, ◌⊎◌, ◌≤◌, Err, OnOk};
ghost use Rattle.io_edge.specs.Outside.{Rose};
ghost use Rattle.listen_edge.specs.Listening.{Asks, HostShown};

use crate::listener::ThreadListener;
use std::alloc::AllocError;

/// Why there is no listener.
#[derive(Clone, Copy, Debug, PartialEq, Eq, Drop)]
pub enum HostError {
    /// The host failed: the port is taken, say.
    Failed,
    /// There was no memory for it.
    NoMemory,
}

impl From<AllocError> for HostError {
    ghost use Rattle.listen_edge.specs.declared.host.HostError.TheVariants.{NoMemory};

    ghost from_gives = { λ _ error. error ≡ NoMemory };

    fn from(_: AllocError) -> HostError {
        HostError::NoMemory
    }
}

/// Makes the listeners of a port, one for each worker.
pub trait Host {
    /// The listeners that it makes.
    type L: ThreadListener;

    /// What contracts see of the host.
    ghost shown: { Self → HostShown };

    /// A listener of a port, for the worker of a number.
    fn listener(&mut self, port: u16, worker: u32) -> Result<Self::L, HostError>
        ensures asked { OnOk result (Asks (shown self.old) (shown self.new) port worker) }
        ensures asked_in_vain { result ≡ Err HostError.Failed → Asks (shown self.old) (shown self.new) port worker }
        ensures no_memory { result ≡ Err HostError.NoMemory → Asks (shown self.old) (shown self.new) port worker ⊎ ((shown self.new).asked ≡ (shown self.old).asked) }
        ensures later { (shown self.old).faults ≤ (shown self.new).faults }
        ensures failed { result ≡ Err HostError.Failed → Rose (shown self.old).faults (shown self.new).faults };

    /// Tells an operator that so many workers serve connections of a port from now on, for so many accounts. It doesn't wait until somebody has read of it.
    fn tell_serving(&self, port: u16, workers: u32, accounts: u32);
}
