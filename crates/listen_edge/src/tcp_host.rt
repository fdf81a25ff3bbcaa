//! Hosts over TCP.
ghost use Rattle.std.specs.Prelude.{◌≡◌, None};

use crate::host::{Host, HostError};
use crate::lobby::Lobby;
use crate::tcp_listener::TcpConnections;
use request_log::lines::Lines;
use std::alloc::Global;
use std::net::{Ipv4Addr, Net, OpenListener, SocketAddr};
use std::sync::{Arc, Wait};
use std::time::Clock;

/// Listens on localhost. A port is bound once, and all its listeners share that one listening socket and the lobby of its connections. It tells contracts nothing of what it was asked for, and an operator by its lines.
#[derive(Drop)]
pub struct TcpHost<R: Net> {
    alloc: Global,
    runtime: R,
    lines: Lines<R>,
    bound: Option<(u16, Arc<Lobby<R::Listener>>)>,
    faults: u64,
}

impl<R: Net> TcpHost<R> {
    /// Makes a host over the runtime, which tells an operator by these lines. Takes no memory.
    pub fn new(alloc: Global, runtime: R, lines: Lines<R>) -> TcpHost<R>
        ensures { result.faults ≡ 0 }
    {
        TcpHost {
            alloc,
            runtime,
            lines,
            bound: None,
            faults: 0,
        }
    }

    // The lobby of a port, which is bound where it isn't yet.
    fn open(&mut self, port: u16) -> Option<Arc<Lobby<R::Listener>>>
        ensures { self.new.faults ≡ self.old.faults }
    {
        if let Some((bound, lobby)) = &self.bound
            && *bound == port
        {
            return Arc::try_clone(lobby).ok();
        }
        let address = SocketAddr::from((Ipv4Addr::LOCALHOST, port));
        let listener = self.runtime.bind(address).ok()?;
        let lobby = Lobby::open(self.alloc, &self.runtime, listener).ok()?;
        let lobby = Arc::new(self.alloc, lobby).ok()?;
        let first = Arc::try_clone(&lobby).ok()?;
        self.bound = Some((port, lobby));
        Some(first)
    }
}

impl<R: Net + Wait + Clock + Copy + Send + Drop + 'static> Host for TcpHost<R>
where
    R::Listener: Send + 'static,
    <R::Listener as OpenListener>::Stream: Send,
{
    type L = TcpConnections<R, R::Listener>;

    ghost shown = { λ h. record { asked = None; faults = h.faults } };

    fn listener(
        &mut self,
        port: u16,
        _worker: u32,
    ) -> Result<TcpConnections<R, R::Listener>, HostError> {
        match self.open(port) {
            Some(lobby) => {
                let lines = self.lines.share()?;
                Ok(TcpConnections::new(self.alloc, self.runtime, lobby, lines))
            }
            None => {
                self.faults = self.faults.saturating_add(1);
                Err(HostError::Failed)
            }
        }
    }

    fn tell_serving(&self, port: u16, workers: u32, accounts: u32) {
        self.lines.say_serving(port, workers, accounts);
    }
}
