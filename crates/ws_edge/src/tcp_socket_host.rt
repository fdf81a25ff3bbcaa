//! Hosts of sockets over TCP.
ghost use Rattle.std.specs.Prelude.{◌≡◌, None};

use crate::socket_host::SocketHost;
use crate::tcp_accept::TcpAccept;
use listen_edge::host::HostError;
use request_log::lines::Lines;
use std::alloc::Global;
use std::io;
use std::net::{Ipv4Addr, Net, OpenListener, SocketAddr};
use std::sync::Wait;
use std::time::Clock;

/// Listens on localhost. A port is bound once, and all that hands out its links shares the one listening socket. It tells contracts nothing of what it was asked for, and an operator by its lines.
#[derive(Drop)]
pub struct TcpSocketHost<R: Net> {
    alloc: Global,
    runtime: R,
    lines: Lines<R>,
    bound: Option<(u16, R::Listener)>,
    faults: u64,
}

impl<R: Net> TcpSocketHost<R> {
    /// Makes a host over the runtime, which tells an operator by these lines. Takes no memory.
    pub fn new(alloc: Global, runtime: R, lines: Lines<R>) -> TcpSocketHost<R>
        ensures { result.faults ≡ 0 }
    {
        TcpSocketHost {
            alloc,
            runtime,
            lines,
            bound: None,
            faults: 0,
        }
    }

    // A handle of the listening socket of a port, which is bound where it isn't yet.
    fn listening(&mut self, port: u16) -> io::Result<R::Listener>
        ensures { self.new.faults ≡ self.old.faults }
    {
        if let Some((bound, listener)) = &self.bound
            && *bound == port
        {
            return listener.try_clone();
        }
        let listener = self
            .runtime
            .bind(SocketAddr::from((Ipv4Addr::LOCALHOST, port)))?;
        let first = listener.try_clone()?;
        self.bound = Some((port, listener));
        Ok(first)
    }
}

impl<R: Net + Wait + Clock + Copy + Send + Drop + 'static> SocketHost for TcpSocketHost<R>
where
    R::Listener: Send + 'static,
    R::Stream: Send,
{
    type A = TcpAccept<R>;

    ghost shown = { λ h. record { asked = None; faults = h.faults } };

    fn accepter(&mut self, port: u16, _worker: u32) -> Result<TcpAccept<R>, HostError> {
        match self.listening(port) {
            Ok(listener) => Ok(TcpAccept::listening(self.alloc, self.runtime, listener)),
            Err(_) => {
                self.faults = self.faults.saturating_add(1);
                Err(HostError::Failed)
            }
        }
    }

    fn tell_serving(&self, port: u16, workers: u32) {
        let worker = if workers == 1 { "worker" } else { "workers" };
        let line = format!(in self.alloc; "sockets on 127.0.0.1:{port}, {workers} {worker}");
        if let Ok(line) = line {
            self.lines.say(line.as_str());
        }
    }
}
