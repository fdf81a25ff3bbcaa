//! Connections over TCP.
ghost use Rattle.std.specs.Prelude.{◌≡◌, None};

use crate::connection::{Connection, Look, moment};
use crate::listener::{Listener, ThreadListener};
use crate::lobby::{Lobby, Next};
use crate::tcp_ends::{TcpSink, TcpSource};
use io_edge::fault::Failed;
use request_log::lines::Lines;
use request_log::request::{AnsweredRequest, RequestLog};
use spec_connection::served::{ConnEnd, Served};
use std::alloc::{AllocError, Global};
use std::io::{Read, Write};
use std::net::{OpenListener, OpenStream};
use std::os::fd::AsRawFd;
use std::sync::{Arc, Mutex, Wait};
use std::time::Clock;

/// What is told of a connection that memory didn't suffice for.
const OUT_OF_MEMORY: &str = "jmapd: connection out of memory";

/// Hands out the connections of a lobby, which listeners may share. It tells none of them to contracts. By its lines it tells of requests, and of what goes wrong.
#[derive(Drop)]
pub struct TcpConnections<R, L: OpenListener> {
    alloc: Global,
    runtime: R,
    lobby: Arc<Lobby<L>>,
    lines: Lines<R>,
    faults: u64,
}

impl<R: Copy + Drop, L: OpenListener + Drop> TcpConnections<R, L>
where
    L::Stream: Drop,
{
    /// Makes a listener over a lobby. Takes no memory.
    pub(crate) fn new(
        alloc: Global,
        runtime: R,
        lobby: Arc<Lobby<L>>,
        lines: Lines<R>,
    ) -> TcpConnections<R, L>
        ensures { result.faults ≡ 0 }
    {
        TcpConnections {
            alloc,
            runtime,
            lobby,
            lines,
            faults: 0,
        }
    }

    // Both ends of a connection. Takes memory for what they share.
    fn ends_of(
        &self,
        connection: Connection<L::Stream>,
    ) -> Result<(TcpSource<R, L>, TcpSink<R, L>), AllocError> {
        let connection = Arc::new(self.alloc, Mutex::new(connection))?;
        let sink = TcpSink {
            runtime: self.runtime,
            lobby: Arc::try_clone(&self.lobby)?,
            connection: Arc::try_clone(&connection)?,
            faults: 0,
        };
        let source = TcpSource {
            runtime: self.runtime,
            lobby: Arc::try_clone(&self.lobby)?,
            connection,
            faults: 0,
        };
        Ok((source, sink))
    }
}

impl<R: Wait + Clock + Copy, L: OpenListener> RequestLog for TcpConnections<R, L> {
    fn begin(&self) -> Option<u64> {
        self.lines.begin()
    }

    fn tell(&self, request: &AnsweredRequest<'_>) {
        self.lines.tell(request);
    }
}

impl<
    R: Wait + Clock + Copy + Send + Drop + 'static,
    L: OpenListener + AsRawFd + Send + Drop + 'static,
> Listener for TcpConnections<R, L>
where
    L::Stream: Read + Write + OpenStream + AsRawFd + Drop,
{
    type In = TcpSource<R, L>;

    type Out = TcpSink<R, L>;

    ghost shown = { λ l. record { connections = None; faults = l.faults } };

    // Only a broken listening socket is a fault: where the system has no room for another connection, it goes on waiting.
    fn accept(&mut self) -> Result<(TcpSource<R, L>, TcpSink<R, L>), Failed> {
        let runtime = self.runtime;
        for _ in runtime.forever() {
            match self.lobby.next(&runtime) {
                Next::Ready(connection) => {
                    match self.ends_of(connection) {
                        Ok(ends) => return Ok(ends),
                        Err(_) => self.lines.say(OUT_OF_MEMORY),
                    }
                }
                Next::NoneYet => {}
                Next::Broken => break,
            }
        }
        self.lines.say("jmapd: accept failed");
        self.faults = self.faults.saturating_add(1);
        Err(Failed)
    }

    fn ended(&mut self, input: TcpSource<R, L>, output: TcpSink<R, L>, served: Served) {
        let runtime = self.runtime;
        if matches!(served.end, ConnEnd::NoMemory) {
            self.lines.say(OUT_OF_MEMORY);
        }
        drop(output);
        let TcpSource { connection, .. } = input;
        let Some(connection) = Arc::into_inner(connection) else {
            return;
        };
        let mut connection = connection.into_inner();
        let is_at_end = matches!(served.end, ConnEnd::Closed);
        match connection.enter_lobby(is_at_end, moment(&runtime)) {
            Look::Over => {}
            _ => self.lobby.take_back(connection, &runtime),
        }
    }

    ghost balanced = { λ l. tt };
}

impl<
    R: Wait + Clock + Copy + Send + Drop + 'static,
    L: OpenListener + AsRawFd + Send + Drop + 'static,
> ThreadListener for TcpConnections<R, L>
where
    L::Stream: Read + Write + OpenStream + AsRawFd + Send + Drop,
{}
