//! What is read of a connection over TCP, and what is written.
ghost use Rattle.std.specs.Prelude.{◌≡◌, None, IfOk};
ghost use Rattle.std.specs.Io.{ReadsAtMost};

use crate::connection::{Connection, moment};
use crate::lobby::Lobby;
use io_edge::fault::Failed;
use io_edge::sink::Sink;
use io_edge::source::Source;
use std::io::{Read, Write};
use std::net::{OpenListener, OpenStream};
use std::os::fd::AsRawFd;
use std::sync::{Arc, Mutex, Wait};
use std::time::Clock;

/// A connection that its two ends share.
pub(crate) type Shared<S> = Arc<Mutex<Connection<S>>>;

/// What is read of a connection. It tells nothing of what is left.
#[derive(Drop)]
pub struct TcpSource<R, L: OpenListener> {
    pub(crate) runtime: R,
    pub(crate) lobby: Arc<Lobby<L>>,
    pub(crate) connection: Shared<L::Stream>,
    pub(crate) faults: u64,
}

impl<R: Wait + Clock + Copy, L: OpenListener + AsRawFd + Drop> TcpSource<R, L>
where
    L::Stream: Read + Write + OpenStream + AsRawFd + Drop,
{
    // What came, as soon as something has. The end of the input, where the connection is given back, and a fault where the peer is too slow.
    fn take_in_time(&self, buf: &mut [u8]) -> Result<usize, Failed>
        ensures { ReadsAtMost result buf.new }
    {
        let runtime = self.runtime;
        let mut connection = self.connection.lock(&runtime);
        let held = connection.take_held(buf);
        if held > 0 {
            return Ok(held);
        }
        for _ in runtime.forever() {
            let is_short = self.lobby.is_unattended();
            match connection.read_some(buf, is_short, moment(&runtime))? {
                Some(count) => return Ok(count),
                None => {}
            }
            let others_wait = self.lobby.look_after(&runtime);
            let now = moment(&runtime);
            if connection.rests(others_wait, now) {
                return Ok(0);
            }
            if connection.is_late(now) {
                return Err(Failed);
            }
        }
        Err(Failed)
    }
}

impl<R: Wait + Clock + Copy, L: OpenListener + AsRawFd + Drop> Source for TcpSource<R, L>
where
    L::Stream: Read + Write + OpenStream + AsRawFd + Drop,
{
    ghost shown = { λ source. record { left = None; faults = source.faults } };

    fn take(&mut self, buf: &mut [u8]) -> Result<usize, Failed> {
        let taken = self.take_in_time(buf);
        if taken.is_err() {
            self.faults = self.faults.saturating_add(1);
        }
        taken
    }
}

/// What is written of a connection. It tells nothing of what it holds.
#[derive(Drop)]
pub struct TcpSink<R, L: OpenListener> {
    pub(crate) runtime: R,
    pub(crate) lobby: Arc<Lobby<L>>,
    pub(crate) connection: Shared<L::Stream>,
    pub(crate) faults: u64,
}

impl<R: Wait + Clock + Copy, L: OpenListener + AsRawFd + Drop> TcpSink<R, L>
where
    L::Stream: Read + Write + OpenStream + AsRawFd + Drop,
{
    // Sends a response, behind those before it. What the peer doesn't take within a while is kept, and sent later.
    fn give_in_time(&self, bytes: &[u8]) -> Result<(), Failed> {
        if bytes.is_empty() {
            return Ok(());
        }
        let runtime = self.runtime;
        let mut connection = self.connection.lock(&runtime);
        let mut rest = bytes;
        for _ in runtime.forever() {
            let count = connection.give(rest, moment(&runtime))?;
            rest = &rest[count..];
            if rest.is_empty() {
                return Ok(());
            }
            self.lobby.look_after(&runtime);
            if connection.is_late(moment(&runtime)) {
                break;
            }
        }
        Err(Failed)
    }
}

impl<R: Wait + Clock + Copy, L: OpenListener + AsRawFd + Drop> Sink for TcpSink<R, L>
where
    L::Stream: Read + Write + OpenStream + AsRawFd + Drop,
{
    ghost shown = { λ sink. record { holds = None; faults = sink.faults } };

    fn give(&mut self, bytes: &[u8]) -> Result<usize, Failed> {
        match self.give_in_time(bytes) {
            Ok(()) => Ok(bytes.len()),
            Err(failed) => {
                self.faults = self.faults.saturating_add(1);
                Err(failed)
            }
        }
    }
}
