//! What hands out links over TCP.
ghost use Rattle.std.specs.Prelude.{◌≡◌, ◌≤◌, ◌<◌, None, IfSome, length};
ghost use Rattle.io_edge.specs.Outside.{Rose};

use crate::accept::{ThreadAccept, WsAccept};
use crate::event_link::EventLink;
use crate::handshake::shake_hands;
use crate::link::LinkError;
use crate::request_head::{EventsAsked, HeadAsks, read_head, take_head};
use crate::socket_link::SocketLink;
use crate::tcp_end::TcpEnd;
use crate::tcp_link::TcpLink;
use listen_edge::accept_error::is_broken;
use session_doc::Site;
use spec_sockets::served::WsServed;
use std::alloc::Global;
use std::io::{Read, Write};
use std::net::{Ipv4Addr, Net, OpenListener, OpenStream, SocketAddr};
use std::time::{Clock, Duration};

/// How long the head of a request and a handshake may take, in seconds.
const HANDSHAKE_SECONDS: u64 = 10;

/// How many milliseconds a link waits for a message before it is quiet. Where nothing comes 50 times so long, the peer is asked for a sign of life; at 120 times the link ends.
const PATIENCE_MILLISECONDS: u64 = 500;

/// How many milliseconds pass before the next try to accept where one failed.
const PAUSE_MILLISECONDS: u64 = 100;

/// For how many seconds at most what a peer still sends behind the end is passed over, so that it gets the reason.
const LINGER_SECONDS: u64 = 2;

/// Hands out links over localhost: each WebSocket behind its handshake, and each stream of events behind the head of its response. It tells nothing of what it was asked for.
#[derive(Drop)]
pub struct TcpAccept<R: Net> {
    alloc: Global,
    runtime: R,
    listener: Option<R::Listener>,
    asked: u64,
    faults: u64,
}

impl<R: Net + Clock + Copy + Drop> TcpAccept<R> {
    /// Makes one over the runtime. Takes no memory.
    pub fn new(alloc: Global, runtime: R) -> TcpAccept<R>
        ensures { (result.faults ≡ 0) × (result.asked ≡ 0) }
    {
        TcpAccept {
            alloc,
            runtime,
            listener: None,
            asked: 0,
            faults: 0,
        }
    }

    /// Makes one over a listening socket, whose port is open. Takes no memory.
    pub(crate) fn listening(alloc: Global, runtime: R, listener: R::Listener) -> TcpAccept<R>
        ensures { (result.faults ≡ 0) × (result.asked ≡ 0) }
    {
        TcpAccept {
            alloc,
            runtime,
            listener: Some(listener),
            asked: 0,
            faults: 0,
        }
    }

    fn fail(&mut self) -> LinkError
        ensures later { self.old.faults ≤ self.new.faults }
        ensures failed { Rose self.old.faults self.new.faults }
        ensures asked { self.new.asked ≡ self.old.asked }
        ensures is { result ≡ LinkError.Failed }
    {
        self.faults = self.faults.saturating_add(1);
        LinkError::Failed
    }

    // The next connection, or none where the listening socket is of no more use. Where the system has no room for one, or one ended before it was accepted, it goes on waiting.
    fn next_stream(&self) -> Option<R::Stream> {
        let listener = self.listener.as_ref()?;
        for _ in 0..u64::MAX {
            match listener.accept() {
                Ok((stream, _)) => return Some(stream),
                Err(error) if is_broken(&error) => return None,
                Err(_) => self
                    .runtime
                    .sleep(Duration::from_millis(PAUSE_MILLISECONDS)),
            }
        }
        None
    }

    // The link that the head of a request asks for on a connection. One that finds no memory ends alone.
    fn open_link(&self, stream: R::Stream, site: &Site) -> Option<(u32, TcpLink<R::Stream, R>)>
        ensures { IfSome result (λ pair. pair.0 < length site.now.users) }
    {
        let patience = Duration::from_secs(HANDSHAKE_SECONDS);
        let mut end = TcpEnd::until(self.alloc, stream, self.runtime, patience).ok()?;
        let head = take_head(self.alloc, &mut end).ok()?;
        match read_head(self.alloc, &head, site).ok()? {
            HeadAsks::Socket => {
                end.put_back(head);
                self.open_socket(end, site)
            }
            HeadAsks::Events(asked) => {
                let user = asked.user;
                Some((user, self.open_events(end, asked)?))
            }
            HeadAsks::Refused(response) => {
                refuse(end, &response);
                None
            }
        }
    }

    // A WebSocket, behind its handshake.
    fn open_socket(
        &self,
        end: TcpEnd<R::Stream, R>,
        site: &Site,
    ) -> Option<(u32, TcpLink<R::Stream, R>)>
        ensures { IfSome result (λ pair. pair.0 < length site.now.users) }
    {
        let Ok(Some((user, mut end))) = shake_hands(self.alloc, end, site) else {
            return None;
        };
        match end.wait_at_each_call(Duration::from_millis(PATIENCE_MILLISECONDS)) {
            Ok(()) => Some((user, TcpLink::Socket(SocketLink::new(self.alloc, end)))),
            Err(_) => None,
        }
    }

    // A stream of events, whose client may be silent for as long as it likes.
    fn open_events(
        &self,
        mut end: TcpEnd<R::Stream, R>,
        asked: EventsAsked,
    ) -> Option<TcpLink<R::Stream, R>> {
        end.wait_at_each_call(Duration::from_millis(PATIENCE_MILLISECONDS))
            .ok()?;
        end.allow_silence();
        let link = EventLink::begin(
            self.alloc,
            end,
            self.runtime,
            asked.query,
            asked.last_event_id,
        );
        Some(TcpLink::Events(link.ok()?))
    }
}

// Answers a request that is refused, and ends its connection.
fn refuse<S: Read + Write + OpenStream, R: Clock>(mut end: TcpEnd<S, R>, response: &[u8])
where
    S: Drop,
    R: Drop,
{
    if end.write_all(response).is_ok() {
        end.pass_over(Duration::from_secs(LINGER_SECONDS));
    }
}

impl<R: Net + Clock + Copy + Drop> WsAccept for TcpAccept<R> {
    type Link = TcpLink<R::Stream, R>;

    ghost shown = { λ a. record { ports = None; sockets = None; asked = a.asked; faults = a.faults } };

    fn open(&mut self, port: u16) -> Result<(), LinkError> {
        let address = SocketAddr::from((Ipv4Addr::LOCALHOST, port));
        match self.runtime.bind(address) {
            Ok(listener) => {
                self.listener = Some(listener);
                Ok(())
            }
            Err(_) => Err(self.fail()),
        }
    }

    fn accept(&mut self, site: &Site) -> Result<Option<(u32, TcpLink<R::Stream, R>)>, LinkError> {
        let Some(stream) = self.next_stream() else {
            return Err(self.fail());
        };
        let found = self.open_link(stream, site);
        self.asked = self.asked.saturating_add(1);
        Ok(found)
    }

    fn ended(&mut self, link: TcpLink<R::Stream, R>, served: WsServed) {
        link.end(served, Duration::from_secs(LINGER_SECONDS));
    }

    ghost balanced = { λ a. tt };
}

impl<R: Net + Clock + Copy + Send + Drop + 'static> ThreadAccept for TcpAccept<R>
where
    R::Listener: Send + 'static,
    R::Stream: Send,
{}
